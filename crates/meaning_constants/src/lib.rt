//! Constant values (C11 6.6): what an expression comes to by what is known of its parts, or that it is no integer constant.
//!
//! Definitions over numbers, kinds and types, without trees, memory or ids. [`constants`] has the laws and the examples that
//! hold of them. Start reading at `specs/Constants.antt`.
#![tactic(auto)]

mod constants;

pub use constants::{
    compared_examples, constants_are_in_range, node_constants_are_kept, numbers_are_converted,
    worked_examples, worked_nodes, wrapping_commutes,
};
