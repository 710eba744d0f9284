//! Initializers (C11 6.7.9): which part of an object each one fills, what is refused, and which type the object has then.
//!
//! Definitions over initializers as trees, which a unit's nodes and what is known of them give. Start reading at
//! `specs/Filling.antt`.
#![tactic(auto)]

mod initializers;

pub use initializers::{
    constants_stay_constant, each_initializer_has_one_outcome, leaves_are_for_parts, worked_leaves,
    worked_nodes, worked_refusals,
};
