//! The first form of C: declarations of `int` objects, and functions that assign one to another,
//! through a pointer too, or its address to a pointer.
//!
//! Definitions over the spellings of tokens, without memory, pointers or ids. [`form`] has the laws
//! that hold of them. Start reading at `specs/Items.antt`.
#![tactic(auto)]

mod form;

pub use form::{
    each_token_list_derives_at_most_one_tree, each_token_list_is_at_most_one_unit, worked_examples,
};
