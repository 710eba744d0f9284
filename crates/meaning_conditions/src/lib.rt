//! The value of an `#if` (C11 6.10.1): which tokens are an expression there, what it is worth, and at which
//! token a list goes wrong.
//!
//! Definitions over tokens with their spellings, without memory or ids. [`conditions`] has the laws that
//! hold of them. Start reading at `specs/Expressions.antt` and `specs/Values.antt`.
#![tactic(auto)]

mod conditions;

pub use conditions::{
    each_list_has_one_answer, each_list_is_at_most_one_tree, fronts_go_on_up_to_the_bad_index,
    the_first_zero_divisor_is_told, worked_examples,
};
