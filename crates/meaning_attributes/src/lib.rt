//! The attributes of a list, as GNU C writes them and the checker knows them, and the changes of context
//! statements.
//!
//! Definitions over the tokens between the parentheses, without memory or ids. Nothing here asks the
//! grammar: each list of tokens has an answer. [`attributes`] has the laws that hold of them. Start
//! reading at `specs/Reading.antt` and `specs/Items.antt`.
#![tactic(auto)]

mod attributes;

pub use attributes::{lists_are_cut_in_one_way, worked_examples};
