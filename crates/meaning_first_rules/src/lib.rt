//! What a rule is broken by, and the text of its warning.
//!
//! A unit has places that are read or written and values that are converted; a rule fails at some of
//! them. Definitions over pure shapes; [`listing`] has the laws that hold of them. Start reading at
//! `specs/Failures.antt`.
#![tactic(auto)]

mod listing;

pub use listing::{each_unit_has_one_listing, worked_examples, worked_trees};
