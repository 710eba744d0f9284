//! What control passes in a function: its paths, as a list of the steps on each.
//!
//! Definitions over what is known of the nodes of a unit, and what holds of every flow that goes the same ways. Start reading at
//! `specs/Rows.antt`.
#![tactic(auto)]

mod control;

pub use control::{
    bodies_without_changes_pass_none, flows_have_the_paths,
    functions_without_contexts_change_nothing, listed_paths_are_paths,
    paths_without_changes_balance, worked_examples, worked_flow,
};
