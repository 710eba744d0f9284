//! What is told of a unit: of all that fails at its nodes and all that they break, node by node, its listing or its first refusal.
//!
//! What a node has isn't said here: `meaning_units` says it, and what the judgement of a unit is. Start reading at `specs/Rules.antt`.
#![tactic(auto)]

mod rules;

pub use rules::{the_least_is_told, worked_examples};
