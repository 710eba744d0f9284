//! The judgement of a unit with structures, unions and enumerations: what is known of its nodes, what fails at them, what they break,
//! and what is told of it.
//!
//! Definitions over the rows of `meaning_typing/specs/WholeTyping.antt` and those of statements, which `meaning_statements` has.
//! What initializers say is left out here: `meaning_units` has the judgement with it. Start reading at `specs/UnitRows.antt`, then `specs/WholeFacts.antt` and
//! `specs/WholeRules.antt`.
#![tactic(auto)]

mod judgements;

pub use judgements::{
    each_unit_has_one_list_of_whole_facts, each_unit_has_one_whole_judgement,
    statements_tell_no_facts, units_have_what_their_nodes_have,
};
