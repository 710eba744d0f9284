//! The judgement of a unit with initializers: the rows of its nodes, what fails at them, what they break, and what is told of it.
//!
//! Definitions over the rows of `meaning_judgements`, which know of no initializers, and those of `meaning_initialized`. What an
//! initializer comes to is a relation, so rows are one too: a unit has a list of rows, each over what those before it tell. `type_judge`
//! finds them. Start reading at `specs/UnitRows.antt`, then `specs/WholeRows.antt` and `specs/WholeRules.antt`.
#![tactic(auto)]

mod units;

pub use units::{
    each_unit_has_one_judgement, each_unit_has_one_list_of_rows, units_have_what_their_nodes_have,
};
