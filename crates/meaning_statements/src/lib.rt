//! Statements, labels and jumps (C11 6.8): what each belongs to, and what it breaks.
//!
//! Definitions over what `meaning_typing` says of the nodes of a unit. Start reading at `specs/Jumps.antt`, then
//! `specs/Statements.antt` and `specs/StatementRows.antt`.
#![tactic(auto)]

mod statements;

pub use statements::{
    gotos_have_one_label, nodes_above_come_down, worked_jumps, worked_statements,
};
