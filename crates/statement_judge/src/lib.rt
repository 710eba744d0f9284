//! The rows of statements, labels and jumps by their nodes (C11 6.8), and what is kept of them while nodes come in their order.
//!
//! A unit, what its nodes stand in, and what is known of the nodes before a statement go in; the least constraint that the statement
//! breaks and the rules that fail come out. What stands above each node is found once (`src/pass.rt`, `src/runs.rt`), labels and jumps
//! are kept as they are read (`src/statements.rt`), and the rows themselves are those of `statement_rows`. Declarations and names of
//! objects aren't known here. The definitions stand in `meaning_statements/specs/StatementRows.antt`; `specs/Statements.antt` says what
//! is kept. Start reading at [`row_of_statement`] and [`Statements`].
#![tactic(auto)]

mod conditions;
mod enclosing;
mod enclosings;
mod gotos;
mod jumps;
mod keeping;
mod labels;
mod laws;
mod nesting;
mod owners;
mod parts;
mod pass;
mod rows;
mod runs;
mod statements;

pub use enclosing::Enclosing;
pub use enclosings::Enclosings;
pub use gotos::{Gotos, KeptGoto};
pub use laws::more_is_known_later;
pub use nesting::Nesting;
pub use pass::enclosings_of;
pub use rows::row_of_statement;
pub use runs::{Runs, runs_of};
pub use statements::Statements;
