//! The row of one expression of a unit whose structures, unions and enumerations are known.
//!
//! What the row of a node says is said in `meaning_typing` (`WholeTyping`), over what is known of the aggregates of a unit; here that
//! is what a table of types was told, and which of its aggregates have a const member. The rows by what is known of parts are in
//! `expression_rows`, `member_rows`, `whole_rows` and `enum_rows`; here an expression is a handle, whose parts are looked up. What
//! asks no layout is taken from `expr_judge`. Start reading at [`row_of_expression`]; names have calls of their own.
#![tactic(auto)]

mod calls;
mod constants;
mod loaded;
mod members;
mod names;
mod offsets;
mod operation;
mod operators;
mod places;
mod primary;
mod rows;
mod walk;

pub use names::{row_of_declared_name, row_of_enumerator_name};
pub use rows::row_of_expression;
