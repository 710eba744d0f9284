//! What is known of expressions by what is known of their parts, which rules fail at them, and the least constraint that each breaks.
//!
//! What the row of a node says is said in `meaning_typing`. The rows by what is known of parts are in `expression_rows`; here an
//! expression is a handle, whose parts are looked up. Of the rows those that ask no layout stand here; `whole_judge` takes them kind by
//! kind. Start reading at [`operand_at`] and [`take_row`].
#![tactic(auto)]

mod calls;
mod casts;
mod constants;
mod expressions;
mod operands;
mod operators;
mod parts;
mod row;
mod selections;

pub use calls::arguments_among;
pub use casts::cast;
pub use constants::{bits_folded, with_bits};
pub use expressions::{address, indirection, string};
pub use operands::{OneOperand, TwoOperands, operand_of, operands_of};
pub use operators::{comma, expect, logical, not, unary};
pub use parts::{
    declaration_of, expression_at, expression_of, operand_at, operands_at, returned_among,
};
pub use row::{NodeRow, append, fact_of, take_row};
pub use selections::{conditional, statement_expression};
