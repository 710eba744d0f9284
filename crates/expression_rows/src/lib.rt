//! The row of each expression: what is known of it, the least constraint that it breaks, and which rules fail.
//!
//! What a row is is said in `meaning_typing`, over types as trees; here a type is a number of the table, and how facts
//! and rows are seen is said in `specs/Facts.antt` and `specs/Rows.antt`. A row asks what is known of its parts and
//! nothing else: neither the unit nor other nodes. Start reading at [`ExpressionFact`] and [`Row`].
#![tactic(auto)]

mod access;
mod assignment;
mod binary;
mod call;
mod cast;
mod change;
mod conditional;
mod convert;
mod expect;
mod indirection;
mod law;
mod literal;
mod logical;
mod name;
mod operand;
mod outcome;
mod plain;
mod returning;
mod row;
mod size;
mod sort;
mod spaces;
mod subscript;
mod truncation;
mod unary;
mod value;

pub use access::{is_loaded, judge_access};
pub use assignment::judge_assignment;
pub use binary::judge_binary;
pub use call::{Argument, called_function, judge_call, result_with};
pub use cast::judge_cast;
pub use change::{judge_compound, judge_step_before, judge_step_behind, place_broken};
pub use conditional::{ConditionalTokens, judge_conditional};
pub use expect::judge_expect;
pub use indirection::{judge_address, judge_indirection};
pub use literal::{judge_literal, judge_string};
pub use logical::{judge_comma, judge_logical, judge_not, judge_statement_expression};
pub use name::{DeclaredName, judge_name};
pub use operand::{is_array, is_function, is_void, number_of, void_used};
pub use returning::{Returned, judge_return};
pub use row::{Broken, Row, RowFailures, broken_at, lesser};
pub use size::judge_size;
pub use sort::{BinaryTokens, has_no_size, is_incomplete};
pub use subscript::{SubscriptTokens, judge_subscript};
pub use unary::judge_unary;
pub use value::{Valued, type_of_value, with_value};
