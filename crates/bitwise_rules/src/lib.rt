//! What an operator says of two operands: the rule that fails, whether a fouled one is tested, and of the result its
//! restricted identity and whether it is fouled.
//!
//! An answer is a few comparisons of numbers of the table of types. What it is is said in `meaning_operands`, and how
//! the values of this crate are seen there in `specs/Seen.antt`. What kind of type the result has, which constraints
//! hold, and where a failure stands isn't known here. Start reading at [`operator_rule`].
#![tactic(auto)]

mod answer;
mod law;
mod operands;
mod parts;
mod table;

pub use answer::{RuleAnswer, operator_rule};
