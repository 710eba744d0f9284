//! Rows of the grammar that stand in one another's place, opened at once (C11 6.5).
//!
//! An operand stands below thirteen symbols, each with one row that begins with the next, and behind it wait the operators of
//! each kind, most of which aren't there. A parser that goes through these rows one by one does little else. Here is what they
//! come to, by the rows of `meaning_grammar`, and which of those operators aren't there. Nothing here reads a token or keeps a
//! stack, and nothing takes memory. Start reading at [`open`].
#![tactic(auto)]

mod absent;
mod opening;

pub use absent::{absent_in_front, is_absent};
pub use opening::open;
