//! The rows of expressions that take an object of an aggregate's type whole: assignments, `++` and `--`, subscripts, calls, and
//! what is loaded (C11 6.3.2.1 p1, p2, 6.5.2.1 p1, 6.5.2.2 p1).
//!
//! What a row is is said in `meaning_typing`, over what is known of the aggregates of a unit; here that is what a table of
//! types was told, and which of its aggregates have a const member. Each row is that of `expression_rows`, and what an
//! incomplete type breaks besides. It asks neither the unit nor other nodes. Start reading at [`judge_whole_assignment`] and
//! [`ConstAggregates`].
#![tactic(auto)]

mod assignment;
mod call;
mod change;
mod const_aggregates;
mod incomplete;
mod laws;
mod loaded;
mod store;
mod subscript;

pub use assignment::judge_whole_assignment;
pub use call::judge_whole_call;
pub use change::{judge_whole_compound, judge_whole_step_before, judge_whole_step_behind};
pub use const_aggregates::ConstAggregates;
pub use laws::const_aggregates_are_known;
pub use loaded::judge_loaded;
pub use subscript::judge_whole_subscript;
