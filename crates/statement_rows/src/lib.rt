//! The rows of statements (C11 6.8): the least constraint that each breaks, and which rules fail.
//!
//! What the rows are is said in `meaning_statements`. A row asks what is known of conditions, values and labels; what a jump or a label
//! belongs to, and whether it enters a statement expression, is handed over. Labels of switches and of functions are kept by their
//! numbers and names, so that one of them is looked up in a few steps, and what is kept stands for the list of those that were read
//! (`specs/Labels.antt`). Neither the unit nor its nodes are known. Start reading at [`judge_condition`], [`judge_case`] and
//! [`SwitchLabels`].
#![tactic(auto)]

mod condition;
mod jumps;
mod labels;
mod named_labels;
mod numbers;
mod returning;
mod switch_labels;

pub use condition::{judge_condition, judge_do, judge_switch};
pub use jumps::{judge_goto, judge_jump, judge_label};
pub use labels::{CasePlace, judge_case, judge_default};
pub use named_labels::{FunctionLabel, FunctionLabels};
pub use numbers::number_of_label;
pub use returning::judge_return_statement;
pub use switch_labels::SwitchLabels;
