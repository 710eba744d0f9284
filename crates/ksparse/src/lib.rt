//! The top call: words and files in, an exit out, and on the two sinks the answer.
//!
//! [`check_tokens`] is the way of the tokens of one unit through the crates below. What the top call promises stands at
//! [`ksparse`](top); start reading there.
#![tactic(auto)]

mod answer;
mod check;
mod class_names;
mod command;
mod examples;
mod exit;
mod expand;
mod identifier;
mod option;
mod parsing;
mod reading;
mod refusal;
mod reply;
mod top;
mod write;

pub use answer::{Stop, tell_stop};
pub use check::check_tokens;
pub use command::{Command, WordFault, read_words};
pub use context_judge::{
    JudgeFault, Judged, enclosings_of, has_body, is_function_definition, judge, knows_tokens,
    note_at,
};
pub use examples::worked_examples;
pub use exit::Exit;
pub use parsing::tell_fault;
pub use refusal::{constraint, limit};
pub use reply::Written;
pub use top::ksparse;
pub use write::deliver;
