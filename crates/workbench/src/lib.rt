//! Calls of libraries as commands, for the tables of cases and the benchmarks of those that no command of
//! the checker makes yet.
//!
//! A command names a [`Tool`] and a file, and prints what the tool makes of the text. How the answer of a
//! line is shown is said in `specs/Shown.antt`. Start reading at [`workbench`](command).
#![tactic(auto)]

mod asked;
mod attributes;
mod command;
mod definitions;
mod expansions;
mod lines;
mod scopes;
mod texts;
mod tool;
mod units;
mod values;

pub use asked::Asked;
pub use attributes::{Between, attribute_lines};
pub use command::{Stop, workbench};
pub use expansions::expand_text;
pub use scopes::scope_answers;
pub use tool::Tool;
pub use values::{Shown, answer_line, if_values};
