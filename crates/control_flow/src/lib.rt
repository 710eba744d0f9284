//! The control flow graph of a function: basic blocks, what a path passes in them, and where it goes on; and its line of text.
//!
//! Plain data. How a graph is made of a function, and what holds of its paths, aren't known here; `specs/Seen.antt`
//! says which graph of `meaning_paths` a flow is, and `specs/Shown.antt` how it stands in a line. Start reading at [`Flow`].
#![tactic(auto)]

mod flow;
mod line;
mod note;
mod numbers;
mod step;

pub use flow::{Block, BlockList, Flow};
pub use line::push_line;
pub use note::{ContextAnswer, ContextNote};
pub use numbers::{push_count, push_number};
pub use step::{Step, StepList};
