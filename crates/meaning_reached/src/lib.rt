//! The counts with which paths come to the steps of a function, and so what the three rules on contexts say of them.
//!
//! Laws over the definitions of paths and of control. Start reading at `specs/laws/Answers.antt`.
#![tactic(auto)]

mod reached;

pub use reached::{control_paths_have_an_answer, worked_examples};
