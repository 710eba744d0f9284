//! The answer of a command: what stands on `out` and `err`, and how it ends.
//!
//! A relation between the command's words, a map of files, and what is written. Definitions over pure
//! shapes; [`answers`] has the law that there is exactly one answer. Start reading at
//! `specs/Answers.antt`.
#![tactic(auto)]

mod answers;

pub use answers::{
    clean_checks_are_balanced, each_command_has_one_answer, endings_tell_what_is_written,
    names_are_spelled_back, outcomes_are_told, worked_completions, worked_examples,
};
