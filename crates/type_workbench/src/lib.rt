//! Calls of the libraries on types, layouts and constants as commands, for the tables of cases and the benchmarks of those that no
//! command of the checker makes yet.
//!
//! A text of commands goes in, a word each, and the text of their answers comes out. No file is known here. Start reading at
//! [`type_answers`].
#![tactic(auto)]

mod constant_words;
mod constants;
mod extents;
mod shown_types;
mod types;
mod words;

pub use constants::constant_answers;
pub use types::{Session, type_answers};
pub use words::{with_number, word_of};
