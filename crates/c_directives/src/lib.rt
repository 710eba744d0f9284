//! Directives, a line at a time (C11 6.10).
//!
//! The tokens of a file come in. They are parted into text and directives, and each directive is read: to a
//! macro and its name, to the tokens of a condition, to a header and the paths at which that is looked for, or
//! to what it does to the open groups. What is left to do leaves as a [`Task`]. What stays from line to line of a unit,
//! what stands in other files and what a condition is worth aren't known here. What a directive means is said in
//! `meaning_preprocessing`, and how the values of this crate are seen there in `specs/`. Start reading at
//! [`first_part`] and at [`begin_directive`].
#![tactic(auto)]

mod bodies;
mod defined;
mod definition;
mod definition_lines;
mod directive;
mod error_words;
mod fault;
mod groups;
mod header;
mod lines;
mod macro_lines;
mod made;
mod names_alone;
mod parameters;
mod search;
mod skipped_parts;
mod words;

pub use defined::keep_undefined;
pub use definition_lines::{define, undefine};
pub use directive::{Task, begin_directive};
pub use error_words::intern_words;
pub use fault::LineFault;
pub use groups::{Group, are_read, end_elif, open_group, outermost};
pub use header::{Header, expanded_header, spelled_header};
pub use lines::{FilePart, first_part};
pub use macro_lines::{turn_define, turn_undef};
pub use made::MadeWords;
pub use search::{name_of_header, paths_for};
pub use skipped_parts::part_ends;
