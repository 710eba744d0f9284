//! Objects and functions (C11 6.2.2): the nodes of a unit in, with what they stand in and what is known of them; of each declarator
//! its object or function out, and what the declarations of one come to.
//!
//! One pass, from the first node to the last, in which names with linkage are found in a map. What an object is, which contexts it
//! has and whether it returns is said in `meaning_objects`; `specs/Kept.antt` says what is kept. Types, and what a unit breaks, aren't
//! known here. Start reading at [`objects_of`].
#![tactic(auto)]

mod attributes;
mod keeping;
mod noreturn;
mod note;
mod objects;
mod pass;

pub use note::ObjectNote;
pub use objects::JudgedObjects;
pub use pass::objects_of;
