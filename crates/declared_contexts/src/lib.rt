//! The contexts that a declaration carries (our choice): the nodes of a unit in, the sums of the counts with which a function is
//! entered and left out.
//!
//! Which attributes are a declaration's is said in `meaning_typing`. What other declarations carry isn't known here:
//! `linked_names` compares them. Start reading at [`contexts_of`].
#![tactic(auto)]

mod attributes;
mod contexts;
mod sums;

pub use contexts::contexts_of;
