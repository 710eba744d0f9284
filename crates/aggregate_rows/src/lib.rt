//! The rows of the specifiers of structures and unions (C11 6.7.2.1, 6.7.2.3): the type, what is broken at the tag, and whether an
//! object of it is too large.
//!
//! A unit, what is kept of its tags, the table of types and the body that the specifier declares go in; the row comes out. What the
//! body declares is told by `body_members`. The definition stands in `meaning_typing/specs/MemberRows.antt`, and `specs/Seen.antt`
//! says how rows are seen by it. Start reading at [`judge_aggregate_specifier`].
#![tactic(auto)]

mod laws;
mod layout;
mod row;
mod specifier;
mod types;

pub use laws::the_first_body_is_all;
pub use row::AggregateRow;
pub use specifier::judge_aggregate_specifier;
