//! The rows of specifiers by their nodes (C11 6.7.2, 6.7.7, 6.7.8): specifiers, the structures, unions and enumerations among them,
//! enumerators, names that stand for types, `typeof`, and names of types.
//!
//! A node of a unit, what it stands in, what is kept of tags, and what is known of the nodes before it go in; what is known of it,
//! the least constraint that it breaks, the rules that fail and whether an object is too large come out. The rows by what is known of
//! parts are in `tag_rows`, `aggregate_rows` and `enum_rows`; here handles are looked up. Declarators, their parts and members aren't
//! known here, nor expressions. The definition stands in `meaning_typing/specs/WholeTyping.antt`, `specs/Known.antt` says what is
//! handed in, and `specs/Kept.antt` what is kept of enumerations for names of enumerators. Start reading at [`judge_specifier`] and
//! [`Enumerations`].
#![tactic(auto)]

mod aggregates;
mod enumeration;
mod enumerations;
mod enumerator;
mod enumerators;
mod kinds;
mod laws;
mod loaded;
mod names;
mod rows;
mod specifiers;
mod taken;

pub use body_members::specifier_body;
pub use enumerations::Enumerations;
pub use kinds::is_of_specifiers;
pub use laws::worked_rows;
pub use rows::judge_specifier;
pub use tag_rows::TagsSeen;
