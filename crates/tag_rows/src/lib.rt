//! The rows of tags and of the specifiers among which they stand (C11 6.7.2.3): what is broken at a tag that is named again, what
//! specifiers say, and what an enumeration is that is named without its body.
//!
//! Nodes, what is known of them, and the table of types go in; what is known and the least constraint that is broken come out.
//! What is kept of tags is gathered once from all nodes ([`TagsSeen`]), so each row asks a map and walks over no other nodes than
//! its parts. What a structure, a union or an enumeration with a body is isn't told here. The definition stands in
//! `meaning_typing/specs/Tags.antt`, and `specs/Kept.antt` says what the maps hold. Start reading at [`TagsSeen`].
#![tactic(auto)]

mod attributes;
mod broken;
mod enumerations;
mod keeping;
mod kinds;
mod row;
mod seen;
mod specifiers;

pub use broken::tag_broken;
pub use enumerations::enumeration_named;
pub use kinds::TagKind;
pub use row::TagRow;
pub use seen::TagsSeen;
pub use specifiers::specifiers_row;
