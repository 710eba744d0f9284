//! What the body of a structure or a union declares (C11 6.7.2.1): its members in order.
//!
//! Nodes, what is known of declarators and widths, and the table of types go in; members with their names, types, widths and
//! alignments come out, and the body that the table takes. What is broken among members isn't told here. The definition
//! stands in `meaning_typing/specs/MemberDeclarations.antt`, and `specs/Seen.antt` says how members are seen by it. Start
//! reading at [`specifier_body`].
#![tactic(auto)]

mod alignment;
mod behind;
mod bodies;
mod entries;
mod known;
mod members;
mod specifiers;

pub use bodies::{members_of_list, specifier_body};
pub use entries::{Entry, entries_of};
pub use specifiers::{has_body, is_tagged};
