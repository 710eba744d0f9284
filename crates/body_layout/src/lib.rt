//! Where the members of structures and unions lie, by the sizes and alignments of their types.
//!
//! Types, names and tables aren't known here: whoever tells a body says what its members take. The layouts
//! are those of `meaning_layout`. Start reading at [`structure_layout`].
#![tactic(auto)]

mod member;
mod multiple;
mod placing;
mod structure;
mod union;

pub use member::{MOST_BYTES, PlacedMember};
pub use structure::{BodyLayout, structure_layout};
pub use union::{Extent, union_extent};
