//! Names of members that are declared twice (C11 6.2.1 p3, 6.7.2.1 p13): in an aggregate of which both are members, so those of a
//! structure or a union without a tag stand beside those around it.
//!
//! The nodes of a unit and what they stand in go in; it comes out which declarators break the rule. An aggregate is known by the
//! handle of its specifier, and of those of which a member is one the outermost says all: two members have one in common exactly
//! where they have this one in common ([`homes_meet_at_their_ends`]). So a name costs one look-up. What members are of isn't known
//! here. The definition stands in `meaning_typing/specs/MemberRows.antt`, and `specs/Kept.antt` says what is kept. Start reading
//! at [`MemberNames`].
#![tactic(auto)]

mod broken;
mod homes;
mod kinds;
mod laws;
mod names;

pub use broken::name_broken;
pub use laws::homes_meet_at_their_ends;
pub use names::MemberNames;
