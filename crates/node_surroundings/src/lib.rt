//! What each node of a unit stands in: the node above it, what is wanted of it, whether it is evaluated, and who is
//! around it.
//!
//! One pass, from the last node of a unit to the first, in which each node tells its parts what they stand in. The
//! definition stands in `meaning_typing`, and `specs/Seen.antt` says how the values of this crate are seen by it. Types, and
//! what is known of nodes, aren't known here. Start reading at [`surroundings_of`].
#![tactic(auto)]

mod asking;
mod operation;
mod pass;
mod settings;
mod standing;
mod surrounding;

pub use operation::{Operation, operation_of};
pub use pass::surroundings_of;
pub use standing::Surroundings;
pub use surrounding::{Around, Surrounding, Want};
