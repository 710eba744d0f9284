//! Objects and functions (C11 6.2.2): what the declarations of one name come to, and what later readers ask of them.
//!
//! Definitions over the nodes of a unit, what they stand in and what `meaning_typing` says is known of them. Start reading at
//! `specs/Objects.antt`.
#![tactic(auto)]

mod objects;

pub use objects::{
    callees_are_named, declarations_share_an_object, definitions_define, paths_lead_to_members,
    worked_carriers, worked_objects, worked_paths,
};
