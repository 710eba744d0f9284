//! Types as trees, with their qualifiers and flags, and what the rules on address spaces ask of them.
//!
//! Definitions over pure shapes. [`types`] has the examples that hold of them. Start reading at
//! `specs/Types.antt`.
#![tactic(auto)]

mod types;

pub use types::{
    derived_examples, equality_is_decided, normal_types_stay, pointers_are_decided,
    usual_conversions, worked_examples,
};
