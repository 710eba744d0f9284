//! Units of the first form among all units: whose nodes stand for items of the form, and what the rules of all units say of them.
//!
//! Definitions over the nodes that the parser makes, and the law that hands a promise over from the rules of all units to those of the
//! form. Start reading at `specs/Units.antt`.
#![tactic(auto)]

mod silence;

pub use silence::{silence_is_handed_over, trees_of_the_form_are_units, worked_examples};
