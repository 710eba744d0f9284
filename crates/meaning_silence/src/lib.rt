//! The promise of silence, on the judge of all units: no run of a unit of the first form meets a fault where no rule of the class of
//! address spaces fails in it.
//!
//! It is said of the judgement of `meaning_units`, which is what `type_judge` finds; a unit of the form has no initializers, so its
//! rows are those of `meaning_judgements`.
//!
//! Laws alone. Start reading at `specs/Laws.antt`.
#![tactic(auto)]

mod promise;

pub use promise::{
    first_forms_initialize_nothing, judged_trees_are_safe, judged_units_are_safe,
    silent_units_are_safe, units_without_initializers_are_whole,
};
