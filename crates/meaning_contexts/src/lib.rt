//! What fails on the control paths of the functions of a unit: counts of contexts that differ, fall too low, or are wrong where a
//! function is left.
//!
//! Definitions over the paths of `meaning_control` and the three rules of `meaning_paths`; [`contexts`] has the laws that hold of them.
//! Start reading at `specs/Failures.antt`.
#![tactic(auto)]

mod contexts;

pub use contexts::{
    each_unit_has_one_list_of_failures, paths_have_what_functions_have,
    units_without_contexts_fail_nowhere, untold_functions_balance, worked_examples,
};
