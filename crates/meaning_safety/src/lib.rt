//! What a clean check promises of runs: no run of its unit meets a fault, where that is a unit of the first form.
//!
//! The answer's definitions meet the machine's here, by the law of `meaning_silence`. Laws alone. Start reading at `specs/Safe.antt`.
#![tactic(auto)]

mod safety;

pub use safety::clean_checks_are_safe;
