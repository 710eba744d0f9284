//! The texts of types, warnings and errors.
//!
//! A failure of a rule is told in one line, and some rules name two types below it. Definitions over pure shapes;
//! [`texts`] has the laws and the examples that hold of them. Start reading at `specs/Warnings.antt`, which has one row
//! for each rule.
#![tactic(auto)]

mod texts;

pub use texts::{each_unit_has_one_text, worked_examples};
