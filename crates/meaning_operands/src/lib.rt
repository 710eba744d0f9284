//! What the rules say of operands, of a conversion and of an access: by types alone, before any expression is judged.
//!
//! Definitions over pure shapes. [`operands`] has the laws and the examples that hold of them. Start reading at
//! `specs/Operators.antt`, which has one line for each operator.
#![tactic(auto)]

mod operands;

pub use operands::{each_operator_keeps_its_law, same_types_convert, worked_examples};
