//! The value of an `#if` (C11 6.10.1, 6.6).
//!
//! The tokens of a condition come in, with each `defined` answered and macros replaced. Its number leaves, or
//! the one reason for which it has none. The tokens are read once, with a stack of what waits for an operand,
//! however deep they nest. Macros, groups and files aren't known here. What a condition is worth is said in
//! `meaning_conditions`, and how the values of this crate are seen there in `specs/Seen.antt`. Start reading at
//! [`if_value`] and at `step` in `src/frames.rt`.
#![tactic(auto)]

mod condition;
mod fault;
mod frames;
mod numbers;
mod operand;
mod operators;
mod signs;

pub use condition::if_value;
pub use fault::{IfFault, IfNumber};
