//! What is done with what was read of expressions, statements and initializers, and the nodes that need nothing but their
//! parts.
//!
//! [`act`] does what `act` of `meaning_derivation` says of an action. Start reading there.
#![tactic(auto)]

mod actions;
mod contexts;
mod lists;
mod literals;
mod names;
mod nodes;

pub use actions::{act, is_expression_action};
