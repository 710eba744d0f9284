//! What is done with what was read of declarations: specifiers, declarators, tags, attributes, functions.
//!
//! [`act`] does what `act` of `meaning_derivation` says of an action that isn't one of `c_expr`. Start reading there.
#![tactic(auto)]

mod actions;
mod attributes;
mod binding;
mod declarators;
mod functions;
mod names;
mod nodes;
mod numbers;
mod specifiers;
mod tags;

pub use actions::act;
