//! From the tokens of a unit to its tree (C11 6.5 to 6.9), or to the one thing that is told of it.
//!
//! A pushdown: items of the grammar wait on a stack, a symbol is replaced by the row that the next two terminals choose, a
//! token is taken where it is of the item's class, and an action does what it says with what was read. What a list of
//! tokens derives is said in `meaning_derivation`. What an action does isn't known here, nor the rows of the grammar. Start
//! reading at [`parse`].
#![tactic(auto)]

mod acting;
mod expected;
mod fault;
mod items;
mod looks;
mod parser;
mod parsing;
mod pending;
mod refusing;
mod stepping;
mod taking;

pub use fault::ParseFault;
pub use parsing::parse;
