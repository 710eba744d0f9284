//! Sets of numbers below 2^30 that share what they have in common and never change.
//!
//! Each set is known by a number of its own, and a table keeps them all: a larger set is made of the
//! halves of the smaller one. Contracts see the table as the list of its sets. Nothing here knows what
//! the numbers stand for. Start reading at [`NumberSets`].
#![tactic(auto)]

mod addition;
mod branch;
mod pair;
mod sets;
mod trie;

pub use sets::{NumberSets, SetId};
