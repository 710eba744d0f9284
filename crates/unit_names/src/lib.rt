//! A unit under new names: the spellings of its tokens are numbered in the order in which they stand first.
//!
//! A preprocessed unit arrives with its table of names; the same unit leaves with a table of its own, which doesn't depend on what was
//! read before. What tokens mean isn't known here. Start reading at [`renumbered`].
#![tactic(auto)]

mod nodes;
mod numbering;
mod unit;

pub use nodes::nodes_are_those_of_their_tree;
pub use unit::{NumberedUnit, renumbered};
