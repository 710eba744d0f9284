//! The forms of derived trees: which parts the nodes of the tree of a unit have.
//!
//! What each kind of node may have is said by `meaning_tree`, and what a unit derives by `meaning_derivation`. Here it is proved that
//! the actions of the grammar make nothing else. Start reading at `proofs/Knowledge.antt`.
#![tactic(auto)]

mod forms;

pub use forms::{derived_trees_are_formed, forms_make_few_nodes};
