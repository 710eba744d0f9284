//! The nodes of a unit as its tree and its tokens have them: in the order in which they are written, with names told apart by numbers.
//!
//! The tree arrives, with the tokens; a list of nodes leaves, the same for each way to build the tree. Definitions over pure shapes; how a
//! parser lists its nodes, and how a table numbers its spellings, isn't known here. Start reading at `specs/Written.antt`.
#![tactic(auto)]

mod nodes;

pub use nodes::{
    names_stay_linked, nodes_stand_for_their_tree, numbers_tell_spellings_apart, worked_examples,
};
