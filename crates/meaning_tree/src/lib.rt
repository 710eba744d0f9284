//! The tree of a translation unit, and the nodes in a list that stand for it.
//!
//! A node names its children by handles, so a list of nodes is a tree for each of them. Definitions
//! over pure shapes, for whatever names are; [`nodes`] has the laws that hold of them. Start reading
//! at `specs/Trees.antt`.
#![tactic(auto)]

mod nodes;

pub use nodes::{
    added_nodes_stand, each_node_stands_for_one_tree, lists_grow, look_ups_are_exact,
    order_is_kept, runs_are_laid, trees_stay, trees_stay_in_joined_lists, worked_examples,
};
