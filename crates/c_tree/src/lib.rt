//! The tree of a translation unit, as a list of nodes that name their children by handles.
//!
//! Nodes are added behind their children, and a part of a unit can be built apart and taken in
//! without a copy. Nothing here knows the grammar, or what a node means. A unit is seen as the
//! `NodeList` of `meaning_tree`, by `specs/Seen.antt`. Start reading at [`Unit`].
#![tactic(auto)]

mod fault;
mod node;
mod unit;

pub use fault::AddFault;
pub use node::{Node, nodes_are_seen_whole};
pub use region_alloc::Handle;
pub use tag_list::TagList;
pub use unit::Unit;
