//! Whether the nodes of a unit stand in the order in which they are written, and whether its names are linked with what declares them.
//!
//! A unit arrives, and for the order a bound on the ids of names; a yes or a no leaves. The tree of a unit fixes neither the order of its
//! nodes nor what the number of a name is, so what is told of nodes is told of the tree only where the answer is yes. What nodes mean isn't
//! known here. Start reading at [`is_written`] and [`are_linked`].
#![tactic(auto)]

mod links;
mod order;

pub use links::are_linked;
pub use order::is_written;
