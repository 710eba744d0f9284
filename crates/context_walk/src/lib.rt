//! What holds of a count of contexts over all paths of a control flow graph, of which there is no end where it has a cycle.
//!
//! How a graph is made of a function isn't known here, and no message is written. The paths of a flow and the three rules
//! are those of `meaning_paths`. Start reading at [`walk`](answer); [`is_small`] is the test of its last `requires`.
#![tactic(auto)]

mod answer;
mod different;
mod passed;
mod reach;
mod scan;
mod size;
mod spread;

pub use answer::walk;
pub use control_flow::{ContextAnswer, ContextNote};
pub use size::{is_small, left_of};
