//! The judge of a unit with structures, unions, enumerations and statements: what is known of each node, which rules fail, and the
//! least constraint that is broken.
//!
//! A unit goes in. One pass, from the first node to the last, over what each node stands in (`node_surroundings`): the row of a node is
//! told by `node_judge`, that of a statement by `statement_judge` and that of an initializer or a compound literal by `initialized_judge`,
//! and all are one here, with the access to what the node designates. What is to be found is said in `meaning_units`, and what is
//! answered in `specs/Judging.antt`. How a row is found isn't known here. Start reading at [`judge`].
#![tactic(auto)]

mod access;
mod fault;
mod judging;
mod keeping;
mod least;
mod order;
mod pass;
mod rows;

pub use expression_rows::Broken;
pub use fault::JudgeFault;
pub use judging::{Judged, judge};
pub use statement_judge::enclosings_of;
