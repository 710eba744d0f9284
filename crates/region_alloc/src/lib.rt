//! A region of values: they come one by one, are named by handles, and go together.
//!
//! A region is seen as the list of its values, and a handle is a place in that list. Two regions
//! become one without a copy. Nothing here knows what the values are. Start reading at
//! [`Region`].
#![tactic(auto)]

mod region;

pub use region::{Handle, Mark, Region};
