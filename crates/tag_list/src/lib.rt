//! A list of handles, each with a tag from 0 to 3.
//!
//! A list is seen as the list of its pairs. Two lists become one without a copy. What a handle
//! names and what a tag means is the caller's. Start reading at [`TagList`].
#![tactic(auto)]

mod chain;
mod iter;
mod list;
mod tagged;

pub use iter::TagIter;
pub use list::TagList;
pub use tagged::Handle;
