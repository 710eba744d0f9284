//! Failures in their order, each once.
//!
//! Failures of rules in, in the order in which they were found; out comes their listing, as `meaning_warnings` defines
//! it. What a failure says of types and names isn't looked at. Start reading at [`in_order`].
#![tactic(auto)]

mod listing;

pub use listing::in_order;
