//! A list that is kept in a chain of vectors.
//!
//! Two lists become one by the links of their chains alone. Contracts see the vectors, and read them
//! as one list by `contents`. Nothing here knows what the values are. Start reading at [`Chunks`].
#![tactic(auto)]

mod chunks;

pub use chunks::Chunks;
