//! What control asks of a unit that was judged: what is known of its nodes and of its objects in, the constants of conditions, the
//! numbers of labels and what is known of functions out.
//!
//! What control is stands in `meaning_control`; `specs/Judged.antt` says what it asks, by what the judge knows. How a unit is judged
//! isn't known here. Start reading at [`JudgedFacts`].
#![tactic(auto)]

mod asked;
mod facts;
mod fields;
mod numbers;

pub use facts::JudgedFacts;
