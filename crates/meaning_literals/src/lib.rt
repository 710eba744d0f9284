//! The values of literals: integer constants, character constants and string literals (C11 6.4.4.1,
//! 6.4.4.4, 6.4.5).
//!
//! Definitions over spellings, as lists of bytes, without memory or ids. Nothing here knows which texts
//! are tokens: each text has an answer. [`literals`] has the laws that hold of them. Start reading at
//! `specs/Integers.antt` and `specs/Quoted.antt`.
#![tactic(auto)]

mod literals;

pub use literals::{decimals_are_read, each_text_is_made_of_its_elements, worked_examples};
