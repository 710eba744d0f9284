//! The values of literals: integer constants, character constants and string literals (C11 6.4.4.1,
//! 6.4.4.4, 6.4.5).
//!
//! The spelling of a token comes in, and its value goes out, or the one reason for which it has none.
//! Nothing here knows of tokens, places or names. What a spelling is worth is said in
//! `meaning_literals`, and how the values of this crate are seen there in `specs/Seen.antt`. Start
//! reading at [`read_integer`], [`read_char`] and [`read_string`].
#![tactic(auto)]

mod element;
mod fault;
mod integer;
mod numbers;
mod quoted;
mod suffix;

pub use fault::LiteralFault;
pub use integer::read_integer;
pub use quoted::{read_char, read_string};
