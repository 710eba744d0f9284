//! What the text of a file is made of: bytes, places and tokens (C11 5.1.1.2, 6.4).
//!
//! Definitions over lists of bytes, without memory, pointers or ids. [`tokens`] has the laws that
//! hold of them. Start reading at `specs/Tokens.antt`.
#![tactic(auto)]

mod tokens;

pub use tokens::{each_text_has_one_answer, logical_texts_end_their_line, worked_examples};
