//! The tokens of a text (C11 6.4).
//!
//! Bytes come in, and tokens go out, each with its kind, its spelling as an id, and the place where
//! it begins. Nothing here knows what a token means. What the tokens of a text are is said in
//! `meaning_text`, and how a [`Token`] is seen there in `specs/Seen.antt`. Start reading at [`lex`].
#![tactic(auto)]

mod comments;
mod context;
mod cursor;
mod fault;
mod front;
mod joined;
mod names;
mod punctuators;
mod quoted;
mod scanner;
mod token;
mod words;

pub use fault::LexFault;
pub use joined::one_token;
pub use names::Names;
pub use punctuators::punctuator;
pub use scanner::lex;
pub use token::{Token, TokenList};
pub use words::{is_nondigit, is_word_byte};
