//! What the grammar sees of the tokens of a unit: terminals, of which the next two are known.
//!
//! A token's class is that of its spelling, before anything is bound; a word or a literal that isn't supported has the
//! error that it is. What a token is to the grammar is said in `meaning_grammar`, and how the values of this crate are seen
//! there in `specs/Seen.antt`. What a name is bound to isn't known here, nor any production. Start reading at
//! [`Terminals`].
#![tactic(auto)]

mod kinds;
mod literals;
mod reading;
mod rows;
mod spellings;
mod terminal;
mod terminals;
mod words;

pub use reading::Reading;
pub use terminal::Terminal;
pub use terminals::Terminals;
