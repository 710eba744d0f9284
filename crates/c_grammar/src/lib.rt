//! The rows of the grammar of C as static data, and the choice of a row by the classes of the next two tokens
//! (C11 6.5 to 6.9).
//!
//! The rows are those of `meaning_grammar`, and what is chosen is the row whose look holds. Nothing here reads a token,
//! keeps a stack or does what an action says, and nothing takes memory. Start reading at `rows/declarations.rt` and
//! [`choose`].
#![tactic(auto)]

mod choice;
mod classes;
mod production;
mod rows;
mod table;

pub use choice::choose;
pub use classes::{begins_expression, is_attribute_word, is_name};
pub use production::Production;
pub use table::productions_of;
