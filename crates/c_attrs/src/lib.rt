//! The attributes of a list, and the change of a context statement, from the tokens between their
//! parentheses.
//!
//! What such tokens mean is said in `meaning_attributes`, and how the values of this crate are seen there in
//! `specs/Seen.antt`. What an attribute makes of a type or a function isn't known here, nor the grammar:
//! each list of tokens has an answer. Start reading at [`read_attrs`], [`read_item`] and
//! [`context_change`].
#![tactic(auto)]

mod arguments;
mod attribute;
mod context;
mod fault;
mod integer;
mod item;
mod list;
mod meaning;
mod piece;
mod space;
mod token;
mod word;

pub use attribute::{Attribute, Attrs, Flag};
pub use context::context_change;
pub use fault::{AttrFault, ChangeFault};
pub use integer::last_integer;
pub use item::read_item;
pub use list::{list_refusal, read_attrs};
pub use piece::{in_parentheses, length_to_inside};
