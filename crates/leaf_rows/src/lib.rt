//! The row of a leaf of an initializer: what an expression that begins a part of an object breaks, and which rule fails; and the type
//! that the object has then (C11 6.7.9).
//!
//! What is asked of a leaf is said in `meaning_initializers`, over types as trees; here a type is a number of the table. A row asks
//! what is known of the expression and nothing else: neither the unit nor which part of the object it is for. Start reading at
//! [`judge_leaf`].
#![tactic(auto)]

mod completing;
mod constant;
mod conversion;
mod leaf;

pub use completing::completed;
pub use leaf::{LeafRow, judge_leaf};
