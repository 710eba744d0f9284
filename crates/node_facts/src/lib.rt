//! What is known of the nodes of a unit, as it is kept while they are judged.
//!
//! What there is to know is said in `meaning_typing`, over types as trees; here a type is a number of the table, and how
//! facts are seen is said in `specs/Facts.antt`. Start reading at [`NodeFact`] and [`NodeFacts`].
#![tactic(auto)]

mod declared;
mod expression;
mod fact;
mod kept;
mod marks;

pub use const_fold::{
    Folded, asked_size, converted, element_of, fold, label_number, loaded_kind, part_of, wrapped,
};
pub use declared::{DeclaredFact, SpecifiedFact, Storage};
pub use expression::{Addressed, ExpressionFact, ExpressionMarks};
pub use fact::NodeFact;
pub use kept::NodeFacts;
