//! The rows of enumerators and of enumerations (C11 6.7.2.2): constants, types, what is broken, and which rules fail.
//!
//! What a row is is said in `meaning_typing`, over types as trees; here a type is a number of the table, and how rows are seen
//! is said in `specs/Rows.antt`. What is kept of an enumeration takes the same few bytes for any number of enumerators, and
//! stands for the list that was read so far (`specs/Enumerations.antt`). Neither the unit nor its nodes are known: who calls
//! hands over what is known of an enumerator's expression, of the one before it, and of each. Start reading at
//! [`judge_enumerator`] and [`Enumerators`].
#![tactic(auto)]

mod enumeration;
mod enumerator;
mod integers;
mod kept;
mod names;
mod row;
mod types;
mod values;

pub use enumeration::{Enumerators, judge_enumeration};
pub use enumerator::judge_enumerator;
pub use integers::RestrictedType;
pub use names::{Sharing, enumerator_name};
pub use row::EnumRow;
