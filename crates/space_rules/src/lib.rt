//! What a conversion says of what is converted and the type that it becomes, and what an access says of a place.
//!
//! An answer is a few comparisons of numbers of the table of types. What it is is said in `meaning_operands`, and how
//! the values of this crate are seen there in `specs/Seen.antt`. Where a failure stands, and which constraint a
//! refused conversion breaks, isn't known here. Start reading at [`convert_rule`].
#![tactic(auto)]

mod access;
mod convert;
mod rows;
mod targets;

pub use access::access_rule;
pub use convert::{ConvertAnswer, Position, convert_rule};
pub use targets::{have_other_targets, mix_spaces};
