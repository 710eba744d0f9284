//! The rows of members in expressions: `.`, `->` and the steps of `__builtin_offsetof` (C11 6.5.2.3, 7.19 p3).
//!
//! What a row is is said in `meaning_typing`, over what is known of the aggregates of a unit; here that is what a table of
//! types was told, as `specs/Aggregates.antt` says, and a name is its number. A row asks what is known of its parts and the
//! table, and neither the unit nor other nodes. Start reading at [`judge_member`] and [`Reached`].
#![tactic(auto)]

mod broken;
mod element;
mod laws;
mod marks;
mod member;
mod offset;
mod reached;
mod selection;
mod steps;
mod typed;

pub use laws::{aggregates_are_known, walks_go_on};
pub use member::{judge_member, judge_pointer_member};
pub use offset::judge_offset;
pub use reached::{OffsetStep, Reached};
pub use steps::{step_to_element, step_to_member};
