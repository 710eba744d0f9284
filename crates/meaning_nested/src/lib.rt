//! No structure or union of a unit lies in itself, so each laid unit has exactly one judgement.
//!
//! Laws over the judgement of `meaning_units`: a member whose type is incomplete is none, so a body tells only members whose structures
//! were told before it, and the place among the told bodies is a height. Nothing is judged here. Start reading at `specs/Nested.antt`.
#![tactic(auto)]

mod nesting;

pub use nesting::{each_unit_has_one_judgement, each_unit_is_nested};
