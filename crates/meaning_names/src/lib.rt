//! What the names in a unit's texts are: those of its types, by what its nodes declare, and the spellings of all.
//!
//! In the nodes of a unit, in their types and in what fails at them a name is the number of a spelling; a text spells it. A type names no
//! tag and no restricted type but by a number: its name is the first that a node of the unit gives it. Definitions over pure shapes. Start
//! reading at `specs/Spelled.antt`, then `specs/TypeNames.antt`.
#![tactic(auto)]

mod names;

pub use names::{the_first_name_is_told, types_without_named_spaces_stay, worked_examples};
