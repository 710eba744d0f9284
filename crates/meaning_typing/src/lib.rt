//! Typing (C11 6.3, 6.5, 6.7): what each node of a unit stands in, and what is known of it.
//!
//! Definitions over lists of nodes, by cases on their kinds. Start reading at `specs/Surroundings.antt`, then
//! `specs/Facts.antt` and `specs/Typing.antt`.
#![tactic(auto)]

mod typing;

pub use typing::{
    each_unit_has_one_list_of_surroundings, equality_is_decided, members_are_selected,
    words_stand_in_any_order, worked_bodies, worked_declarations, worked_enumeration_rows,
    worked_enumerations, worked_examples, worked_members, worked_operators, worked_rows,
};
