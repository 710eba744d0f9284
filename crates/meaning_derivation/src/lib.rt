//! What a list of tokens derives by the grammar: a tree, or the one thing that is told of it and where that is decided.
//!
//! Definitions over spellings and trees, without memory or ids. [`derivations`] has the laws and the examples that hold of them.
//! Start reading at `specs/State.antt` and `specs/Derivation.antt`; `specs/Actions.antt` says what each form makes.
#![tactic(auto)]

mod derivations;

pub use derivations::{
    actions_leave_their_sorts, answers_are_outcomes, each_unit_has_one_outcome, shapes_are_made,
    specifiers_have_their_class, worked_examples,
};
