//! What paths do to a count: the steps that they pass, walks from place to place, and three rules over all paths.
//!
//! Definitions over any set of paths; a control flow graph of basic blocks is one thing that has some, of which there is
//! no end where it has a cycle. [`paths`] has the laws that hold of them. Start reading at `specs/Steps.antt`.
#![tactic(auto)]

mod paths;

pub use paths::{
    PathSet, balanced_paths_leave_as_they_should, fronts_of_paths_are_paths,
    sets_of_paths_have_one_answer, worked_examples,
};
