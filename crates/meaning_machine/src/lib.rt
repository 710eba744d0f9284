//! The machine whose values carry their types, on the first form of C.
//!
//! Values, storage, the step of an activity, and runs of any number of activities in any order with
//! writes of the outside. Definitions over pure shapes; [`safety`] has the law that a unit without
//! failures meets no fault, and [`runs`] has worked examples. Start reading at `specs/Machine.antt`.
#![tactic(auto)]

mod moves;
mod runs;
mod safety;
mod stores;

pub use moves::moves_are_possible;
pub use runs::{played_is_run, run_is_played, worked_activities, worked_rows, worked_runs};
pub use safety::{
    blocks_last, faults_are_unsafe, moves_are_sound, runs_are_sound, silence_is_safe,
    steps_are_sound,
};
pub use stores::adopted_values_fit;
