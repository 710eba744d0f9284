//! The words on what stands outside the program: files by their paths, what loads of them gave, and counts
//! of faults.
//!
//! They are the ground of every promise about reading and writing, and no later stage of the checker
//! touches them. [`counts`] has the examples that hold of them, [`loads`] the law that some map agrees with
//! what was loaded.
#![tactic(auto)]

mod counts;
mod loads;

pub use counts::worked_examples;
pub use loads::loads_of_each_path_once_agree;
