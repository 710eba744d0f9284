//! The counts with which paths come to a place, as never, one or several, and what steps and joins of paths do to them.
//!
//! A step and what is known before it in, what is known behind it out. In which blocks the steps stand isn't known here.
//! Start reading at [`Counts`].
#![tactic(auto)]

mod counts;
mod steps;

pub use counts::Counts;
pub use steps::{behind, change};
