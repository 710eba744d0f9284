//! What a function is to control, as a list of cells, and the blocks of its flow, cell by cell.
//!
//! A cell is a node that control meets; its parts are cells before it. The definitions stand in `meaning_control`, and
//! `specs/Seen.antt` says how the values of this crate are seen by them, whatever names are. How a unit makes cells isn't known
//! here. Start reading at [`Cell`].
#![tactic(auto)]

mod blocks;
mod cell;
mod exits;
mod firsts;
mod flow;
mod goings;
mod jumps;
mod kind;
mod labels;
mod next;
mod numbers;
mod rows;
mod steps;
mod tables;

pub use blocks::flow_by;
pub use cell::Cell;
pub use exits::{Exits, exits_of};
pub use firsts::firsts_of;
pub use flow::flow_of;
pub use goings::{Goings, begins_with_parts, begins_without_parts, onward};
pub use jumps::jumps_of;
pub use kind::{ControlKind, Outcomes, ends_cases, is_body, is_broken, is_loop_body, is_statement};
pub use labels::labels_of;
pub use numbers::{BlockNumbers, Numbering, numbers_of};
pub use rows::{Way, behind, has_moment};
pub use steps::{Steps, entry_steps, moment_steps};
pub use tables::{CellTables, tables_keep_equations};
