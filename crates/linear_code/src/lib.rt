//! A function of a unit, node by node, as control sees it: whether it changes a count of contexts at all, and its flow.
//!
//! The definitions stand in `meaning_control`. What they ask of the judge of a unit comes by [`ControlFacts`]; how it was judged
//! isn't known here. Start reading at [`linearize`].
#![tactic(auto)]

mod bound;
mod callee;
mod cells;
mod changes;
mod conditions;
mod count;
mod facts;
mod flow;
mod kind;
mod passed;
mod quiet;
mod run;

pub use cells::{cells_make_their_body, cells_of};
pub use changes::{body_of, has_changes};
pub use conditions::is_condition;
pub use facts::{ControlFacts, FunctionNote};
pub use flow::linearize;
pub use kind::control_kind;
pub use passed::push_passed;
pub use quiet::quiet_functions_change_nothing;
