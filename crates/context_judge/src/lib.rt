//! The judge of contexts: a unit that was judged in, the failures of the rules on contexts over all paths of its functions out.
//!
//! Function by function: one whose body changes no count costs a look at its nodes, any other its flow (`linear_code`) and a walk over
//! that (`context_walk`). What is to be found is said in `meaning_contexts`. What is asked of a function or of a unit first is
//! asked where its flow is shown, too. How types are judged, and how a failure is told, isn't known here. Start reading at
//! [`context_failures`].
#![tactic(auto)]

mod answer;
mod functions;
mod judging;
mod told;
mod unit;

pub use answer::has_body;
pub use functions::note_at;
pub use judging::context_failures;
pub use type_judge::{JudgeFault, Judged, enclosings_of, judge};
pub use unit::{is_function_definition, knows_tokens};
