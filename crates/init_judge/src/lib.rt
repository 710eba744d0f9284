//! The judge of one initializer: which expression is for which part of the object, the type that the object has then, which rules fail,
//! and the least constraint that is broken.
//!
//! What an initializer makes of an object is said in `meaning_initializers`; which part each expression is for is found by
//! `initializer_levels`, level by level. Here each leaf is converted, and asked whether it is constant. What is known of expressions
//! comes in, and is kept by the caller; so does the object, of which it isn't asked here whether it may be initialized, nor whether it
//! is too large then. Start reading at [`judge_init`], and at `specs/Judging.antt`.
#![tactic(auto)]

mod appending;
mod fault;
mod findings;
mod judging;
mod laws;
mod leaf;
mod strings;
mod value;
mod whole;

pub use fault::InitFault;
pub use judging::{InitPlan, judge_init};
pub use laws::tables_know_aggregates;
