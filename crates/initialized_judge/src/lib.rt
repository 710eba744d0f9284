//! The row of a node that initializes something: an initializer behind a declarator (C11 6.7.9), or a compound literal (6.5.2.5).
//!
//! What its object is comes from the declaration or the name of a type that stands before; what the initializer makes of that object is
//! found by `init_judge`. Here both are put together: what is known of the node is what is declared, or a place, with the completed
//! type; besides it is asked whether the completed object was declared otherwise, and whether it is too large. What such a row says is
//! said in `meaning_initialized`. How a name sees the completed type isn't known here. Start reading at [`judge_initialized`].
#![tactic(auto)]

mod completing;
mod declarators;
mod judging;
mod making;
mod objects;

pub use init_judge::tables_know_aggregates;
pub use judging::judge_initialized;
