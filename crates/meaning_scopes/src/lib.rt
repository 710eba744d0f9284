//! Which declaration a name stands for, scope in scope (C11 6.2.1, 6.2.3), and which names may be
//! declared again (6.7 p3).
//!
//! Definitions over one list of what is bound, for names of any type: spellings in the grammar, ids in
//! the code. [`scopes`] has the laws that hold of them. Start reading at `specs/Scopes.antt`.
#![tactic(auto)]

mod scopes;

pub use scopes::{names_are_found, other_names_find_the_same, scopes_open_again, worked_examples};
