//! What was read of a unit so far, and how it changes: the stack of values, the nodes, and the names that are visible.
//!
//! A [`ParseState`] is seen as the `State` of `meaning_derivation`, through the table of spellings that it reads, by
//! `specs/Seen.antt`. Each method is one step of that meaning. No production and no action is known here. Start reading
//! at [`ParseState`] and [`Shape`].
#![tactic(auto)]

mod asking;
mod children;
mod declaring;
mod fault;
mod finishing;
mod hiding;
mod joining;
mod leading;
mod looking;
mod marks;
mod nodes;
mod own_name;
mod parameters;
mod row;
mod scoping;
mod shape;
mod specified;
mod specifying;
mod stacking;
mod state;
mod storage;
mod strings;
mod tags;
mod unwrapping;
mod value;

pub use declaring::DeclaredName;
pub use fault::{ActionFault, fault_of_literal};
pub use marks::{HeldError, PassedLimit};
pub use row::{Place, Row};
pub use shape::{Shape, Source};
pub use specified::Specified;
pub use state::ParseState;
pub use storage::StorageClass;
pub use value::Value;
