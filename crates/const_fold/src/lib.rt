//! The constant of a node, from what is known of its parts (C11 6.6).
//!
//! One step: types and constants of the parts are read where they are kept, and nothing is walked, so a sum of any
//! length costs a step a term. What a constant is is said in `meaning_constants`, and how the values of this crate are
//! seen there in `specs/Known.antt` and `specs/Seen.antt`. Start reading at [`fold`].
#![tactic(auto)]

mod children;
mod constant;
mod facts;
mod folded;
mod folding;
mod known;
mod measured;
mod number;
mod offset;
mod operation;
mod operator;
mod part;
mod sized;
mod way;

pub use c_tree::Handle;
pub use folded::Folded;
pub use folding::{fold, fold_measured};
pub use known::{loaded_kind, part_of};
pub use measured::measuring_is_enough;
pub use number::{converted, label_number, wrapped};
pub use offset::element_of;
pub use part::{Part, PartType};
pub use sized::asked_size;
