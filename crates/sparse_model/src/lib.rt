//! The plain data of the checker: ids, places, types, trees, and the lists of names of the `vocabulary`.
//!
//! Nothing here reads, decides or prints. The crates above say what they do with these values.
//! [`Seq`] is the list type of which the others are made.
#![tactic(auto)]

mod context;
mod ctype;
mod failure;
mod ids;
mod int_const;
mod options;
mod place;
mod seq;
mod space;
mod tree;

pub use context::{ContextEntry, ContextList};
pub use ctype::{CBase, CType};
pub use failure::{Failure, FailureList, FileNames};
pub use ids::{NameId, NameList, Restrict, TypeId};
pub use int_const::IntConst;
pub use options::{Bytes, ClassSet, Options, PathList};
pub use place::Place;
pub use seq::Seq;
pub use space::Space;
pub use tree::{Part, Tree, TreeList};
pub use vocabulary::{
    Class, ErrorKind, IntKind, LimitKind, NodeKind, Role, RuleCode, TokenClass, TokenKind,
};
