//! The types of a unit, each once.
//!
//! A type is known by its number, and contracts see the table as the list of its types, as trees.
//! Equal types have equal numbers, so comparing is cheap, and nothing here walks a type. Start reading
//! at [`Types`].
#![tactic(auto)]

mod bodies;
mod chains;
mod composite;
mod elements;
mod form;
mod kinds;
mod laying;
mod layouts;
mod levels;
mod making;
mod maps;
mod members;
mod nodes;
mod operand;
mod outline;
mod reading;
mod rows;
mod shapes;
mod table;
mod trees;

pub use bodies::{AggregateBody, Member, MemberList, Named};
pub use body_layout::Extent;
pub use kinds::{bits, has_sign, promoted_kind, rank, usual_kind};
pub use layouts::LayoutFault;
pub use members::FoundMember;
pub use nodes::{NodeType, NodeTypes, NodeValue};
pub use operand::{Operand, are_one_identity};
pub use outline::Outline;
pub use shapes::{OuterBase, OuterShape, ShapeBase, TypeIdList, TypeShape};
pub use table::Types;
