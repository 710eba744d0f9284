//! The row of any node of a unit, over what is known of the nodes before it, and what is kept of them while they come in their order.
//!
//! A node of a unit and what it stands in go in; what is known of it, the least constraint that it breaks, the rules that fail and
//! the limit that it passes come out, by the kind of the node: expressions are told by `whole_judge`, declarations by
//! `declaration_judge`, members by `member_declarations` and `member_names`, and specifiers by `specifier_judge`. What a row says
//! stands in `meaning_typing/specs/WholeTyping.antt`, and `specs/Known.antt` says what is known before a node. Which rows a unit asks,
//! accesses, and the judgement of a unit aren't known here. An expression is judged by itself by [`judge_expr`], and what is answered of it
//! stands in `specs/Judging.antt`. Start reading at [`Known`] and [`judge_node`].
#![tactic(auto)]

mod bodies;
mod fault;
mod judging;
mod known;
mod loaded;
mod members;
mod named_types;
mod names;
mod places;
mod rows;
mod statements;
mod widths;

pub use declaration_judge::Declarations;
pub use fault::ExprFault;
pub use judging::judge_expr;
pub use known::Known;
pub use named_types::name_types;
pub use places::FlexiblePlaces;
pub use rows::judge_node;
