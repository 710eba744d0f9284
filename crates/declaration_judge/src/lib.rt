//! The rows of declarations by their nodes (C11 6.7, 6.7.6, 6.7.10, 6.9), and what is kept of declarations while nodes come in
//! their order.
//!
//! A node of a unit, what it stands in, and what is known of the nodes before it go in; what is known of it, the least
//! constraint that it breaks and the rules that fail come out. What a declaration declares is found in `decl_judge`, and what is
//! asked of it in `declaration_rows`; here both are put together, and handles are looked up. Members of structures and unions,
//! tags and expressions aren't known here. The definitions stand in `meaning_typing/specs/WholeTyping.antt`, `specs/Rows.antt`
//! names their rows, and `specs/Kept.antt` says what is kept. Start reading at [`Declarations`] and [`declarator`].
#![tactic(auto)]

mod again;
mod assertion;
mod declarations;
mod declarators;
mod declared;
mod ending;
mod joining;
mod laws;
mod otherwise;
mod parameters;
mod parts;
mod row;

pub use assertion::static_assertion;
pub use declaration_rows::{in_file, is_no_object, is_unbounded, standing_at};
pub use declarations::Declarations;
pub use declarators::{declarator, with_passed, without_type};
pub use declared::declaration;
pub use ending::unit_end;
pub use laws::rows_are_told_by_kinds;
pub use otherwise::redeclared_otherwise;
pub use parameters::parameter;
pub use parts::{array_declarator, function_declarator};
pub use row::{and_breaks, breaks};
