//! What is asked of declarations besides their types (C11 6.7, 6.7.6, 6.9).
//!
//! Nodes, what they stand in, what is known of them so far and the table of types go in; the least constraint that is broken and
//! the rules that fail come out. What a declaration declares is found in `decl_judge`, and no row is put together here. The
//! definitions stand in `meaning_typing/specs/DeclarationRows.antt`, and `specs/Kept.antt` says what is kept while nodes come in
//! their order. Start reading at [`declarator_parts`] and [`declared_object_broken`].
#![tactic(auto)]

mod bitwise;
mod complete;
mod completed;
mod declarator;
mod definitions;
mod failures;
mod hiding;
mod objects;
mod parameters;
mod parts;
mod sizes;
mod standing;
mod tentative;
mod tokens;
mod undeclared;

pub use bitwise::{bitwise_broken, own_bitwise_broken};
pub use complete::{incomplete_name, is_no_object, is_unbounded};
pub use completed::declared_behind;
pub use declarator::{DeclaratorParts, declarator_parts};
pub use definitions::{DefinedNames, definition_broken};
pub use hiding::{hiding_declarator_failure, hiding_enumerator_failure};
pub use objects::{
    declared_object_broken, defined_result_broken, defines, has_initializer, in_file,
    object_broken, result_in,
};
pub use parameters::{
    empty_list_failure, is_list_of_body, parameter_broken, parameter_node_broken,
};
pub use parts::{JudgedParts, element_type_broken, judge_parts, part_broken, result_type_broken};
pub use sizes::sizes_broken;
pub use standing::standing_at;
pub use tentative::{
    TentativeObjects, is_tentative, tentative_broken, type_of_name, unit_end_broken,
};
pub use tokens::lowest;
pub use undeclared::{is_declared_before, undeclared_failure};
