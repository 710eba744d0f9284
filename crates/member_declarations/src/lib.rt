//! The rows of widths of bit-fields and of declarators of members (C11 6.7.2.1): what is known of them, what is broken, and which
//! rule fails.
//!
//! A unit, what its nodes stand in and what is known of them go in; what is known of a width or a declarator, the least constraint
//! that is broken and the rule that fails come out. Which declarator a width belongs to is told by their places, and which member
//! may be an array without a length by what is kept of its body ([`FlexiblePlace`]), so no declaration and no body is gone through
//! again for each of its members. The definition stands in `meaning_typing/specs/MemberRows.antt`, and `specs/Seen.antt` says how
//! rows are seen. Whether a name is declared twice is told by who calls. Start reading at [`bit_field_row`] and
//! [`judge_member`].
#![tactic(auto)]

mod anonymous;
mod bit_fields;
mod entries;
mod fact;
mod flexible;
mod members;
mod numbers;
mod open_arrays;
mod row;
mod widths;

pub use bit_fields::bit_field_row;
pub use declaration_rows::{declarator_parts, declared_behind, result_in, type_of_name};
pub use entries::declarator_of_width;
pub use fact::member_fact;
pub use flexible::{FlexiblePlace, LastMember, NamedMembers, may_be_flexible};
pub use members::{judge_member, member_row};
pub use row::MemberRow;
pub use widths::judge_width;
