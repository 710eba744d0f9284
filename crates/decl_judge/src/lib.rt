//! What specifiers, declarators and parameters declare (C11 6.7).
//!
//! What they declare is said in `meaning_typing`, over types as trees; here a type is a number of the table, and how values
//! are seen is said in `specs/Seen.antt` and `specs/Units.antt`. Start reading at [`Words`].
#![tactic(auto)]

mod asked;
mod declared;
mod force;
mod marking;
mod marks;
mod names;
mod nodes;
mod parameters;
mod parts;
mod specifiers;
mod words;

pub use asked::{declared_type_at, named_type_at, specifiers_of};
pub use declared::{DeclaratorPlace, declarator_fact, is_unit, parameter_fact, parameter_type};
pub use force::is_forced;
pub use marking::Added;
pub use marks::{Marks, attributes_at, marks_among, marks_with_list, marks_with_lists, own_marks};
pub use names::{name_fact, typeof_fact};
pub use nodes::{child_at, kind_at, node_at, token_at};
pub use parameters::is_void_list;
pub use parts::derived;
pub use specifiers::{names_type, specified, specified_as, type_of_words};
pub use words::{Words, words_of};
