//! Sizes, alignments and offsets of the types of a unit (C11 6.5.3.4, 6.7.2.1), for LP64.
//!
//! Each call is a look-up and takes no memory: layouts are made by `c_types`, once, when the members of an
//! aggregate are told. What they say is the layout of `meaning_layout`. Start reading at [`size_of`].
#![tactic(auto)]

mod members;
mod sizes;

pub use c_types::LayoutFault;
pub use members::{FieldBits, field_bits, offset_of};
pub use sizes::{align_of, size_of};

#[cfg(test)]
mod tests;
