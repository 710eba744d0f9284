// Address spaces by number or by the id of a name. Spellings aren't known here.
use crate::ids::NameId;

/// The address space of a type. Space 0 is a space like another, unlike none.
#[derive(Clone, Copy, Debug, PartialEq, Eq)]
pub enum Space {
    None,
    Number(u32),
    Named(NameId),
}
