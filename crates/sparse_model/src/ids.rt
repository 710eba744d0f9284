// The ids by which values name what a table keeps.
use crate::seq::Seq;

/// The number of a spelling in the table of names. Number 0 is the empty spelling.
#[derive(Clone, Copy, Debug, PartialEq, Eq, PartialOrd, Ord, Hash)]
pub struct NameId(pub u32);

/// Spellings in their order.
pub type NameList = Seq<NameId>;

/// The number of a type in the table of types.
#[derive(Clone, Copy, Debug, PartialEq, Eq, PartialOrd, Ord, Hash)]
pub struct TypeId(pub u32);

/// A restricted identity: the index of the first token of the declaration that made it.
#[derive(Clone, Copy, Debug, PartialEq, Eq, PartialOrd, Ord, Hash)]
pub struct Restrict(pub u32);
