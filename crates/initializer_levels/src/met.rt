// What a walk meets at an item: an expression for a part of the object, or what has no place there (C11 6.7.9 p2, p6, p7).
use crate::items::ItemList;
use crate::parts::PartType;
use crate::paths::PathId;
use c_tree::Handle;

/// An initializer, and the part of the object that it is for.
#[derive(Clone, Copy, Debug, PartialEq, Eq)]
pub struct Placed {
    pub of: PartType,
    /// Where the part stands; none is the object itself.
    pub path: Option<PathId>,
    /// The handle of its node.
    pub initializer: Handle,
    /// A designator stands before it, or before braces that it begins.
    pub is_moved: bool,
}

/// What is found of one initializer.
#[derive(Clone, Copy, Debug, PartialEq, Eq)]
pub enum Finding {
    /// It is an expression, for this part.
    Leaf(Placed),
    /// It has no place.
    Extra(Handle),
    /// The designator with this handle names no part.
    NoPart(Handle),
}

/// What a turn of a walk meets.
#[derive(Drop)]
pub enum Met {
    Nothing,
    One(Finding),
    /// A string that stands first in braces of its own, and the items behind it, which have no place.
    StringAlone(Placed, ItemList),
}
