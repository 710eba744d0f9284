// The children of a node that has few of them.
ghost use Rattle.std.specs.Prelude.{◌≡◌};
ghost use Rattle.const_fold.specs.Outlined.{few_children};

use c_tree::{Handle, TagList};

/// The children of a node, if they are one, two or three.
#[derive(Clone, Copy, Debug, PartialEq, Eq)]
pub enum Children {
    One(Handle),
    Two(Handle, Handle),
    Three(Handle, Handle, Handle),
    Other,
}

/// The children of a list.
pub fn children_of(list: &TagList) -> Children
    ensures { result ≡ few_children list.now }
{
    match list.len() {
        1 => Children::One(list.get(0).0),
        2 => Children::Two(list.get(0).0, list.get(1).0),
        3 => Children::Three(list.get(0).0, list.get(1).0, list.get(2).0),
        _ => Children::Other,
    }
}
