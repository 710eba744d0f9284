// A substituted body before it goes back to what is read.
ghost use Rattle.std.specs.Prelude.{[]};
ghost use Rattle.c_macros.specs.Laid.{Lays};

use crate::item::Item;
use std::alloc::Global;

/// Where a part of a body ends among the items, and whether white space stands before it.
#[derive(Clone, Copy)]
pub(crate) struct LaidEnd {
    pub(crate) space: bool,
    pub(crate) end: usize,
}

/// The items of a substituted body, and its parts in order: one for each chain of operands.
#[derive(Drop)]
pub(crate) struct Laid {
    pub(crate) items: Vec<Item>,
    pub(crate) ends: Vec<LaidEnd>,
}

impl Laid {
    /// A body without parts. It takes no memory.
    pub(crate) fn new(alloc: Global) -> Self
        ensures { Lays result [] }
    {
        Laid {
            items: Vec::new(alloc),
            ends: Vec::new(alloc),
        }
    }

    /// Drops the parts, and keeps the memory.
    pub(crate) fn clear(&mut self)
        ensures { Lays self.new [] }
    {
        self.items.clear();
        self.ends.clear();
    }
}
