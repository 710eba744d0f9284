// What was made of a set and one number more.
ghost use Rattle.std.specs.Prelude.{◌≡◌, [], IfSome, List, OnErr, OnOk};
ghost use Rattle.number_sets.specs.declared.branch.Branch.{Branch};
ghost use Rattle.number_sets.specs.Branches.{AreGrown, IsGrown};

use indexmap::IndexMap;
use std::alloc::{AllocError, Global};

/// A set, and a number that joins it.
#[derive(Clone, Copy, Debug, PartialEq, Eq, Hash)]
pub struct Addition {
    pub set: u32,
    pub number: u32,
}

/// The sets that came of additions, each looked up when it is asked for again.
#[derive(Drop)]
pub struct Additions {
    pub grown: IndexMap<Addition, u32>,
}

impl Additions {
    /// No additions, in no memory.
    pub fn new(alloc: Global) -> Additions
        ensures { result.grown.entries ≡ [] }
    {
        Additions {
            grown: IndexMap::new(alloc),
        }
    }

    /// What came of an addition before.
    pub fn get(&self, addition: Addition) -> Option<u32>
        ensures { (bs : List Branch) → AreGrown bs self.now.grown.entries → IfSome result (IsGrown bs addition) }
    {
        self.grown.get(&addition).copied()
    }

    /// Remembers what came of an addition.
    pub fn insert(&mut self, addition: Addition, set: u32) -> Result<(), AllocError>
        ensures ok { OnOk result ((bs : List Branch) → AreGrown bs self.old.grown.entries → IsGrown bs addition set → AreGrown bs self.new.grown.entries) }
        ensures err { OnErr result (self.new.grown.entries ≡ self.old.grown.entries) }
    {
        self.grown.insert(addition, set)?;
        Ok(())
    }
}
