// The table of sets as its callers see it.
use crate::addition::{Addition, Additions};
use crate::branch::{EMPTY, single};
use crate::pair::{Operation, Pair};
use crate::trie::Trie;
use std::alloc::{AllocError, Global};
use std::marker::Model;

/// How many bits a number of a set may have.
const LEVELS: u32 = 30;

/// The number by which a table knows a set.
#[derive(Clone, Copy, Debug, PartialEq, Eq)]
pub struct SetId(pub u32);

/// A table of sets of numbers below 2^30. Its value is the list of them, each as the list of its numbers.
///
/// A set never changes and never goes. It costs what it doesn't share with those that stand already, and
/// what was made of two sets, or of a set and a number, is remembered: for a set one number larger, and for
/// what is made of two such sets, some 30 steps are enough, and one where it was asked for before.
#[derive(Drop)]
pub struct NumberSets {
    trie: Trie,
    additions: Additions,
}

impl Model for NumberSets {
    ghost use Rattle.std.specs.Prelude.{List, ℕ};
    ghost use Rattle.number_sets.specs.Branches.{sets_of, AreBranches, AreDone, AreGrown};

    ghost Value = { List (List ℕ) };

    ghost view = { λ sets. sets_of sets.trie.branches.keys };

    ghost invariant = { λ sets. AreBranches sets.trie.branches.keys × AreDone sets.trie.branches.keys sets.trie.done.entries
        × AreGrown sets.trie.branches.keys sets.additions.grown.entries };
}

impl NumberSets {
    ghost use Rattle.std.specs.Prelude.{◌≡◌, ◌<◌, ◌^◌, ◌||◌, ◌&&◌, ℕ, ◌↔◌, false, nat_eq, IfOk, IsTrue};
    ghost use Rattle.number_sets.specs.NumberSets.{Extends, IsSet, holds, plain_sets};
    ghost use Rattle.number_sets.specs.Branches.{of_both};

    /// A table that takes no memory. It has the empty set, and that of each number alone.
    pub fn new(alloc: Global) -> NumberSets
        ensures { result ≡ plain_sets }
    {
        NumberSets {
            trie: Trie::new(alloc),
            additions: Additions::new(alloc),
        }
    }

    /// The set of no number.
    pub fn empty(&self) -> SetId
        ensures set { IsSet self.now result }
        ensures none { (n : ℕ) → holds self.now result n ≡ false }
    {
        let _sets = &self.trie;
        SetId(EMPTY)
    }

    /// Whether an id is that of a set of this table.
    pub fn is_set(&self, set: SetId) -> bool
        ensures { IsTrue result ↔ IsSet self.now set }
    {
        self.trie.stands(set.0)
    }

    /// Whether a set has a number. This takes at most 30 steps, and no memory.
    pub fn contains(&self, set: SetId, number: u32) -> bool
        requires { IsSet self.now set }
        ensures { result ≡ holds self.now set number }
    {
        self.trie.contains(set.0, number)
    }

    /// The set with a number too.
    pub fn with(&mut self, set: SetId, number: u32) -> Result<SetId, AllocError>
        requires set { IsSet self.old set }
        requires number { number < 2 ^ 30 }
        ensures set { IfOk result (IsSet self.new) }
        ensures numbers { IfOk result (λ found. (n : ℕ) → holds self.new found n ≡ nat_eq n number || holds self.old set n) }
        ensures keeps { Extends self.old self.new }
    {
        if set.0 == EMPTY {
            let _sets = &self.trie;
            return Ok(SetId(single(number)));
        }
        let addition = Addition { set: set.0, number };
        if let Some(known) = self.additions.get(addition) {
            return Ok(SetId(known));
        }
        let grown = self.trie.with(LEVELS, set.0, number)?;
        self.additions.insert(addition, grown)?;
        Ok(SetId(grown))
    }

    /// The numbers that either set has.
    pub fn union(&mut self, set: SetId, other: SetId) -> Result<SetId, AllocError>
        requires set { IsSet self.old set }
        requires other { IsSet self.old other }
        ensures set { IfOk result (IsSet self.new) }
        ensures numbers { IfOk result (λ found. (n : ℕ) → holds self.new found n ≡ holds self.old set n || holds self.old other n) }
        ensures keeps { Extends self.old self.new }
    {
        self.combined(Operation::Union, set, other)
    }

    /// The numbers that both sets have.
    pub fn intersection(&mut self, set: SetId, other: SetId) -> Result<SetId, AllocError>
        requires set { IsSet self.old set }
        requires other { IsSet self.old other }
        ensures set { IfOk result (IsSet self.new) }
        ensures numbers { IfOk result (λ found. (n : ℕ) → holds self.new found n ≡ holds self.old set n && holds self.old other n) }
        ensures keeps { Extends self.old self.new }
    {
        self.combined(Operation::Intersection, set, other)
    }

    // The union or the intersection.
    fn combined(
        &mut self,
        operation: Operation,
        set: SetId,
        other: SetId,
    ) -> Result<SetId, AllocError>
        requires set { IsSet self.old set }
        requires other { IsSet self.old other }
        ensures set { IfOk result (IsSet self.new) }
        ensures numbers { IfOk result (λ found. (n : ℕ) → holds self.new found n ≡ of_both operation (holds self.old set n) (holds self.old other n)) }
        ensures keeps { Extends self.old self.new }
    {
        let pair = Pair {
            operation,
            left: set.0,
            right: other.0,
        };
        Ok(SetId(self.trie.combined(LEVELS, pair)?))
    }
}
