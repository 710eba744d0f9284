// The branches of all sets, and what was made of pairs of them.
use crate::branch::{Branch, EMPTY, PLAIN_SETS, half, plain_levels, single};
use crate::pair::{Pair, settled};
use indexmap::{IndexMap, IndexSet};
use std::alloc::{AllocError, Global};

/// How many branches a table may hold.
const MAX_BRANCHES: usize = 1 << 30;

/// The branches of the sets of a table. A set with a branch is known by the place of its branch, behind
/// those without.
#[derive(Drop)]
pub struct Trie {
    // Each branch stands once.
    pub branches: IndexSet<Branch>,
    // What was made of a pair is looked up when the pair comes again.
    pub done: IndexMap<Pair, u32>,
}

impl Trie {
    ghost use Rattle.std.specs.Prelude.{◌≡◌, ◌≢◌, ◌<◌, ◌≤◌, ◌+◌, ◌-◌, ◌^◌, ◌↔◌, ℕ, [], Some, length, slice_get, IfOk, IfSome, IsTrue};
    ghost use Rattle.number_sets.specs.NumberSets.{has};
    ghost use Rattle.number_sets.specs.Branches.{AreBranches, AreDone, Grows, HasToo, IsMade, IsSplit, count, levels_of, sets_of};

    /// No branches, in no memory.
    pub fn new(alloc: Global) -> Trie
        ensures branches { result.branches.keys ≡ [] }
        ensures done { result.done.entries ≡ [] }
    {
        Trie {
            branches: IndexSet::new(alloc),
            done: IndexMap::new(alloc),
        }
    }

    /// Whether a set stands.
    pub fn stands(&self, set: u32) -> bool
        ensures { IsTrue result ↔ (set < count self.now.branches.keys) }
    {
        set < PLAIN_SETS || ((set - PLAIN_SETS) as usize) < self.branches.len()
    }

    // The branch of a set that has one.
    fn branch(&self, set: u32) -> Branch
        requires branches { AreBranches self.now.branches.keys }
        requires has_one { 1073741825 ≤ set }
        requires stands { set < count self.now.branches.keys }
        ensures stands { slice_get self.now.branches.keys (set - 1073741825) ≡ Some result }
        ensures parts { IsSplit self.now.branches.keys set result.bit result.lower result.upper }
        ensures bit { result.bit < 30 }
    {
        self.branches.as_slice()[(set - PLAIN_SETS) as usize]
    }

    // How many bits the numbers of a set have at most.
    fn levels(&self, set: u32) -> u32
        requires branches { AreBranches self.now.branches.keys }
        requires stands { set < count self.now.branches.keys }
        ensures levels { result ≡ levels_of self.now.branches.keys set }
        ensures most { result ≤ 30 }
    {
        if set < PLAIN_SETS {
            return plain_levels(set);
        }
        self.branch(set).bit + 1
    }

    // The set of the numbers without a bit, and that of those with it, less the bit.
    fn halves(&self, set: u32, bit: u32) -> (u32, u32)
        requires branches { AreBranches self.now.branches.keys }
        requires stands { set < count self.now.branches.keys }
        requires levels { levels_of self.now.branches.keys set ≤ bit + 1 }
        ensures { IsSplit self.now.branches.keys set bit result.0 result.1 }
    {
        if self.levels(set) <= bit {
            return (set, EMPTY);
        }
        if set < PLAIN_SETS {
            return (EMPTY, set - half(bit));
        }
        let branch = self.branch(set);
        (branch.lower, branch.upper)
    }

    // The set with these halves.
    fn joined(&mut self, bit: u32, lower: u32, upper: u32) -> Result<u32, AllocError>
        requires branches { AreBranches self.old.branches.keys }
        requires done { AreDone self.old.branches.keys self.old.done.entries }
        requires bit { bit < 30 }
        requires lower_stands { lower < count self.old.branches.keys }
        requires upper_stands { upper < count self.old.branches.keys }
        requires lower_levels { levels_of self.old.branches.keys lower ≤ bit }
        requires upper_levels { levels_of self.old.branches.keys upper ≤ bit }
        ensures parts { IfOk result (λ set. IsSplit self.new.branches.keys set bit lower upper) }
        ensures branches { AreBranches self.new.branches.keys }
        ensures done { AreDone self.new.branches.keys self.new.done.entries }
        ensures grows { Grows self.old.branches.keys self.new.branches.keys }
    {
        if upper == EMPTY {
            return Ok(lower);
        }
        if lower == EMPTY && upper < PLAIN_SETS {
            return Ok(upper + half(bit));
        }
        if self.branches.len() >= MAX_BRANCHES {
            return Err(AllocError);
        }
        let (index, _) = self.branches.insert_full(Branch { bit, lower, upper })?;
        Ok(index as u32 + PLAIN_SETS)
    }

    /// Whether a set has a number.
    pub fn contains(&self, set: u32, number: u32) -> bool
        requires branches { AreBranches self.now.branches.keys }
        requires stands { set < count self.now.branches.keys }
        ensures { result ≡ has (sets_of self.now.branches.keys) set number }
    {
        let mut rest = set;
        let mut left = number;
        'search: while rest >= PLAIN_SETS {
            let branch = self.branch(rest);
            let split = half(branch.bit);
            if left < split {
                rest = branch.lower;
                continue 'search;
            }
            rest = branch.upper;
            left -= split;
        }
        rest != EMPTY && left == rest - 1
    }

    /// The set with a number too, both of at most so many bits.
    pub fn with(&mut self, levels: u32, set: u32, number: u32) -> Result<u32, AllocError>
        requires branches { AreBranches self.old.branches.keys }
        requires done { AreDone self.old.branches.keys self.old.done.entries }
        requires most { levels ≤ 30 }
        requires stands { set < count self.old.branches.keys }
        requires set { levels_of self.old.branches.keys set ≤ levels }
        requires number { number < 2 ^ levels }
        ensures more { IfOk result (λ grown. HasToo self.new.branches.keys levels set number grown) }
        ensures branches { AreBranches self.new.branches.keys }
        ensures done { AreDone self.new.branches.keys self.new.done.entries }
        ensures grows { Grows self.old.branches.keys self.new.branches.keys }
    {
        if set == EMPTY {
            return Ok(single(number));
        }
        if levels == 0 {
            return Ok(set);
        }
        let bit = levels - 1;
        let split = half(bit);
        let (lower, upper) = self.halves(set, bit);
        if number < split {
            let grown = self.with(bit, lower, number)?;
            return self.joined(bit, grown, upper);
        }
        let grown = self.with(bit, upper, number - split)?;
        self.joined(bit, lower, grown)
    }

    // What was made of a pair before.
    fn remembered(&self, pair: Pair) -> Option<u32>
        requires { AreDone self.now.branches.keys self.now.done.entries }
        ensures { IfSome result (IsMade self.now.branches.keys pair) }
    {
        self.done.get(&pair).copied()
    }

    // The highest bit of the numbers of two sets, of which one has a number but 0.
    fn top_bit(&self, pair: Pair) -> u32
        requires branches { AreBranches self.now.branches.keys }
        requires left_stands { pair.left < count self.now.branches.keys }
        requires right_stands { pair.right < count self.now.branches.keys }
        requires differ { pair.left ≢ pair.right }
        requires left { pair.left ≢ 0 }
        requires right { pair.right ≢ 0 }
        ensures bit { result < 30 }
        ensures left { levels_of self.now.branches.keys pair.left ≤ result + 1 }
        ensures right { levels_of self.now.branches.keys pair.right ≤ result + 1 }
        ensures one { (most : ℕ) → levels_of self.now.branches.keys pair.left ≤ most → levels_of self.now.branches.keys pair.right ≤ most → result + 1 ≤ most }
    {
        self.levels(pair.left).max(self.levels(pair.right)) - 1
    }

    /// What is made of two sets of at most so many bits.
    #[cycle(combined)]
    pub fn combined(&mut self, levels: u32, pair: Pair) -> Result<u32, AllocError>
        requires branches { AreBranches self.old.branches.keys }
        requires done { AreDone self.old.branches.keys self.old.done.entries }
        requires left_stands { pair.left < count self.old.branches.keys }
        requires right_stands { pair.right < count self.old.branches.keys }
        requires left { levels_of self.old.branches.keys pair.left ≤ levels }
        requires right { levels_of self.old.branches.keys pair.right ≤ levels }
        ensures made { IfOk result (IsMade self.new.branches.keys pair) }
        ensures branches { AreBranches self.new.branches.keys }
        ensures done { AreDone self.new.branches.keys self.new.done.entries }
        ensures grows { Grows self.old.branches.keys self.new.branches.keys }
    {
        if let Some(set) = settled(pair) {
            return Ok(set);
        }
        if let Some(set) = self.remembered(pair) {
            return Ok(set);
        }
        let bit = self.top_bit(pair);
        let set = self.parted(bit, pair)?;
        self.done.insert(pair, set)?;
        Ok(set)
    }

    // The same, half by half, where one of the sets has a number of so many bits and one more.
    #[cycle(combined)]
    fn parted(&mut self, bit: u32, pair: Pair) -> Result<u32, AllocError>
        requires branches { AreBranches self.old.branches.keys }
        requires done { AreDone self.old.branches.keys self.old.done.entries }
        requires bit { bit < 30 }
        requires left_stands { pair.left < count self.old.branches.keys }
        requires right_stands { pair.right < count self.old.branches.keys }
        requires left { levels_of self.old.branches.keys pair.left ≤ bit + 1 }
        requires right { levels_of self.old.branches.keys pair.right ≤ bit + 1 }
        requires one { (most : ℕ) → levels_of self.old.branches.keys pair.left ≤ most → levels_of self.old.branches.keys pair.right ≤ most → bit + 1 ≤ most }
        ensures made { IfOk result (IsMade self.new.branches.keys pair) }
        ensures branches { AreBranches self.new.branches.keys }
        ensures done { AreDone self.new.branches.keys self.new.done.entries }
        ensures grows { Grows self.old.branches.keys self.new.branches.keys }
    {
        let operation = pair.operation;
        let (left, left_upper) = self.halves(pair.left, bit);
        let (right, right_upper) = self.halves(pair.right, bit);
        let lower = self.combined(
            bit,
            Pair {
                operation,
                left,
                right,
            },
        )?;
        let upper = self.combined(
            bit,
            Pair {
                operation,
                left: left_upper,
                right: right_upper,
            },
        )?;
        self.joined(bit, lower, upper)
    }
}
