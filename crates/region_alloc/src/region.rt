// A region: values in the order in which they came.
use chunk_list::Chunks;
use std::alloc::{AllocError, Global};
use std::marker::Model;

/// The place of a value in its region: 0 is the first.
pub type Handle = u32;

/// A length that a region had, to which it can go back.
#[derive(Clone, Copy, Debug, PartialEq, Eq)]
pub struct Mark {
    pub len: u32,
}

/// Values that come one by one and go together.
///
/// A region has at most 2^30 values. What `put` alone built lies in one piece, so that `get` is
/// constant time there; each `absorb` adds a piece, and `get` looks through the pieces in order.
#[derive(Drop)]
pub struct Region<T> {
    before: Chunks<T>,
    // Only `get_mut` parts the chain: the value that it lends is in the first vector behind the cut.
    after: Chunks<T>,
    len: u32,
}

impl<T> Model for Region<T> {
    ghost use Rattle.std.specs.Prelude.{List, ◌++◌};
    ghost use Rattle.chunk_list.specs.Chunks.{contents, items_of};
    ghost use Rattle.region_alloc.specs.Region.{IsCounted};

    ghost Value = { List T };

    ghost view = { λ r. contents items_of r.before.list ++ contents items_of r.after.list };

    ghost invariant = { λ r. IsCounted r.before.list r.after.list r.len };
}

impl<T> Region<T> {
    ghost use Rattle.std.specs.Prelude.{◌≡◌, ◌+◌, ◌^◌, ◌<◌, ◌≤◌, [], ◌∷◌, ◌++◌, length, slice_get, IfErr, IfOk, OnErr, OnOk};
    ghost use Rattle.std.specs.Borrow.{sem};
    ghost use Rattle.region_alloc.specs.LentValue.{LendsValue};

    /// An empty region, which takes no memory.
    pub fn new(alloc: Global) -> Region<T>
        ensures empty { result ≡ [] }
    {
        Region {
            before: Chunks::new(alloc),
            after: Chunks::new(alloc),
            len: 0,
        }
    }

    /// How many values the region has.
    pub fn len(&self) -> u32
        ensures value { result ≡ length self.now }
        ensures small { result ≤ 2 ^ 30 }
    {
        self.len
    }

    /// The length now, for a later `release`.
    pub fn mark(&self) -> Mark
        ensures length { result.len ≡ length self.now }
    {
        Mark { len: self.len }
    }

    /// Appends a value, in amortised constant time. A refused value comes back.
    #[tactic(auto, using(crate::proofs::RegionLemmas::joined))]
    pub fn put(&mut self, v: T) -> Result<Handle, (AllocError, T)>
        requires { length self.old < 2 ^ 30 }
        ensures handle { IfOk result (λ h. h ≡ length self.old) }
        ensures ok { OnOk result (self.new ≡ self.old ++ v ∷ []) }
        ensures err { OnErr result (self.new ≡ self.old) }
        ensures back { IfErr result (λ e. e.1 ≡ v) }
    {
        let handle = self.len;
        self.before.append(&mut self.after);
        self.before.push(v)?;
        self.len = handle + 1;
        Ok(handle)
    }

    /// The value with this handle.
    pub fn get(&self, h: Handle) -> &T
        requires { h < length self.now }
        ensures value { slice_get self.now h ≡ Some result.now }
    {
        match self.before.find(h as usize) {
            Ok(v) => v,
            Err(beyond) => self.after.find(beyond).unwrap(),
        }
    }

    /// The value with this handle, to be changed in its place.
    #[tactic(auto, using(crate::proofs::RegionLemmas::joined))]
    pub fn get_mut(&mut self, h: Handle) -> &mut T
        requires { h < length self.old }
        ensures* writes_back { sem 𝓛 (LendsValue T.row self.entry h result) }
        ensures value { slice_get self.old h ≡ Some result.now }
    {
        self.before.append(&mut self.after);
        let (index, place) = self.before.locate(h as usize);
        self.before.split_off(index, &mut self.after);
        self.after.front_item_mut(place)
    }

    /// Appends all values of another region, and answers where they begin.
    #[tactic(auto, using(crate::proofs::RegionLemmas::joined))]
    pub fn absorb(&mut self, other: Region<T>) -> u32
        requires { length self.old + length other ≤ 2 ^ 30 }
        ensures start { result ≡ length self.old }
        ensures after { self.new ≡ self.old ++ other }
    {
        let start = self.len;
        let Region {
            before: mut front,
            after: mut back,
            len,
        } = other;
        self.before.append(&mut self.after);
        self.before.append(&mut front);
        self.before.append(&mut back);
        front.destroy_empty();
        back.destroy_empty();
        self.len = start + len;
        start
    }
}

impl<T: Drop> Region<T> {
    ghost use Rattle.std.specs.Prelude.{◌≡◌, ◌≤◌, length, take};

    /// Goes back to a mark: drops all values that came after it.
    #[tactic(auto, using(crate::proofs::RegionLemmas::joined))]
    pub fn release(&mut self, m: Mark)
        requires { m.len ≤ length self.old }
        ensures after { self.new ≡ take m.len self.old }
    {
        self.before.append(&mut self.after);
        self.before.shed((self.len - m.len) as usize);
        self.len = m.len;
    }
}
