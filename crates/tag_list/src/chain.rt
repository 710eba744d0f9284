// Tagged handles in a chain of vectors, of which none is empty.
use crate::tagged::Tagged;
use smallvec::SmallVec;
use std::alloc::{AllocError, Global};
use std::collections::LinkedList;

// With six in place a link of the chain takes 56 bytes, so that a short list is one allocation of 64.
const IN_PLACE: usize = 6;

/// A vector that keeps its first few tagged handles in the link of its chain.
pub type Few = SmallVec<Tagged, IN_PLACE>;

/// The chain. What `push` alone built is one vector; each `append` adds those of the other chain.
#[derive(Drop)]
pub struct Chain {
    pub list: LinkedList<Few>,
}

/// A place of the whole list: which vector has it, at which place of its own, and what stands there.
#[derive(Clone, Copy)]
pub struct Spot {
    pub index: usize,
    pub within: usize,
    pub entry: Tagged,
}

impl Chain {
    ghost use Rattle.std.specs.Prelude.{◌≡◌, ◌+◌, ◌^◌, ◌<◌, ◌≤◌, ◌↔◌, [], ◌∷◌, ◌++◌, length, take, drop, slice_get, slice_set, IfNone, IfSome, IsSome, OnErr, OnOk};
    ghost use Rattle.chunk_list.specs.Chunks.{IsPlaceInFront};
    ghost use Rattle.tag_list.specs.Chain.{AllFilled, entries, few_items};

    /// A chain of no vectors, which takes no memory.
    pub fn new(alloc: Global) -> Chain
        ensures { result.list ≡ [] }
    {
        Chain {
            list: LinkedList::new(alloc),
        }
    }

    /// Appends a tagged handle to the last vector, or begins the first one with it.
    #[tactic(auto, using(crate::proofs::ChainLemmas::last_grows))]
    pub fn push(&mut self, entry: Tagged) -> Result<(), AllocError>
        requires { AllFilled self.old.list }
        ensures ok { OnOk result (entries self.new.list ≡ entries self.old.list ++ entry ∷ []) }
        ensures err { OnErr result (entries self.new.list ≡ entries self.old.list) }
        ensures filled { AllFilled self.new.list }
    {
        if self.list.is_empty() {
            return self.begin(entry);
        }
        let last = self.list.back_mut().unwrap();
        match last.push(entry) {
            Ok(()) => Ok(()),
            Err(_) => Err(AllocError),
        }
    }

    // Begins the first vector with a tagged handle, which finds room in place.
    fn begin(&mut self, entry: Tagged) -> Result<(), AllocError>
        requires { self.old.list ≡ [] }
        ensures ok { OnOk result (entries self.new.list ≡ entry ∷ []) }
        ensures err { OnErr result (self.new.list ≡ []) }
        ensures filled { AllFilled self.new.list }
    {
        let mut first = Few::new(*self.list.allocator());
        first.push_reserved(entry);
        match self.list.push_back(first) {
            Ok(()) => Ok(()),
            Err(_) => Err(AllocError),
        }
    }

    /// Puts the vectors of the other chain behind those of this one.
    pub fn append(&mut self, other: &mut Chain)
        requires { length self.old.list + length other.old.list < 2 ^ 63 }
        ensures after { self.new.list ≡ self.old.list ++ other.old.list }
        ensures emptied { other.new.list ≡ [] }
    {
        let joined = self.list.append(&mut other.list);
        prove!(joined.is_ok());
    }

    /// Where a place of the whole list is, and what stands there.
    pub fn locate(&self, place: usize) -> Spot
        requires { place < length (entries self.now.list) }
        ensures entry { slice_get (entries self.now.list) place ≡ Some result.entry }
        ensures index { result.index ≤ length self.now.list }
        ensures within { IsPlaceInFront few_items (drop result.index self.now.list) result.within }
        ensures sum { place ≡ length (entries (take result.index self.now.list)) + result.within }
    {
        let mut within = place;
        for (index, few) in self.list.iter().enumerate() {
            let few = few.as_slice();
            if within < few.len() {
                let entry = few[within];
                return Spot {
                    index,
                    within,
                    entry,
                };
            }
            within -= few.len();
        }
        unreachable!()
    }

    /// Puts a tagged handle in the place of another.
    #[tactic(auto, using(crate::proofs::ChainLemmas::replaced))]
    pub fn set(&mut self, spot: Spot, entry: Tagged)
        requires index { spot.index ≤ length self.old.list }
        requires within { IsPlaceInFront few_items (drop spot.index self.old.list) spot.within }
        requires few { length self.old.list < 2 ^ 63 }
        requires was_filled { AllFilled self.old.list }
        ensures after { entries self.new.list
            ≡ slice_set (entries self.old.list) (length (entries (take spot.index self.old.list)) + spot.within) entry }
        ensures filled { AllFilled self.new.list }
    {
        let list = self.list.split_off(spot.index).unwrap();
        let mut tail = Chain { list };
        tail.set_in_front(spot.within, entry);
        self.append(&mut tail);
    }

    // Puts a tagged handle in the place of another in the first vector.
    #[tactic(auto, using(crate::proofs::ChainLemmas::replaced))]
    fn set_in_front(&mut self, place: usize, entry: Tagged)
        requires within { IsPlaceInFront few_items self.old.list place }
        requires was_filled { AllFilled self.old.list }
        ensures after { entries self.new.list ≡ slice_set (entries self.old.list) place entry }
        ensures vectors { length self.new.list ≡ length self.old.list }
        ensures filled { AllFilled self.new.list }
    {
        let first = self.list.front_mut().unwrap();
        *first.get_mut(place).unwrap() = entry;
    }

    /// Takes the last tagged handle. A vector that would be left empty goes with it.
    #[tactic(auto, using(crate::proofs::ChainLemmas::last_shrinks))]
    pub fn pop(&mut self) -> Option<Tagged>
        requires { AllFilled self.old.list }
        ensures found { IsSome result ↔ (0 < length (entries self.old.list)) }
        ensures last { IfSome result (λ entry. entries self.old.list ≡ entries self.new.list ++ entry ∷ []) }
        ensures empty { IfNone result (entries self.new.list ≡ []) }
        ensures filled { AllFilled self.new.list }
    {
        if self.list.back()?.len() == 1 {
            let mut last = self.list.pop_back()?;
            return last.pop();
        }
        let last = self.list.back_mut()?;
        last.pop()
    }
}
