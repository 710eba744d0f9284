// A chain of vectors that holds one list.
use std::alloc::{AllocError, Global};
use std::collections::LinkedList;

/// A list in a chain of vectors, of which none is empty.
///
/// What `push` alone built is one vector; each `append` adds those of the other chain and moves no
/// value. Calls that look for a place go over the vectors in order.
#[derive(Drop)]
pub struct Chunks<T> {
    pub list: LinkedList<Vec<T>>,
}

impl<T> Chunks<T> {
    ghost use Rattle.std.specs.Prelude.{◌≡◌, ◌+◌, ◌^◌, ◌<◌, ◌≤◌, [], ◌∷◌, ◌++◌, length, take, drop, slice_get, IfErr, OnErr, OnOk, MatchResult};
    ghost use Rattle.std.specs.Borrow.{sem};
    ghost use Rattle.chunk_list.specs.Chunks.{AllFilled, IsPlaceInFront, contents, items_of};
    ghost use Rattle.chunk_list.specs.LentFront.{LendsFrontItem};

    /// A chain of no vectors, which takes no memory.
    pub fn new(alloc: Global) -> Chunks<T>
        ensures { result.list ≡ [] }
    {
        Chunks {
            list: LinkedList::new(alloc),
        }
    }

    /// Ends an empty chain, where `T` need not be `Drop`.
    pub fn destroy_empty(self)
        requires { self.list ≡ [] }
    {
        let Chunks { list } = self;
        list.destroy_empty();
    }

    /// Puts the vectors of the other chain behind those of this one.
    pub fn append(&mut self, other: &mut Chunks<T>)
        requires { length self.old.list + length other.old.list < 2 ^ 63 }
        ensures after { self.new.list ≡ self.old.list ++ other.old.list }
        ensures emptied { other.new.list ≡ [] }
    {
        let joined = self.list.append(&mut other.list);
        prove!(joined.is_ok());
    }

    /// Moves the vectors from the given one on into an empty chain.
    pub fn split_off(&mut self, index: usize, tail: &mut Chunks<T>)
        requires within { index ≤ length self.old.list }
        requires empty { tail.old.list ≡ [] }
        requires few { length self.old.list < 2 ^ 63 }
        ensures front { self.new.list ≡ take index self.old.list }
        ensures tail { tail.new.list ≡ drop index self.old.list }
    {
        let mut moved = self.list.split_off(index).unwrap();
        let joined = tail.list.append(&mut moved);
        prove!(joined.is_ok());
        moved.destroy_empty();
    }

    /// Appends a value to the last vector, or begins the first one with it. A refused value comes back.
    #[tactic(auto, using(crate::proofs::ChunkLemmas::last_grows))]
    pub fn push(&mut self, v: T) -> Result<(), (AllocError, T)>
        requires { AllFilled items_of self.old.list }
        ensures ok { OnOk result (contents items_of self.new.list ≡ contents items_of self.old.list ++ v ∷ []) }
        ensures err { OnErr result (contents items_of self.new.list ≡ contents items_of self.old.list) }
        ensures back { IfErr result (λ e. e.1 ≡ v) }
        ensures filled { AllFilled items_of self.new.list }
    {
        if self.list.is_empty() {
            return self.begin(v);
        }
        let last = self.list.back_mut().unwrap();
        match last.push(v) {
            Ok(()) => Ok(()),
            Err(refused) => Err((AllocError, refused.value)),
        }
    }

    // Begins the first vector with a value.
    fn begin(&mut self, v: T) -> Result<(), (AllocError, T)>
        requires { self.old.list ≡ [] }
        ensures ok { OnOk result (contents items_of self.new.list ≡ v ∷ []) }
        ensures err { OnErr result (self.new.list ≡ []) }
        ensures back { IfErr result (λ e. e.1 ≡ v) }
        ensures filled { AllFilled items_of self.new.list }
    {
        let mut first = Vec::new(*self.list.allocator());
        if let Err(refused) = first.push(v) {
            first.destroy_empty();
            return Err((AllocError, refused.value));
        }
        match self.list.push_back(first) {
            Ok(()) => Ok(()),
            Err(refused) => {
                let mut first = refused.value;
                let v = first.pop().unwrap();
                first.destroy_empty();
                Err((AllocError, v))
            }
        }
    }

    /// The value at a place of the whole list, or how far behind the end the place is.
    pub fn find(&self, place: usize) -> Result<&T, usize>
        ensures { MatchResult result
            (λ v. slice_get (contents items_of self.now.list) place ≡ Some v.now)
            (λ beyond. place ≡ length (contents items_of self.now.list) + beyond) }
    {
        let mut beyond = place;
        for chunk in self.list.iter() {
            if beyond < chunk.len() {
                return Ok(&chunk[beyond]);
            }
            beyond -= chunk.len();
        }
        Err(beyond)
    }

    /// Which vector has a place of the whole list, and at which place of its own.
    #[tactic(auto, using(crate::proofs::ChunkLemmas::one_on))]
    pub fn locate(&self, place: usize) -> (usize, usize)
        requires { place < length (contents items_of self.now.list) }
        ensures chunk { result.0 ≤ length self.now.list }
        ensures within { IsPlaceInFront items_of (drop result.0 self.now.list) result.1 }
        ensures sum { place ≡ length (contents items_of (take result.0 self.now.list)) + result.1 }
    {
        let mut within = place;
        for (index, chunk) in self.list.iter().enumerate() {
            if within < chunk.len() {
                return (index, within);
            }
            within -= chunk.len();
        }
        unreachable!()
    }

    /// The value at a place of the first vector.
    pub fn front_item_mut(&mut self, place: usize) -> &mut T
        requires { IsPlaceInFront items_of self.old.list place }
        ensures* writes_back { sem 𝓛 (LendsFrontItem T.row self.entry place result) }
        ensures value { slice_get (contents items_of self.old.list) place ≡ Some result.now }
    {
        let first = self.list.front_mut().unwrap();
        &mut first[place]
    }
}

impl<T: Drop> Chunks<T> {
    ghost use Rattle.std.specs.Prelude.{◌≡◌, ◌-◌, ◌<◌, ◌≤◌, length, take};
    ghost use Rattle.chunk_list.specs.Chunks.{AllFilled, contents, items_of};

    /// Drops the last values.
    pub fn shed(&mut self, surplus: usize)
        requires within { surplus ≤ length (contents items_of self.old.list) }
        requires was_filled { AllFilled items_of self.old.list }
        ensures after { contents items_of self.new.list ≡ take (length (contents items_of self.old.list) - surplus) (contents items_of self.old.list) }
        ensures filled { AllFilled items_of self.new.list }
    {
        let mut left = surplus;
        while left > 0 {
            left -= self.shed_last(left);
        }
    }

    // Drops the last values of the last vector, `most` or all of them, and answers how many.
    #[tactic(auto, using(crate::proofs::ChunkLemmas::last_is_cut))]
    fn shed_last(&mut self, most: usize) -> usize
        requires some { 0 < most }
        requires within { most ≤ length (contents items_of self.old.list) }
        requires was_filled { AllFilled items_of self.old.list }
        ensures some { 0 < result }
        ensures up_to { result ≤ most }
        ensures after { contents items_of self.new.list ≡ take (length (contents items_of self.old.list) - result) (contents items_of self.old.list) }
        ensures filled { AllFilled items_of self.new.list }
    {
        let count = self.list.back().unwrap().len();
        if most < count {
            self.list.back_mut().unwrap().truncate(count - most);
            return most;
        }
        drop(self.list.pop_back());
        count
    }
}
