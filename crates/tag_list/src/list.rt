// A list of tagged handles.
use crate::chain::Chain;
use crate::iter::TagIter;
use crate::tagged::{Handle, Tagged};
use std::alloc::{AllocError, Global};
use std::marker::Model;

/// Handles below 2^30, each with a tag from 0 to 3, in the order in which they came.
///
/// A list has at most 2^30 pairs, of four bytes each. What `push` alone built lies in one piece;
/// each `join` adds a piece, and `get` and `set_tag` look through the pieces in order. To go over
/// a list, take `iter`.
#[derive(Drop)]
pub struct TagList {
    chain: Chain,
    len: u32,
}

impl Model for TagList {
    ghost use Rattle.std.specs.Prelude.{List, ℕ};
    ghost use Rattle.tag_list.specs.Chain.{entries};
    ghost use Rattle.tag_list.specs.TagList.{IsTagList};

    ghost Value = { List (ℕ × ℕ) };

    ghost view = { λ tags. entries tags.chain.list };

    ghost invariant = { λ tags. IsTagList tags.chain.list tags.len };
}

impl TagList {
    ghost use Rattle.std.specs.Prelude.{◌≡◌, ℕ, ◌+◌, ◌-◌, ◌^◌, ◌<◌, ◌≤◌, ◌↔◌, [], ◌∷◌, ◌++◌, length, take, slice_get, All, IsSome, IfSome, OnErr, OnOk};
    ghost use Rattle.std.specs.Map.Iter.{GivesInOrder, GivesInReverse};
    ghost use Rattle.tag_list.specs.Tagged.{IsTagged, with_tag};

    /// An empty list, which takes no memory.
    pub fn new(alloc: Global) -> TagList
        ensures empty { result ≡ [] }
    {
        TagList {
            chain: Chain::new(alloc),
            len: 0,
        }
    }

    /// How many pairs the list has.
    pub fn len(&self) -> u32
        ensures value { result ≡ length self.now }
        ensures small { result ≤ 2 ^ 30 }
    {
        self.len
    }

    /// Appends a pair, in amortised constant time.
    pub fn push(&mut self, h: Handle, t: u8) -> Result<(), AllocError>
        requires handle { h < 2 ^ 30 }
        requires tag { t < 4 }
        requires room { length self.old < 2 ^ 30 }
        ensures ok { OnOk result (self.new ≡ self.old ++ (h, t) ∷ []) }
        ensures err { OnErr result (self.new ≡ self.old) }
    {
        self.chain.push(Tagged::pack(h, t))?;
        self.len += 1;
        Ok(())
    }

    /// Appends all pairs of another list, in constant time.
    #[tactic(auto, using(crate::proofs::ListLemmas::joined))]
    pub fn join(&mut self, other: TagList)
        requires { length self.old + length other ≤ 2 ^ 30 }
        ensures after { self.new ≡ self.old ++ other }
    {
        let TagList { mut chain, len } = other;
        self.chain.append(&mut chain);
        self.len += len;
    }

    /// The pair at a place.
    pub fn get(&self, i: u32) -> (Handle, u8)
        requires { i < length self.now }
        ensures value { slice_get self.now i ≡ Some result }
        ensures tagged { IsTagged result }
    {
        self.chain.locate(i as usize).entry.unpack()
    }

    /// Changes the tag of the pair at a place.
    #[tactic(auto, using(crate::proofs::ListLemmas::joined))]
    pub fn set_tag(&mut self, i: u32, t: u8)
        requires place { i < length self.old }
        requires tag { t < 4 }
        ensures after { self.new ≡ with_tag self.old i t }
    {
        let spot = self.chain.locate(i as usize);
        let (handle, _) = spot.entry.unpack();
        self.chain.set(spot, Tagged::pack(handle, t));
    }

    /// Takes the last pair.
    #[tactic(auto, using(crate::proofs::ListLemmas::last_gone))]
    pub fn pop(&mut self) -> Option<(Handle, u8)>
        ensures found { IsSome result ↔ (0 < length self.old) }
        ensures last { IfSome result (λ entry. self.old ≡ self.new ++ entry ∷ []) }
        ensures rest { self.new ≡ take (length self.old - 1) self.old }
        ensures tagged { IfSome result IsTagged }
    {
        let entry = self.chain.pop()?;
        self.len -= 1;
        Some(entry.unpack())
    }

    /// The pairs from either end. All of them together take linear time.
    pub fn iter(&self) -> TagIter<'_>
        ensures pairs { result ≡ self.now }
        ensures tagged { All IsTagged self.now }
        ensures small { length self.now ≤ 2 ^ 30 }

        // What chains of iterators go by.
        ensures runs { GivesInOrder (ℕ × ℕ) }
        ensures runs_back { GivesInReverse (ℕ × ℕ) }
    {
        TagIter::new(self.chain.list.iter())
    }
}
