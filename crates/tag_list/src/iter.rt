// The walk over a list of tagged handles, from both ends.
use crate::chain::Few;
use crate::tagged::{Handle, Tagged};
use std::collections::linked_list;
use std::marker::Model;

/// What is left of a list of tagged handles.
#[derive(Drop)]
pub struct TagIter<'a> {
    // What is left of the vector that the walk from the front has begun, and of the one from the back.
    front: &'a [Tagged],
    middle: linked_list::Iter<'a, Few>,
    back: &'a [Tagged],
}

impl<'a> Model for TagIter<'a> {
    ghost use Rattle.std.specs.Prelude.{List, ℕ, ◌++◌};
    ghost use Rattle.tag_list.specs.Chain.{AllFilled, entries};

    ghost Value = { List (ℕ × ℕ) };

    ghost view = { λ rest. rest.front.now ++ (entries rest.middle ++ rest.back.now) };

    ghost invariant = { λ rest. AllFilled rest.middle };
}

impl<'a> TagIter<'a> {
    ghost use Rattle.std.specs.Prelude.{◌≡◌};
    ghost use Rattle.tag_list.specs.Chain.{AllFilled, entries};

    pub(crate) fn new(chain: linked_list::Iter<'a, Few>) -> TagIter<'a>
        requires { AllFilled chain }
        ensures { result ≡ entries chain.entry }
    {
        TagIter {
            front: &[],
            middle: chain,
            back: &[],
        }
    }
}

impl<'a> Iterator for TagIter<'a> {
    ghost use Rattle.std.specs.Iterator.{YieldsFirst, item_count};

    type Item = (Handle, u8);

    ghost next_gives = { YieldsFirst (λ rest. rest) };

    ghost remaining = { item_count (λ rest. rest) };

    fn next(&mut self) -> Option<(Handle, u8)> {
        if let Some((first, others)) = self.front.split_first() {
            self.front = others;
            return Some(first.unpack());
        }
        if let Some(few) = self.middle.next() {
            // No vector of the chain is empty.
            let (first, others) = few.as_slice().split_first().unwrap();
            self.front = others;
            return Some(first.unpack());
        }
        let (first, others) = self.back.split_first()?;
        self.back = others;
        Some(first.unpack())
    }
}

impl<'a> DoubleEndedIterator for TagIter<'a> {
    ghost use Rattle.std.specs.Iterator.{YieldsLast};

    ghost next_back_gives = { YieldsLast (λ rest. rest) };

    #[tactic(auto, using(crate::proofs::ListLemmas::last_of))]
    fn next_back(&mut self) -> Option<(Handle, u8)> {
        if let Some((last, others)) = self.back.split_last() {
            self.back = others;
            return Some(last.unpack());
        }
        if let Some(few) = self.middle.next_back() {
            // No vector of the chain is empty.
            let (last, others) = few.as_slice().split_last().unwrap();
            self.back = others;
            return Some(last.unpack());
        }
        let (last, others) = self.front.split_last()?;
        self.front = others;
        Some(last.unpack())
    }
}
