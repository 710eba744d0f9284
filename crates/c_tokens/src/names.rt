// Spellings in, ids out, and back. What a spelling means isn't known here.
ghost use Rattle.std.specs.Prelude.{◌≡◌, ◌^◌, ◌<◌, ◌≤◌, [], ◌∷◌, length, slice_get, IsTrue, IsOk, IfOk, IfSome, OnOk, OnErr};

use indexmap::IndexSet;
use sparse_model::NameId;
use std::alloc::{AllocError, Global};
use std::marker::Model;

/// How many spellings a table may hold.
const MAX_SPELLINGS: usize = 1 << 30;

/// How many ids are remembered.
const RECENT: usize = 512;

/// The table of spellings. Its value is the list of them, each at the number of its id.
#[derive(Drop)]
pub struct Names {
    alloc: Global,
    // Its hasher has a fixed seed, so texts that were chosen to collide cost time, and nothing else.
    set: IndexSet<Vec<u8>>,
    // For each slot the id that a spelling of it had last. It saves look-ups, and is never relied on.
    recent: [NameId; RECENT],
}

impl Model for Names {
    ghost use Rattle.std.specs.Prelude.{List, ℕ};

    ghost Value = { List (List ℕ) };

    ghost use Rattle.c_tokens.specs.Table.{spellings, IsTable};

    ghost view = { spellings };

    ghost invariant = { IsTable };
}

impl Names {
    ghost use Rattle.c_tokens.specs.Seen.{Extends, IsKnown, text_of};
    ghost use Rattle.c_tokens.specs.Spellings.{AreApart, is_among, with_spelling};

    /// A table with the empty spelling alone.
    pub fn new(alloc: Global) -> Result<Names, AllocError>
        ensures { IfOk result (λ names. names ≡ [] ∷ []) }
    {
        let mut set = IndexSet::new(alloc);
        set.insert(Vec::new(alloc))?;
        Ok(Names {
            alloc,
            set,
            recent: [NameId(0); RECENT],
        })
    }

    /// The id of a spelling, which joins the table if it is new. A table of 2^30 spellings takes no
    /// further one.
    pub fn intern(&mut self, text: &[u8]) -> Result<NameId, AllocError>
        ensures stands { IfOk result (λ id. slice_get self.new id.0 ≡ Some text.now) }
        ensures table { OnOk result (self.new ≡ with_spelling self.old text.now) }
        ensures known { IfOk result (IsKnown self.new) }
        ensures bound { length self.new ≤ 2 ^ 30 }

        // A spelling that stands in the table takes no memory.
        ensures again { IsTrue (is_among text.now self.old) → IsOk result }

        ensures keeps { Extends self.old self.new }
        ensures err { OnErr result (self.new ≡ self.old) }
    {
        let slot = slot_of(text);
        if let Some(id) = self.recent_of(slot, text) {
            return Ok(id);
        }
        let id = self.look_up(text)?;
        self.recent[slot] = id;
        Ok(id)
    }

    // The id that is remembered in the slot, if it is that of the text.
    fn recent_of(&self, slot: usize, text: &[u8]) -> Option<NameId>
        requires { slot < 512 }
        ensures stands { IfSome result (λ id. slice_get self.now id.0 ≡ Some text.now) }
        ensures bound { length self.now ≤ 2 ^ 30 }
    {
        let id = self.recent[slot];
        if id.0 as usize >= self.set.len() {
            return None;
        }
        if self.spelling(id) == text {
            Some(id)
        } else {
            None
        }
    }

    // The id of a spelling by the set, which it joins if it is new.
    #[inline(never)]
    fn look_up(&mut self, text: &[u8]) -> Result<NameId, AllocError>
        ensures stands { IfOk result (λ id. slice_get self.new id.0 ≡ Some text.now) }
        ensures table { OnOk result (self.new ≡ with_spelling self.old text.now) }
        ensures known { IfOk result (IsKnown self.new) }
        ensures bound { length self.new ≤ 2 ^ 30 }
        ensures again { IsTrue (is_among text.now self.old) → IsOk result }
        ensures keeps { Extends self.old self.new }
        ensures err { OnErr result (self.new ≡ self.old) }
    {
        if let Some(index) = self.set.get_index_of(text) {
            return Ok(NameId(index as u32));
        }
        let index = self.set.len();
        if index >= MAX_SPELLINGS {
            return Err(AllocError);
        }
        let spelling = Vec::from_slice(self.alloc, text)?;
        self.set.insert(spelling)?;
        Ok(NameId(index as u32))
    }

    /// How many spellings it holds, at most 2^30: the ids are the numbers below.
    pub fn len(&self) -> usize
        ensures count { result ≡ length self.now }
        ensures bound { length self.now ≤ 2 ^ 30 }
    {
        self.set.len()
    }

    /// The spelling of an id that this table gave.
    pub fn spelling(&self, id: NameId) -> &[u8]
        requires { IsKnown self.now id }
        ensures stands { slice_get self.now id.0 ≡ Some result.now }
        ensures seen { result.now ≡ text_of self.now id }
    {
        self.set.as_slice()[id.0 as usize].as_slice()
    }

    /// Equal ids stand exactly for equal spellings, and number 0 is the empty one.
    pub fn apart(&self)
        ensures apart { AreApart self.now }
        ensures empty { slice_get self.now 0 ≡ Some [] }
    {
        let _set = self.set.as_slice();
    }
}

// Where the id of a text is remembered.
fn slot_of(text: &[u8]) -> usize
    ensures { result < 512 }
{
    let Some((&first, rest)) = text.split_first() else {
        return 0;
    };
    let last = rest.last().copied().unwrap_or(first);
    (first as usize + 2 * last as usize + 64 * (rest.len() % 8)) % RECENT
}
