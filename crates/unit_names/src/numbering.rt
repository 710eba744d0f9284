// A table that takes over the spellings of another one, in the order in which they are asked for.
ghost use Rattle.std.specs.Prelude.{◌≡◌, [], ◌∷◌, All, IfOk, OnOk, Some, map, slice_get};
ghost use Rattle.c_tokens.specs.Seen.{Extends, IsKnown, spellings_of, text_of, toks_of};
ghost use Rattle.c_tokens.specs.Spellings.{with_spelling, with_spellings};
ghost use Rattle.unit_names.specs.Numbering.{AreKept, spelled};

use c_tokens::{Names, Token};
use sparse_model::NameId;
use std::alloc::{AllocError, Global};

/// The new table, and what became of the ids of the other one.
#[derive(Drop)]
pub(crate) struct Numbering {
    pub(crate) table: Names,
    // For each id of the other table that of this one, or 0 where none is kept: it wasn't asked for yet, or spells nothing.
    ids: Vec<NameId>,
}

impl Numbering {
    /// A table with the empty spelling alone.
    pub(crate) fn new(alloc: Global, names: &Names) -> Result<Numbering, AllocError>
        ensures table { IfOk result (λ numbering. numbering.table ≡ [] ∷ []) }
        ensures kept { IfOk result (λ numbering. AreKept names.now numbering.table numbering.ids.items) }
    {
        let table = Names::new(alloc)?;
        let mut ids = Vec::with_capacity(alloc, names.len())?;
        ids.resize(names.len(), NameId(0))?;
        Ok(Numbering { table, ids })
    }

    /// The new id of a spelling of the other table. It is interned once.
    pub(crate) fn number(&mut self, names: &Names, id: NameId) -> Result<NameId, AllocError>
        requires known { IsKnown names.now id }
        requires were_kept { AreKept names.now self.old.table self.old.ids.items }
        ensures stands { IfOk result (λ new. slice_get self.new.table new.0 ≡ Some (text_of names.now id)) }
        ensures known { IfOk result (IsKnown self.new.table) }
        ensures table { OnOk result (self.new.table ≡ with_spelling self.old.table (text_of names.now id)) }
        ensures keeps { Extends self.old.table self.new.table }
        ensures kept { AreKept names.now self.new.table self.new.ids.items }
    {
        let place = id.0 as usize;
        let kept = self.ids[place];
        if kept.0 != 0 {
            return Ok(kept);
        }
        let new = self.table.intern(names.spelling(id))?;
        self.ids[place] = new;
        Ok(new)
    }

    /// Tokens with their new ids.
    pub(crate) fn tokens(
        &mut self,
        alloc: Global,
        names: &Names,
        tokens: &[Token],
    ) -> Result<Vec<Token>, AllocError>
        requires known { All (λ token. IsKnown names.now token.name) tokens.now }
        requires were_kept { AreKept names.now self.old.table self.old.ids.items }
        ensures seen { IfOk result (λ list. toks_of self.new.table list.items ≡ toks_of names.now tokens.now) }
        ensures known { IfOk result (λ list. All (λ token. IsKnown self.new.table token.name) list.items) }
        ensures table { OnOk result (self.new.table ≡ with_spellings self.old.table (spellings_of (toks_of names.now tokens.now))) }
        ensures keeps { Extends self.old.table self.new.table }
        ensures kept { AreKept names.now self.new.table self.new.ids.items }
    {
        let mut list = Vec::with_capacity(alloc, tokens.len())?;
        for token in tokens {
            let name = self.number(names, token.name)?;
            list.push(Token { name, ..*token })?;
        }
        Ok(list)
    }

    /// The new ids of paths.
    pub(crate) fn paths(
        &mut self,
        alloc: Global,
        names: &Names,
        paths: &[NameId],
    ) -> Result<Vec<NameId>, AllocError>
        requires known { All (IsKnown names.now) paths.now }
        requires were_kept { AreKept names.now self.old.table self.old.ids.items }
        ensures seen { IfOk result (λ list. spelled self.new.table list.items ≡ spelled names.now paths.now) }
        ensures known { IfOk result (λ list. All (IsKnown self.new.table) list.items) }
        ensures table { OnOk result (self.new.table ≡ with_spellings self.old.table (spelled names.now paths.now)) }
        ensures keeps { Extends self.old.table self.new.table }
        ensures kept { AreKept names.now self.new.table self.new.ids.items }
    {
        let mut list = Vec::with_capacity(alloc, paths.len())?;
        for &path in paths {
            list.push(self.number(names, path)?)?;
        }
        Ok(list)
    }

    /// The new table.
    pub(crate) fn into_table(self) -> Names
        ensures { result ≡ self.table }
    {
        let Numbering { table, ids: _ } = self;
        table
    }
}
