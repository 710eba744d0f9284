// The macros that are defined, by the ids of their names. What they become isn't known here.
ghost use Rattle.std.specs.Prelude.{◌≡◌, ◌≢◌, ◌↔◌, List, ℕ, Some, None, true, IsErrOf, OnOk, OnErr, is_some, option_copied};
ghost use Rattle.sparse_model.specs.declared.ids.NameId.{NameId};
ghost use Rattle.meaning_macros.specs.WellFormed.{IsWellFormed};
ghost use Rattle.c_tokens.specs.Seen.{IsKnown};
ghost use Rattle.c_macros.specs.Redefinition.{defined_as, redefines};
ghost use Rattle.c_macros.specs.Seen.{IsKnownMacro, KnowsAll, by_ids};
ghost use Rattle.c_macros.specs.Table.{macro_at, spelling_of_file};
ghost use Rattle.c_macros.specs.declared.fault.DefineFault.TheVariants.{Redefined, Memory};

use crate::agreement::agrees;
use crate::definition::Macro;
use crate::entry::Entry;
use crate::fault::DefineFault;
use indexmap::IndexMap;
use sparse_model::NameId;
use std::alloc::{AllocError, Global};
use std::marker::Model;

/// The macros that are defined, and how `__FILE__` is spelled in each file. Its value is a finite map
/// from ids of names to macros, and one from numbers of files to spellings.
#[derive(Drop)]
pub struct MacroTable {
    alloc: Global,
    // The hasher has a fixed seed, so names that were chosen to collide cost time, and nothing else.
    entries: IndexMap<NameId, Entry>,
    files: IndexMap<u32, NameId>,
}

impl Model for MacroTable {
    ghost use Rattle.c_macros.specs.Table.{Table};

    ghost Value = { Table };

    ghost view = { λ table. record { macros = table.entries.entries; files = table.files.entries } };
}

impl MacroTable {
    /// The table without a macro. It takes no memory.
    pub fn new(alloc: Global) -> Self
        ensures no_macros { (name : NameId) → macro_at result name ≡ None }
        ensures no_files { (file : ℕ) → spelling_of_file result file ≡ None }
        ensures known { (names : List (List ℕ)) → KnowsAll names result }
    {
        MacroTable {
            alloc,
            entries: IndexMap::new(alloc),
            files: IndexMap::new(alloc),
        }
    }

    /// Defines the name (C11 6.10.3). A name that has a macro which agrees keeps it, with its places.
    pub fn define(&mut self, name: NameId, m: Macro) -> Result<(), DefineFault>
        requires { IsWellFormed (by_ids m) }
        ensures defined { OnOk result (macro_at self.new name ≡ Some (defined_as (macro_at self.old name) m)) }

        // Exactly where the name has a macro that doesn't agree (6.10.3 p1, p2).
        ensures redefined { IsErrOf result Redefined ↔ (redefines (macro_at self.old name) m ≡ true) }

        // Only a new name takes memory.
        ensures memory { IsErrOf result Memory → macro_at self.old name ≡ None }

        ensures others { (other : NameId) → other ≢ name → macro_at self.new other ≡ macro_at self.old other }
        ensures files { self.new.files ≡ self.old.files }
        ensures err { OnErr result (self.new ≡ self.old) }

        // Where the name and the ids of the macro are known, nothing that isn't comes in.
        ensures known { (names : List (List ℕ)) → KnowsAll names self.old → IsKnown names name → IsKnownMacro names m → KnowsAll names self.new }
    {
        if let Some(entry) = self.entries.get(&name) {
            if agrees(entry.definition(), &m) {
                return Ok(());
            }
            return Err(DefineFault::Redefined);
        }
        let entry = Entry::new(self.alloc, m)?;
        self.entries.insert(name, entry)?;
        Ok(())
    }

    /// Drops the macro of the name (6.10.3.5 p2), where there is one. It takes no memory.
    pub fn undef(&mut self, name: NameId) -> bool
        ensures found { result ≡ is_some (macro_at self.old name) }
        ensures dropped { macro_at self.new name ≡ None }
        ensures others { (other : NameId) → other ≢ name → macro_at self.new other ≡ macro_at self.old other }
        ensures files { self.new.files ≡ self.old.files }
        ensures known { (names : List (List ℕ)) → KnowsAll names self.old → KnowsAll names self.new }
    {
        self.entries.swap_remove(&name).is_some()
    }

    /// The macro of the name. It takes no memory.
    pub fn find(&self, name: NameId) -> Option<&Macro>
        ensures { option_copied result ≡ macro_at self.now name }
    {
        match self.entry(name) {
            Some(entry) => Some(entry.definition()),
            None => None,
        }
    }

    /// The macro of the name with its body read.
    pub(crate) fn entry(&self, name: NameId) -> Option<&Entry>
        ensures { option_copied result ≡ macro_at self.now name }
    {
        self.entries.get(&name)
    }

    /// Says how `__FILE__` is spelled in the file of this number (6.10.8.1 p1): as a string literal.
    pub fn set_file(&mut self, file: u32, spelled: NameId) -> Result<(), AllocError>
        ensures spelled { OnOk result (spelling_of_file self.new file ≡ Some spelled) }
        ensures others { (other : ℕ) → other ≢ file → spelling_of_file self.new other ≡ spelling_of_file self.old other }
        ensures macros { self.new.macros ≡ self.old.macros }
        ensures err { OnErr result (self.new ≡ self.old) }
        ensures known { (names : List (List ℕ)) → KnowsAll names self.old → IsKnown names spelled → KnowsAll names self.new }
    {
        self.files.insert(file, spelled)?;
        Ok(())
    }

    /// How `__FILE__` is spelled in the file of this number, where that was said.
    pub(crate) fn file_spelling(&self, file: u32) -> Option<NameId>
        ensures { result ≡ spelling_of_file self.now file }
    {
        self.files.get(&file).copied()
    }
}
