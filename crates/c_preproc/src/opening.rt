//! A file that was found begins to be read: the limits of files, its number and its tokens, in this order.
ghost use Rattle.std.specs.Prelude.{◌≡◌, ◌<◌, ◌≤◌, ◌+◌, ◌↔◌, List, ℕ, length, option_map, IfErr, IfOk, IsTrue, OnErr, OnOk};
ghost use Rattle.meaning_outside.specs.Loads.{Loaded};
ghost use Rattle.meaning_preprocessing.specs.State.{UnitState};
ghost use Rattle.meaning_preprocessing.specs.Unit.{stop_of_fault};
ghost use Rattle.c_tokens.specs.Seen.{Extends, IsKnown, fault_of, text_of};
ghost use Rattle.c_preproc.specs.Kept.{bytes_kept};
ghost use Rattle.c_preproc.specs.Loads.{IsNew, IsSource};
ghost use Rattle.c_preproc.specs.Numbers.{IsKeptNow, IsNumberable, IsNumbered, IsPassed, IsReady, IsReadyNew, is_main};
ghost use Rattle.c_preproc.specs.Opens.{FilesStay, IsCounted, IsOpened};
ghost use Rattle.c_preproc.specs.States.{Holds, IsFaultInText, stop_of};

use crate::first_state::tell_file;
use crate::kept::{Kept, KeptFile};
use crate::loads::Source;
use crate::pre_fault::PreFault;
use crate::state::{NO_WORD, State};
use c_directives::part_ends;
use c_tokens::{LexFault, Names, lex};
use sparse_model::{ErrorKind, LimitKind, NameId};
use std::alloc::{AllocError, Global};

/// The most bytes that all files may have together.
const MOST_BYTES_IN_ALL: usize = 67_108_864;

/// How deep files may be included in files.
const MOST_DEPTH: usize = 200;

/// The number of the file that a unit is of.
const MAIN_FILE: u32 = 1;

impl State {
    /// The place of a file that was found, where it is read so deep within others. One with depth 0 is in none.
    pub(crate) fn open(
        &mut self,
        alloc: Global,
        names: &mut Names,
        kept: &mut Kept,
        source: Source,
        depth: usize,
    ) -> Result<usize, PreFault>
        requires found { IsReady names.old self.old kept.old source }
        ensures opened { (main : List ℕ) (s : UnitState) (given : List Loaded) (path : List ℕ) → Holds names.old main self.old s →
            IsSource names.old s.paths given kept.old path source →
            IsOpened names.new main self.new given kept.new path depth s result }
        ensures deep { OnOk result (depth ≤ 200) }
        ensures counted { IfOk result (IsCounted self.old self.new kept.new) }
        ensures put { self.new.tokens ≡ self.old.tokens }
        ensures stay { FilesStay kept.old.files.items kept.new.files.items }
        ensures known { IfErr result (IsFaultInText names.new) }
        ensures keeps { Extends names.old names.new }
    {
        names.apart();
        match source {
            Source::Kept(place) => match self.enter(kept.bytes(place), depth) {
                Ok(()) => Ok(place),
                Err(fault) => Err(fault),
            },
            Source::Loaded { path, text } => match self.enter(text.len(), depth) {
                Ok(()) => self.keep(alloc, names, kept, path, &text),
                Err(fault) => Err(fault),
            },
        }
    }

    // Counts a file of so many bytes, unless it passes a limit.
    fn enter(&mut self, count: usize, depth: usize) -> Result<(), PreFault>
        ensures counted { OnOk result (self.new ≡ record self.old { bytes = self.old.bytes + count }) }
        ensures within { OnOk result ((self.old.bytes + count ≤ 67108864) × (depth ≤ 200)) }
        ensures still { OnErr result (self.new ≡ self.old) }
        ensures limit { IfErr result (IsPassed self.old.bytes count depth) }
    {
        if self.is_too_large(count) {
            return Err(PreFault::Limit(LimitKind::AllFiles));
        }
        if depth > MOST_DEPTH {
            return Err(PreFault::Limit(LimitKind::IncludeDepth));
        }
        self.bytes += count;
        Ok(())
    }

    // With so many further bytes all files are too large.
    fn is_too_large(&self, count: usize) -> bool
        ensures { IsTrue result ↔ (67108864 < self.now.bytes + count) }
    {
        self.bytes.saturating_add(count) > MOST_BYTES_IN_ALL
    }

    // Gives the path of a text a number, and keeps the text's tokens.
    fn keep(
        &mut self,
        alloc: Global,
        names: &mut Names,
        kept: &mut Kept,
        path: NameId,
        text: &Vec<u8>,
    ) -> Result<usize, PreFault>
        requires new { IsReadyNew names.old self.old kept.old path text.now.items }
        ensures kept { (main : List ℕ) (s : UnitState) (given : List Loaded) (asked : List ℕ) → Holds names.old main self.old s →
            IsNew names.old s.paths given kept.old asked path text.now.items →
            IsKeptNow names.new main self.new given kept.new asked text.now.items s result }
        ensures counted { IfOk result (λ place. bytes_kept kept.new.files.items place ≡ length text.now.items) }
        ensures bytes { self.new.bytes ≡ self.old.bytes }
        ensures put { self.new.tokens ≡ self.old.tokens }
        ensures stay { FilesStay kept.old.files.items kept.new.files.items }
        ensures known { IfErr result (IsFaultInText names.new) }
        ensures keeps { Extends names.old names.new }
    {
        names.apart();
        let number = self.number(alloc, names, path)?;
        match lex(alloc, names, number, text.as_slice()) {
            Ok(tokens) => {
                names.apart();
                let bytes = text.len();
                let ends = part_ends(alloc, names, &tokens)?;
                let place = kept.keep_file(KeptFile {
                    bytes,
                    tokens,
                    ends,
                })?;
                kept.keep_path(path, place)?;
                Ok(place)
            }
            Err(fault) => {
                names.apart();
                Err(self.lex_error(names, fault))
            }
        }
    }

    // The number of a path that wasn't read yet. The file that the unit is of has its number from the start.
    fn number(&mut self, alloc: Global, names: &mut Names, path: NameId) -> Result<u32, AllocError>
        requires known { IsKnown names.old path }
        ensures number { (main : List ℕ) (s : UnitState) → Holds names.old main self.old s → IsNumberable names.old main s.paths path →
            IfOk result (IsNumbered names.new main self.new (text_of names.old path) s) }
        ensures bytes { self.new.bytes ≡ self.old.bytes }
        ensures put { self.new.tokens ≡ self.old.tokens }
        ensures keeps { Extends names.old names.new }
    {
        names.apart();
        if self.is_main(path) {
            return Ok(MAIN_FILE);
        }
        let Ok(number) = u32::try_from(self.paths.len()) else {
            return Err(AllocError);
        };
        let spelling = Vec::from_slice(alloc, names.spelling(path))?;
        tell_file(alloc, names, &mut self.macros, number, &spelling)?;
        names.apart();
        self.paths.push(path)?;
        Ok(number)
    }

    fn is_main(&self, path: NameId) -> bool
        ensures { result ≡ is_main self.now path }
    {
        match self.paths.get(1) {
            Some(&main) => main == path,
            None => false,
        }
    }

    // What a unit ends with where a comment or a literal is never closed.
    pub(crate) fn lex_error(&self, names: &Names, fault: LexFault) -> PreFault
        ensures stop { (path : List ℕ) (s : UnitState) → Holds names.now path self.now s →
            stop_of names.now result ≡ option_map (stop_of_fault s) (fault_of fault) }
        ensures known { (path : List ℕ) (s : UnitState) → Holds names.now path self.now s → IsFaultInText names.now result }
    {
        names.apart();
        match fault {
            LexFault::OpenComment(place) => {
                self.error(names, ErrorKind::UnterminatedComment, place, NO_WORD)
            }
            LexFault::OpenLiteral(place) => {
                self.error(names, ErrorKind::UnterminatedLiteral, place, NO_WORD)
            }
            LexFault::Memory => PreFault::Memory,
        }
    }
}
