//! The texts that a unit begins with: `<command>`, which is loaded from nowhere, and behind it the file that it is of.
ghost use Rattle.std.specs.Prelude.{◌++◌, ◌≡◌, ◌<◌, ◌^◌, List, ℕ, [], drop, length, IfErr, IfSome, IsErrOf, OnOk};
ghost use Rattle.meaning_outside.specs.Loads.{Loaded, loads_since};
ghost use Rattle.meaning_preprocessing.specs.State.{UnitState, refused};
ghost use Rattle.meaning_text.specs.Places.{main_file, start_of};
ghost use Rattle.vocabulary.specs.declared.error_kind.ErrorKind.TheVariants.{NoSuchFile};
ghost use Rattle.c_tokens.specs.Seen.{Extends};
ghost use Rattle.c_preproc.specs.Begins.{IsReadCommand, IsReadMain};
ghost use Rattle.c_preproc.specs.Loads.{HasLoaded, IsFresh, KeepsLoads, paths_seen};
ghost use Rattle.c_preproc.specs.States.{Holds, IsFaultInText, IsHeld, IsKnownFault, stop_of};

use crate::kept::{Kept, KeptFile};
use crate::pre_fault::PreFault;
use crate::state::State;
use c_directives::part_ends;
use c_tokens::{Names, lex};
use sparse_model::{Bytes, ErrorKind, Place};
use sparse_outside::Files;
use std::alloc::Global;

const START: Place = Place {
    file: 1,
    line: 1,
    column: 1,
};

/// The number of the file `<command>`.
const COMMAND: u32 = 0;

impl State {
    /// Reads the text of `<command>` to its end, with the files that it includes.
    pub(crate) fn read_command<F: Files>(
        &mut self,
        alloc: Global,
        names: &mut Names,
        files: &mut F,
        directories: &[Bytes],
        kept: &mut Kept,
        text: &[u8],
    ) -> Result<(), PreFault>
        requires held { IsHeld names.old self.old }
        requires fresh { IsFresh kept.old }
        requires paths { drop 1 (paths_seen names.old self.old) ≡ [] }
        requires few { length text.now < 2 ^ 30 }
        ensures read { IsReadCommand names.old names.new self.old self.new (loads_since (F.loads files.old) (F.loads files.new)) kept.new directories.now text.now result }
        ensures held { OnOk result (IsHeld names.new self.new) }
        ensures loads { HasLoaded (F.loads files.old) (F.loads files.new) (F.holds files.old) (F.holds files.new) (F.faults files.old) (F.faults files.new) (IsErrOf result PreFault.ReadFault) }
        ensures known { IfErr result (IsKnownFault names.new) }
        ensures keeps { Extends names.old names.new }
    {
        match lex(alloc, names, COMMAND, text) {
            Ok(tokens) => {
                names.apart();
                let bytes = text.len();
                let ends = part_ends(alloc, names, &tokens)?;
                let place = kept.keep_file(KeptFile {
                    bytes,
                    tokens,
                    ends,
                })?;
                self.read_files(alloc, names, files, directories, kept, place)
            }
            Err(fault) => {
                names.apart();
                Err(self.lex_error(names, fault))
            }
        }
    }

    /// Looks for the file at its path, and reads it to its end with those that it includes.
    pub(crate) fn read_main<F: Files>(
        &mut self,
        alloc: Global,
        names: &mut Names,
        files: &mut F,
        directories: &[Bytes],
        kept: &mut Kept,
        path: &[u8],
    ) -> Result<(), PreFault>
        requires held { IsHeld names.old self.old }
        requires kept { (earlier : List Loaded) × KeepsLoads names.old (paths_seen names.old self.old) earlier kept.old }
        ensures read { (earlier : List Loaded) → KeepsLoads names.old (paths_seen names.old self.old) earlier kept.old →
            IsReadMain names.old names.new self.old self.new (earlier ++ loads_since (F.loads files.old) (F.loads files.new)) directories.now path.now result }
        ensures held { OnOk result (IsHeld names.new self.new) }
        ensures loads { HasLoaded (F.loads files.old) (F.loads files.new) (F.holds files.old) (F.holds files.new) (F.faults files.old) (F.faults files.new) (IsErrOf result PreFault.ReadFault) }
        ensures known { IfErr result (IsKnownFault names.new) }
        ensures keeps { Extends names.old names.new }
    {
        match kept.look(alloc, files, names, path) {
            Ok(Some(source)) => {
                names.apart();
                match self.open(alloc, names, kept, source, 0) {
                    Ok(place) => self.read_files(alloc, names, files, directories, kept, place),
                    Err(fault) => Err(fault),
                }
            }
            Ok(None) => {
                names.apart();
                Err(self.missing(names, path))
            }
            Err(fault) => Err(fault),
        }
    }

    // The error of a file that isn't there.
    fn missing(&self, names: &mut Names, path: &[u8]) -> PreFault
        requires held { IsHeld names.old self.now }
        ensures told { (main : List ℕ) (s : UnitState) → Holds names.old main self.now s → IfSome (stop_of names.new result) (λ stop. stop ≡ refused s NoSuchFile (start_of main_file) path.now) }
        ensures known { IsFaultInText names.new result }
        ensures keeps { Extends names.old names.new }
    {
        match names.intern(path) {
            Ok(word) => {
                names.apart();
                self.error(names, ErrorKind::NoSuchFile, START, word)
            }
            Err(_) => PreFault::Memory,
        }
    }
}
