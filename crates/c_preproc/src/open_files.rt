//! The files that are on their way: one that is read, and within one another those that wait for it. None of
//! them is copied, and nothing here is recursive.
ghost use Rattle.std.specs.Prelude.{◌++◌, ◌∷◌, ◌≡◌, ◌<◌, ◌≤◌, [], List, ℕ, All, IfErr, IfOk, IsErrOf, OnOk};
ghost use Rattle.meaning_outside.specs.Loads.{EachPathIsLoadedOnce, Loaded, loads_since};
ghost use Rattle.meaning_preprocessing.specs.State.{UnitState};
ghost use Rattle.c_tokens.specs.Seen.{Extends};
ghost use Rattle.c_preproc.specs.Loads.{HasLoaded, IsPlace, KeepsLoads, paths_seen};
ghost use Rattle.c_preproc.specs.Opens.{FilesStay, IsCounted, IsIncluded, work_left};
ghost use Rattle.c_preproc.specs.Requests.{IsKnownRequest, request_seen};
ghost use Rattle.c_preproc.specs.Steps.{ArePlaced, IsReadWhole, IsStepped};
ghost use Rattle.c_preproc.specs.States.{Holds, IsHeld, IsKnownFault};

use crate::file::{OpenFile, Read};
use crate::include_line::HeaderRequest;
use crate::kept::Kept;
use crate::pre_fault::PreFault;
use crate::state::State;
use c_directives::{name_of_header, paths_for};
use c_tokens::Names;
use sparse_model::{Bytes, ErrorKind};
use sparse_outside::Files;
use std::alloc::Global;

impl State {
    /// Reads the kept file in this place to its end, with the files that it includes.
    pub(crate) fn read_files<F: Files>(
        &mut self,
        alloc: Global,
        names: &mut Names,
        files: &mut F,
        directories: &[Bytes],
        kept: &mut Kept,
        first: usize,
    ) -> Result<(), PreFault>
        requires held { IsHeld names.old self.old }
        requires kept { (earlier : List Loaded) × KeepsLoads names.old (paths_seen names.old self.old) earlier kept.old }
        requires place { IsPlace kept.old.files.items first }
        ensures read { (earlier : List Loaded) → KeepsLoads names.old (paths_seen names.old self.old) earlier kept.old →
            IsReadWhole names.old names.new self.old self.new (earlier ++ loads_since (F.loads files.old) (F.loads files.new)) kept.old kept.new directories.now first result }
        ensures held { OnOk result (IsHeld names.new self.new) }
        ensures loads { HasLoaded (F.loads files.old) (F.loads files.new) (F.holds files.old) (F.holds files.new) (F.faults files.old) (F.faults files.new) (IsErrOf result PreFault.ReadFault) }
        ensures known { IfErr result (IsKnownFault names.new) }
        ensures keeps { Extends names.old names.new }
    {
        let mut waiting = Vec::new(alloc);
        waiting.push(OpenFile::new(alloc, kept, first))?;
        'files: while let Some(file) = waiting.pop() {
            match self.step(alloc, names, files, directories, kept, &mut waiting, file) {
                Ok(()) => continue 'files,
                Err(fault) => return Err(fault),
            }
        }
        Ok(())
    }

    // Reads the front of what is left of a file, within those that wait for it.
    fn step<F: Files>(
        &mut self,
        alloc: Global,
        names: &mut Names,
        files: &mut F,
        directories: &[Bytes],
        kept: &mut Kept,
        waiting: &mut Vec<OpenFile>,
        file: OpenFile,
    ) -> Result<(), PreFault>
        requires held { IsHeld names.old self.old }
        requires kept { (earlier : List Loaded) × KeepsLoads names.old (paths_seen names.old self.old) earlier kept.old }
        requires placed { ArePlaced kept.old.files.items (waiting.old.items ++ file ∷ []) }
        ensures read { (earlier : List Loaded) → KeepsLoads names.old (paths_seen names.old self.old) earlier kept.old →
            IsStepped names.old names.new self.old self.new (earlier ++ loads_since (F.loads files.old) (F.loads files.new)) kept.old kept.new directories.now
            (waiting.old.items ++ file ∷ []) waiting.new.items result }
        ensures held { OnOk result (IsHeld names.new self.new) }
        ensures placed { OnOk result (ArePlaced kept.new.files.items waiting.new.items) }
        ensures less { OnOk result (work_left self.new kept.new.files.items waiting.new.items < work_left self.old kept.old.files.items (waiting.old.items ++ file ∷ [])) }
        ensures loads { HasLoaded (F.loads files.old) (F.loads files.new) (F.holds files.old) (F.holds files.new) (F.faults files.old) (F.faults files.new) (IsErrOf result PreFault.ReadFault) }
        ensures known { IfErr result (IsKnownFault names.new) }
        ensures keeps { Extends names.old names.new }
    {
        let mut file = file;
        match self.read_part(alloc, names, kept, &mut file) {
            Ok(Read::Part) => {
                file.pass_part(kept);
                waiting.push(file)?;
                Ok(())
            }
            Ok(Read::Include(request)) => {
                waiting.push(file)?;
                let depth = waiting.len();
                match self.include(alloc, names, files, directories, kept, request, depth) {
                    Ok(place) => {
                        waiting.push(OpenFile::new(alloc, kept, place))?;
                        Ok(())
                    }
                    Err(fault) => Err(fault),
                }
            }
            Ok(Read::End) => Ok(()),
            Err(fault) => Err(fault),
        }
    }

    // The place of the file that is asked for, which is read so deep within others.
    fn include<F: Files>(
        &mut self,
        alloc: Global,
        names: &mut Names,
        files: &mut F,
        directories: &[Bytes],
        kept: &mut Kept,
        request: HeaderRequest,
        depth: usize,
    ) -> Result<usize, PreFault>
        requires held { IsHeld names.old self.old }
        requires kept { (earlier : List Loaded) × KeepsLoads names.old (paths_seen names.old self.old) earlier kept.old }
        requires known { IsKnownRequest names.old request }
        ensures included { (main : List ℕ) (s : UnitState) (earlier : List Loaded) → Holds names.old main self.old s → KeepsLoads names.old s.paths earlier kept.old →
            IsIncluded names.new main self.new (earlier ++ loads_since (F.loads files.old) (F.loads files.new)) kept.new directories.now (request_seen names.old request) depth s result }
        ensures deep { OnOk result (depth ≤ 200) }
        ensures counted { IfOk result (IsCounted self.old self.new kept.new) }
        ensures put { self.new.tokens ≡ self.old.tokens }
        ensures stay { FilesStay kept.old.files.items kept.new.files.items }
        ensures loads { HasLoaded (F.loads files.old) (F.loads files.new) (F.holds files.old) (F.holds files.new) (F.faults files.old) (F.faults files.new) (IsErrOf result PreFault.ReadFault) }
        ensures known { IfErr result (IsKnownFault names.new) }
        ensures keeps { Extends names.old names.new }
    {
        let asking = names.spelling(request.asking);
        let paths = paths_for(alloc, names, request.header, asking, directories)?;
        names.apart();
        match kept.search(alloc, files, names, &paths) {
            Ok(Some(source)) => {
                names.apart();
                self.open(alloc, names, kept, source, depth)
            }
            Ok(None) => {
                names.apart();
                let word = name_of_header(names, request.header);
                Err(self.error(names, ErrorKind::IncludeNotFound, request.place, word))
            }
            Err(fault) => Err(fault),
        }
    }
}
