//! A file that is looked for at paths: among what is kept of the loads so far, and then outside.
ghost use Rattle.std.specs.Prelude.{◌++◌, ◌≡◌, List, ℕ, map, None, IfErr, IfOk, IfSome, IsErrOf};
ghost use Rattle.meaning_outside.specs.Loads.{Loaded, loads_since};
ghost use Rattle.c_tokens.specs.Seen.{Extends, IsKnown, text_of};
ghost use Rattle.c_tokens.specs.Spellings.{AreApart};
ghost use Rattle.c_directives.specs.Headers.{bytes_of};
ghost use Rattle.c_preproc.specs.Kept.{found_at};
ghost use Rattle.c_preproc.specs.Loads.{HasLoaded, IsLooked, IsSearched, IsSmallSource, KeepsLoads};
ghost use Rattle.c_preproc.specs.States.{IsKnownFault};

use crate::kept::{AtPath, Kept};
use crate::pre_fault::PreFault;
use c_tokens::Names;
use sparse_model::{LimitKind, NameId};
use sparse_outside::{Files, Load, load_leaves_buffer, told_map_agrees};
use std::alloc::Global;

/// The most bytes that a file may have.
const MOST_BYTES: usize = 8_388_608;

/// A file that was found.
#[derive(Drop)]
pub(crate) enum Source {
    /// It is kept in this place.
    Kept(usize),
    /// It was loaded just now, from this path.
    Loaded { path: NameId, text: Vec<u8> },
}

impl Kept {
    /// The first of the paths at which there is a file.
    pub(crate) fn search<F: Files>(
        &mut self,
        alloc: Global,
        files: &mut F,
        names: &mut Names,
        paths: &Vec<Vec<u8>>,
    ) -> Result<Option<Source>, PreFault>
        ensures found { (known : List (List ℕ)) (earlier : List Loaded) → KeepsLoads names.old known earlier self.old →
            IsSearched names.new known (earlier ++ loads_since (F.loads files.old) (F.loads files.new)) self.new (map bytes_of paths.now.items) result }
        ensures loads { HasLoaded (F.loads files.old) (F.loads files.new) (F.holds files.old) (F.holds files.new) (F.faults files.old) (F.faults files.new) (IsErrOf result PreFault.ReadFault) }
        ensures small { IfOk result (λ found. IfSome found IsSmallSource) }
        ensures known { (names : List (List ℕ)) → IfErr result (IsKnownFault names) }
        ensures files { self.new.files ≡ self.old.files }
        ensures keeps { Extends names.old names.new }
    {
        let mut left = paths.as_slice();
        'wanted: while let Some((path, others)) = left.split_first() {
            match self.look(alloc, files, names, path.as_slice()) {
                Ok(Some(source)) => return Ok(Some(source)),
                Ok(None) => {
                    left = others;
                    continue 'wanted;
                }
                Err(fault) => return Err(fault),
            }
        }
        Ok(None)
    }

    /// The file at a path.
    pub(crate) fn look<F: Files>(
        &mut self,
        alloc: Global,
        files: &mut F,
        names: &mut Names,
        path: &[u8],
    ) -> Result<Option<Source>, PreFault>
        ensures found { (known : List (List ℕ)) (earlier : List Loaded) → KeepsLoads names.old known earlier self.old →
            IsLooked names.new known (earlier ++ loads_since (F.loads files.old) (F.loads files.new)) self.new path.now result }
        ensures loads { HasLoaded (F.loads files.old) (F.loads files.new) (F.holds files.old) (F.holds files.new) (F.faults files.old) (F.faults files.new) (IsErrOf result PreFault.ReadFault) }
        ensures small { IfOk result (λ found. IfSome found IsSmallSource) }
        ensures known { (names : List (List ℕ)) → IfErr result (IsKnownFault names) }
        ensures files { self.new.files ≡ self.old.files }
        ensures keeps { Extends names.old names.new }
    {
        let id = names.intern(path)?;
        names.apart();
        match self.find(id) {
            Some(AtPath::File(place)) => Ok(Some(Source::Kept(place))),
            Some(AtPath::Nothing) => Ok(None),
            None => self.load(alloc, files, id, path),
        }
    }

    // The file at a path that wasn't loaded yet.
    fn load<F: Files>(
        &mut self,
        alloc: Global,
        files: &mut F,
        id: NameId,
        path: &[u8],
    ) -> Result<Option<Source>, PreFault>
        ensures found { (names : List (List ℕ)) (known : List (List ℕ)) (earlier : List Loaded) → KeepsLoads names known earlier self.old →
            AreApart names → IsKnown names id → text_of names id ≡ path.now → found_at self.old id ≡ None →
            IsLooked names known (earlier ++ loads_since (F.loads files.old) (F.loads files.new)) self.new path.now result }
        ensures loads { HasLoaded (F.loads files.old) (F.loads files.new) (F.holds files.old) (F.holds files.new) (F.faults files.old) (F.faults files.new) (IsErrOf result PreFault.ReadFault) }
        ensures small { IfOk result (λ found. IfSome found IsSmallSource) }
        ensures known { (names : List (List ℕ)) → IfErr result (IsKnownFault names) }
        ensures files { self.new.files ≡ self.old.files }
    {
        told_map_agrees();
        load_leaves_buffer();
        let mut text = Vec::new(alloc);
        match files.load(path, MOST_BYTES, &mut text) {
            Load::Whole => Ok(Some(Source::Loaded { path: id, text })),
            Load::Missing => match self.keep_nothing(id) {
                Ok(()) => Ok(None),
                Err(_) => Err(PreFault::Memory),
            },
            Load::TooLong => Err(PreFault::Limit(LimitKind::FileSize)),
            Load::Failed => Err(PreFault::ReadFault),
            Load::NoMemory => Err(PreFault::Memory),
        }
    }
}
