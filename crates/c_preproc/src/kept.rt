//! What loads gave, by the paths of their files: the tokens of each file, or that there is none. No path is
//! loaded twice.
ghost use Rattle.std.specs.Prelude.{◌≡◌, ◌≢◌, ◌++◌, ◌∷◌, [], List, ℕ, length, nat_eq, None, Some, IfOk, OnOk, OnErr};
ghost use Rattle.std.specs.Map.{lookup};
ghost use Rattle.sparse_model.specs.declared.ids.NameId.{NameId};
ghost use Rattle.c_preproc.specs.Kept.{bytes_kept, ends_kept, found_at, tokens_kept};

use c_tokens::Token;
use indexmap::IndexMap;
use sparse_model::NameId;
use std::alloc::{AllocError, Global};

/// What a load of a path gave.
#[derive(Clone, Copy, Debug, PartialEq, Eq)]
pub(crate) enum AtPath {
    Nothing,
    /// The file that is kept in this place.
    File(usize),
}

/// A file that was read.
#[derive(Drop)]
pub(crate) struct KeptFile {
    /// How many bytes it has.
    pub(crate) bytes: usize,
    pub(crate) tokens: Vec<Token>,
    /// Where the parts of its groups end.
    pub(crate) ends: IndexMap<usize, usize>,
}

/// What the loads of a unit gave.
#[derive(Drop)]
pub(crate) struct Kept {
    pub(crate) files: Vec<KeptFile>,
    pub(crate) paths: IndexMap<NameId, AtPath>,
}

impl Kept {
    /// Nothing was loaded.
    pub(crate) fn new(alloc: Global) -> Kept
        ensures files { result.files.items ≡ [] }
        ensures paths { (path : NameId) → found_at result path ≡ None }
    {
        Kept {
            files: Vec::new(alloc),
            paths: IndexMap::new(alloc),
        }
    }

    /// What a load of the path gave, if there was one.
    pub(crate) fn find(&self, path: NameId) -> Option<AtPath>
        ensures { result ≡ found_at self.now path }
    {
        self.paths.get(&path).copied()
    }

    /// The path has no file.
    pub(crate) fn keep_nothing(&mut self, path: NameId) -> Result<(), AllocError>
        ensures there { OnOk result (found_at self.new path ≡ Some AtPath.Nothing) }
        ensures others { OnOk result ((other : NameId) → other ≢ path → found_at self.new other ≡ found_at self.old other) }
        ensures files { self.new.files ≡ self.old.files }
    {
        self.paths.insert(path, AtPath::Nothing)?;
        Ok(())
    }

    /// Keeps a file, and tells its place.
    pub(crate) fn keep_file(&mut self, file: KeptFile) -> Result<usize, AllocError>
        ensures place { IfOk result (λ place. place ≡ length self.old.files.items) }
        ensures files { OnOk result (self.new.files.items ≡ self.old.files.items ++ file ∷ []) }
        ensures refused { OnErr result (self.new.files.items ≡ self.old.files.items) }
        ensures paths { self.new.paths ≡ self.old.paths }
    {
        let place = self.files.len();
        self.files.push(file)?;
        Ok(place)
    }

    /// The path has the file in this place.
    pub(crate) fn keep_path(&mut self, path: NameId, place: usize) -> Result<(), AllocError>
        ensures there { OnOk result (found_at self.new path ≡ Some (AtPath.File place)) }
        ensures others { OnOk result ((other : NameId) → other ≢ path → found_at self.new other ≡ found_at self.old other) }
        ensures files { self.new.files ≡ self.old.files }
    {
        self.paths.insert(path, AtPath::File(place))?;
        Ok(())
    }

    /// The tokens of the file in this place.
    pub(crate) fn tokens(&self, place: usize) -> &[Token]
        ensures { result.now ≡ tokens_kept self.now.files.items place }
    {
        match self.files.get(place) {
            Some(file) => file.tokens.as_slice(),
            None => &[],
        }
    }

    /// How many bytes the file in this place has.
    pub(crate) fn bytes(&self, place: usize) -> usize
        ensures { result ≡ bytes_kept self.now.files.items place }
    {
        match self.files.get(place) {
            Some(file) => file.bytes,
            None => 0,
        }
    }

    /// How many tokens of the file in this place are left where the part ends behind whose first line so many are.
    pub(crate) fn end_of_part(&self, place: usize, left: usize) -> Option<usize>
        ensures { result ≡ lookup (nat_eq left) (ends_kept self.now.files.items place) }
    {
        match self.files.get(place) {
            Some(file) => file.ends.get(&left).copied(),
            None => None,
        }
    }
}
