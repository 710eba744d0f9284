//! What stays from one line of a unit to the next, and the errors that tell of it.
ghost use Rattle.std.specs.Prelude.{◌≡◌, List, ℕ, Some};
ghost use Rattle.meaning_preprocessing.specs.State.{UnitState, path_of, refused};
ghost use Rattle.c_tokens.specs.Seen.{IsKnown, at_of, text_of};
ghost use Rattle.c_directives.specs.Groups.{word_seen};
ghost use Rattle.c_preproc.specs.States.{Holds, IsFaultInText, stop_of};

use crate::pre_fault::PreFault;
use c_directives::MadeWords;
use c_macros::{Budget, MacroTable};
use c_tokens::{Names, Token};
use sparse_model::{ErrorKind, NameId, Place};

/// The most tokens that a unit may have.
pub(crate) const MOST_TOKENS: usize = 2_000_000;

/// What an error names whose text names nothing: the empty spelling.
pub(crate) const NO_WORD: NameId = NameId(0);

/// What stays from one line of a unit to the next. The groups that are open are each file's own.
#[derive(Drop)]
pub(crate) struct State {
    pub(crate) made: MadeWords,
    pub(crate) macros: MacroTable,
    pub(crate) budget: Budget,
    /// How many bytes were loaded. A file counts each time it is read.
    pub(crate) bytes: usize,
    /// The paths of the files, each at the number of its file.
    pub(crate) paths: Vec<NameId>,
    /// The identifiers that were left in the lines of `#if` and `#elif`.
    pub(crate) undefined: Vec<Token>,
    /// The tokens of the unit so far.
    pub(crate) tokens: Vec<Token>,
}

impl State {
    /// An error at this place.
    pub(crate) fn error(
        &self,
        names: &Names,
        kind: ErrorKind,
        place: Place,
        word: NameId,
    ) -> PreFault
        ensures stop { (path : List ℕ) (s : UnitState) → Holds names.now path self.now s →
            stop_of names.now result ≡ Some (refused s kind (at_of place) (text_of names.now word)) }
        ensures known { (path : List ℕ) (s : UnitState) → Holds names.now path self.now s → IsKnown names.now word → IsFaultInText names.now result }
    {
        PreFault::Error(kind, place, word, self.path_of(names, place.file))
    }

    /// An error at a directive, of which the text may name a word.
    pub(crate) fn line_error(
        &self,
        names: &Names,
        kind: ErrorKind,
        hash: &Token,
        word: Option<NameId>,
    ) -> PreFault
        ensures stop { (path : List ℕ) (s : UnitState) → Holds names.now path self.now s →
            stop_of names.now result ≡ Some (refused s kind (at_of hash.now.place) (word_seen names.now word)) }
        ensures known { (path : List ℕ) (s : UnitState) → Holds names.now path self.now s → IsFaultInText names.now result }
    {
        self.error(names, kind, hash.place, known_word(names, word))
    }

    // The path of the file with this number, which is empty where there is none.
    pub(crate) fn path_of(&self, names: &Names, file: u32) -> NameId
        ensures path { (path : List ℕ) (s : UnitState) → Holds names.now path self.now s → text_of names.now result ≡ path_of s.paths file }
        ensures known { (path : List ℕ) (s : UnitState) → Holds names.now path self.now s → IsKnown names.now result }
    {
        names.apart();
        match self.paths.get(file as usize) {
            Some(&path) => path,
            None => NO_WORD,
        }
    }
}

// The word that an error's text names. An id that the table hasn't spells nothing.
fn known_word(names: &Names, word: Option<NameId>) -> NameId
    ensures text { text_of names.now result ≡ word_seen names.now word }
    ensures known { IsKnown names.now result }
{
    names.apart();
    let Some(word) = word else {
        return NO_WORD;
    };
    if word.0 as usize >= names.len() {
        return NO_WORD;
    }
    word
}
