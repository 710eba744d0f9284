//! One file, part by part: its text is put, and its directives are done. A file that it includes isn't read here.
ghost use Rattle.std.specs.Prelude.{◌≡◌, [], List, ℕ, length, IfErr, IfOk, OnOk};
ghost use Rattle.meaning_preprocessing.specs.Directives.{turn_of};
ghost use Rattle.meaning_preprocessing.specs.Groups.{Evaluation, closed_file};
ghost use Rattle.meaning_preprocessing.specs.State.{UnitState, and_then, tokens_before};
ghost use Rattle.meaning_preprocessing.specs.Unit.{IsEvaluation, Reader, text_piece};
ghost use Rattle.c_tokens.specs.Seen.{Extends, tok_of, toks_of};
ghost use Rattle.c_directives.specs.Conditions.{AreKnown};
ghost use Rattle.c_directives.specs.Groups.{groups_seen};
ghost use Rattle.c_directives.specs.PartEnds.{ArePartEnds};
ghost use Rattle.c_preproc.specs.Files.{IsKnownRead, IsReadEnd, IsReadPart, IsShorter};
ghost use Rattle.c_preproc.specs.Kept.{ends_kept, tokens_kept};
ghost use Rattle.c_preproc.specs.Opens.{IsKnownTurned, IsTurnDone, IsWorthAsMuch, left_of, open_piece};
ghost use Rattle.c_preproc.specs.States.{Holds, IsFaultInText, IsHeld, put_of};

use crate::include_line::HeaderRequest;
use crate::kept::Kept;
use crate::pre_fault::PreFault;
use crate::state::{NO_WORD, State};
use crate::tasks::Turned;
use c_directives::{FilePart, Group, LineFault, are_read, begin_directive, first_part, outermost};
use c_tokens::{Names, Token};
use sparse_model::ErrorKind;
use std::alloc::Global;

/// A kept file of which a front was read.
#[derive(Drop)]
pub(crate) struct OpenFile {
    /// Its place among those that are kept.
    pub(crate) place: usize,
    /// How many of its tokens are left.
    pub(crate) left: usize,
    /// The groups that are open in it.
    pub(crate) groups: Vec<Group>,
}

/// What reading the front of a file came to.
#[derive(Clone, Copy, Debug, PartialEq, Eq)]
pub(crate) enum Read {
    /// A directive was done.
    Part,
    /// A file is to be read before what follows.
    Include(HeaderRequest),
    /// The file is at its end.
    End,
}

impl OpenFile {
    /// The file that is kept in this place, of which nothing was read.
    pub(crate) fn new(alloc: Global, kept: &Kept, place: usize) -> OpenFile
        ensures place { result.place ≡ place }
        ensures left { result.left ≡ length (tokens_kept kept.now.files.items place) }
        ensures groups { result.groups.items ≡ [] }
    {
        OpenFile {
            place,
            left: kept.tokens(place).len(),
            groups: Vec::new(alloc),
        }
    }

    /// Passes what is left of a part that is skipped, where it is known how far that goes.
    pub(crate) fn pass_part(&mut self, kept: &Kept)
        ensures { (names : List (List ℕ)) → ArePartEnds names (tokens_kept kept.now.files.items self.old.place) (ends_kept kept.now.files.items self.old.place) →
            IsWorthAsMuch names kept.now.files.items self.old self.new }
    {
        if are_read(&self.groups) {
            return;
        }
        let Some(end) = kept.end_of_part(self.place, self.left) else {
            return;
        };
        self.left = end;
    }

    // What is left of its tokens.
    fn left<'k>(&self, kept: &'k Kept) -> &'k [Token]
        ensures { result.now ≡ left_of kept.now.files.items self.now }
    {
        let tokens = kept.tokens(self.place);
        let (_read, left) = tokens.split_at(tokens.len().saturating_sub(self.left));
        left
    }
}

impl State {
    /// Reads the text at the front of what is left of a file, and the directive behind it.
    pub(crate) fn read_part(
        &mut self,
        alloc: Global,
        names: &mut Names,
        kept: &Kept,
        file: &mut OpenFile,
    ) -> Result<Read, PreFault>
        requires held { IsHeld names.old self.old }
        requires known { AreKnown names.old (left_of kept.now.files.items file.old) }
        ensures read { (value : Evaluation) (include : Reader) (path : List ℕ) (s : UnitState) → IsEvaluation value → Holds names.old path self.old s →
            IsReadPart names.new value include path self.new kept.now.files.items file.new
            (tokens_before (put_of names.old self.old) (open_piece value include names.old kept.now.files.items file.old s)) result }
        ensures place { file.new.place ≡ file.old.place }
        ensures left { IfOk result (IsShorter (left_of kept.now.files.items file.old) (left_of kept.now.files.items file.new)) }
        ensures asked { IfOk result (IsKnownRead names.new) }
        ensures bytes { self.new.bytes ≡ self.old.bytes }
        ensures paths { self.new.paths ≡ self.old.paths }
        ensures known { IfErr result (IsFaultInText names.new) }
        ensures keeps { Extends names.old names.new }
    {
        let left = file.left(kept);
        match first_part(left) {
            FilePart::LastText { text } => self.end_file(alloc, names, &file.groups, text),
            FilePart::Directive {
                text,
                hash,
                rest,
                behind,
            } => match self.read_text(alloc, names, &file.groups, text) {
                Ok(()) => {
                    file.left = behind.len();
                    match self.turn(alloc, names, &mut file.groups, &hash, rest) {
                        Ok(Turned::Done) => Ok(Read::Part),
                        Ok(Turned::Include(request)) => Ok(Read::Include(request)),
                        Err(fault) => Err(fault),
                    }
                }
                Err(fault) => Err(fault),
            },
        }
    }

    // Reads the last text of a file. No group may be open behind it.
    fn end_file(
        &mut self,
        alloc: Global,
        names: &mut Names,
        groups: &Vec<Group>,
        text: &[Token],
    ) -> Result<Read, PreFault>
        requires held { IsHeld names.old self.old }
        requires known { AreKnown names.old text.now }
        ensures read { (path : List ℕ) (s : UnitState) → Holds names.old path self.old s →
            IsReadEnd names.new path self.new
            (tokens_before (put_of names.old self.old) (and_then (text_piece (groups_seen groups.now.items) (toks_of names.old text.now) s) (λ u. closed_file (groups_seen groups.now.items) u))) result }
        ensures end { IfOk result (λ read. read ≡ Read.End) }
        ensures bytes { self.new.bytes ≡ self.old.bytes }
        ensures paths { self.new.paths ≡ self.old.paths }
        ensures known { IfErr result (IsFaultInText names.new) }
        ensures keeps { Extends names.old names.new }
    {
        match self.read_text(alloc, names, groups, text) {
            Ok(()) => match outermost(groups) {
                Some(place) => {
                    names.apart();
                    Err(self.error(names, ErrorKind::UnterminatedConditional, place, NO_WORD))
                }
                None => Ok(Read::End),
            },
            Err(fault) => Err(fault),
        }
    }

    // Does a directive, by the tokens behind its `#`.
    fn turn(
        &mut self,
        alloc: Global,
        names: &mut Names,
        groups: &mut Vec<Group>,
        hash: &Token,
        rest: &[Token],
    ) -> Result<Turned, PreFault>
        requires held { IsHeld names.old self.old }
        requires known { AreKnown names.old rest.now }
        ensures done { (value : Evaluation) (path : List ℕ) (s : UnitState) → IsEvaluation value → Holds names.old path self.old s →
            IsTurnDone names.new path self.new (groups_seen groups.old.items) groups.new.items result
            (turn_of value (tok_of names.old hash.now) (toks_of names.old rest.now) (groups_seen groups.old.items) s) }
        ensures put { OnOk result (self.new.tokens ≡ self.old.tokens) }
        ensures asked { IfOk result (IsKnownTurned names.new) }
        ensures bytes { self.new.bytes ≡ self.old.bytes }
        ensures paths { self.new.paths ≡ self.old.paths }
        ensures known { IfErr result (IsFaultInText names.new) }
        ensures keeps { Extends names.old names.new }
    {
        match begin_directive(alloc, names, self.made, &self.macros, groups, hash, rest) {
            Ok(task) => self.do_task(alloc, names, groups, hash, task),
            Err(LineFault::Refused(kind, word)) => Err(self.line_error(names, kind, hash, word)),
            Err(LineFault::Memory) => Err(PreFault::Memory),
        }
    }
}
