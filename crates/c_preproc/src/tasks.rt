//! What is left to do at a directive, done: conditions are judged, macros are defined, and errors told.
ghost use Rattle.std.specs.Prelude.{◌≡◌, ◌∷◌, Bool, List, ℕ, Err, Ok, Some, IfErr, IfOk, MatchResult, OnOk};
ghost use Rattle.vocabulary.specs.declared.error_kind.ErrorKind.TheVariants.{ErrorDirective};
ghost use Rattle.meaning_preprocessing.specs.Directives.{define_turn, error_words, undef_turn};
ghost use Rattle.meaning_preprocessing.specs.Groups as conditionals;
ghost use Rattle.meaning_preprocessing.specs.Groups.{Evaluation, Halts, Turn, Turns, evaluated_line, group_of};
ghost use Rattle.meaning_preprocessing.specs.State.{UnitState, refused};
ghost use Rattle.meaning_preprocessing.specs.Unit.{IsEvaluation};
ghost use Rattle.c_tokens.specs.Seen.{Extends, tok_of, toks_of};
ghost use Rattle.c_directives.specs.Conditions.{AreKnown};
ghost use Rattle.c_directives.specs.Directives.{IsDirective, IsKnownTask, LeavesGroups};
ghost use Rattle.c_directives.specs.Groups.{groups_seen, with_part};
ghost use Rattle.c_preproc.specs.Opens.{IsKnownTurned, IsTurnDone};
ghost use Rattle.c_preproc.specs.States.{Holds, IsDone, IsFaultInText, IsHeld};

use crate::include_line::HeaderRequest;
use crate::pre_fault::PreFault;
use crate::state::State;
use c_directives::{
    Group, LineFault, Task, end_elif, intern_words, open_group, turn_define, turn_undef,
};
use c_tokens::{Names, Token};
use sparse_model::ErrorKind;
use std::alloc::Global;

/// What a directive leaves to those who know files.
#[derive(Clone, Copy, Debug, PartialEq, Eq)]
pub(crate) enum Turned {
    Done,
    /// A file is to be read before what follows.
    Include(HeaderRequest),
}

impl State {
    /// Does what is left to do at a directive within these groups, but for the file that an `#include` asks for.
    pub(crate) fn do_task(
        &mut self,
        alloc: Global,
        names: &mut Names,
        groups: &mut Vec<Group>,
        hash: &Token,
        task: Task<'_>,
    ) -> Result<Turned, PreFault>
        requires held { IsHeld names.old self.old }
        requires known { IsKnownTask names.old task }
        ensures done { (value : Evaluation) (path : List ℕ) (s : UnitState) (turn : Turn) (before : List conditionals.Group) → IsEvaluation value → Holds names.old path self.old s →
            IsDirective names.old value s (tok_of names.old hash.now) groups.old.items (Ok task.entry) turn → LeavesGroups before (groups_seen groups.old.items) task.entry →
            IsTurnDone names.new path self.new before groups.new.items result turn }
        ensures asked { IfOk result (IsKnownTurned names.new) }
        ensures put { OnOk result (self.new.tokens ≡ self.old.tokens) }
        ensures bytes { self.new.bytes ≡ self.old.bytes }
        ensures paths { self.new.paths ≡ self.old.paths }
        ensures known { IfErr result (IsFaultInText names.new) }
        ensures keeps { Extends names.old names.new }
    {
        match task {
            Task::Nothing => Ok(Turned::Done),
            Task::If { tokens } => with_nothing_left(self.begin_if(
                alloc, names, groups, hash, &tokens,
            )),
            Task::Elif { tokens } => with_nothing_left(self.begin_part(
                alloc, names, groups, hash, &tokens,
            )),
            Task::Include { line } => match self.turn_include(alloc, names, hash, line) {
                Ok(request) => Ok(Turned::Include(request)),
                Err(fault) => Err(fault),
            },
            Task::Define { line } => with_nothing_left(self.define(alloc, names, hash, line)),
            Task::Undef { line } => with_nothing_left(self.undef(names, hash, line)),
            Task::Error { line } => with_nothing_left(self.tell_error(alloc, names, hash, line)),
        }
    }

    // Begins the group of an `#if`, by what its tokens come to.
    fn begin_if(
        &mut self,
        alloc: Global,
        names: &mut Names,
        groups: &mut Vec<Group>,
        hash: &Token,
        tokens: &Vec<Token>,
    ) -> Result<(), PreFault>
        requires held { IsHeld names.old self.old }
        requires known { AreKnown names.old tokens.now.items }
        ensures done { (value : Evaluation) (path : List ℕ) (s : UnitState) → IsEvaluation value → Holds names.old path self.old s →
            IsDone names.new path self.new groups.new.items result
            (evaluated_line value (tok_of names.old hash.now) (Some (toks_of names.old tokens.now.items)) s
            (λ holds u. Turns (group_of (tok_of names.old hash.now) holds ∷ groups_seen groups.old.items) u)) }
        ensures put { OnOk result (self.new.tokens ≡ self.old.tokens) }
        ensures bytes { self.new.bytes ≡ self.old.bytes }
        ensures paths { self.new.paths ≡ self.old.paths }
        ensures known { IfErr result (IsFaultInText names.new) }
        ensures keeps { Extends names.old names.new }
    {
        match self.judge_line(alloc, names, hash, tokens.as_slice()) {
            Ok(holds) => match open_group(groups, hash, holds) {
                Ok(()) => Ok(()),
                Err(_) => Err(PreFault::Memory),
            },
            Err(fault) => Err(fault),
        }
    }

    // Begins the next part of the innermost group, by what the tokens of its `#elif` come to.
    fn begin_part(
        &mut self,
        alloc: Global,
        names: &mut Names,
        groups: &mut Vec<Group>,
        hash: &Token,
        tokens: &Vec<Token>,
    ) -> Result<(), PreFault>
        requires held { IsHeld names.old self.old }
        requires known { AreKnown names.old tokens.now.items }
        ensures done { (value : Evaluation) (path : List ℕ) (s : UnitState) → IsEvaluation value → Holds names.old path self.old s →
            IsDone names.new path self.new groups.new.items result
            (evaluated_line value (tok_of names.old hash.now) (Some (toks_of names.old tokens.now.items)) s
            (λ holds u. Turns (with_part holds (groups_seen groups.old.items)) u)) }
        ensures put { OnOk result (self.new.tokens ≡ self.old.tokens) }
        ensures bytes { self.new.bytes ≡ self.old.bytes }
        ensures paths { self.new.paths ≡ self.old.paths }
        ensures known { IfErr result (IsFaultInText names.new) }
        ensures keeps { Extends names.old names.new }
    {
        match self.judge_line(alloc, names, hash, tokens.as_slice()) {
            Ok(holds) => match end_elif(groups, holds) {
                Ok(()) => Ok(()),
                Err(_) => Err(PreFault::Memory),
            },
            Err(fault) => Err(fault),
        }
    }

    // `#define`, with the tokens behind it.
    fn define(
        &mut self,
        alloc: Global,
        names: &Names,
        hash: &Token,
        line: &[Token],
    ) -> Result<(), PreFault>
        requires held { IsHeld names.now self.old }
        requires known { AreKnown names.now line.now }
        ensures done { (path : List ℕ) (s : UnitState) (groups : List Group) → Holds names.now path self.old s →
            IsDone names.now path self.new groups result (define_turn (tok_of names.now hash.now) (toks_of names.now line.now) (groups_seen groups) s) }
        ensures put { OnOk result (self.new.tokens ≡ self.old.tokens) }
        ensures bytes { self.new.bytes ≡ self.old.bytes }
        ensures paths { self.new.paths ≡ self.old.paths }
        ensures known { IfErr result (IsFaultInText names.now) }
    {
        match turn_define(alloc, names, self.made, &mut self.macros, line) {
            Ok(()) => Ok(()),
            Err(LineFault::Refused(kind, word)) => Err(self.line_error(names, kind, hash, word)),
            Err(LineFault::Memory) => Err(PreFault::Memory),
        }
    }

    // `#undef`, with the tokens behind it.
    fn undef(&mut self, names: &Names, hash: &Token, line: &[Token]) -> Result<(), PreFault>
        requires held { IsHeld names.now self.old }
        requires known { AreKnown names.now line.now }
        ensures done { (path : List ℕ) (s : UnitState) (groups : List Group) → Holds names.now path self.old s →
            IsDone names.now path self.new groups result (undef_turn (tok_of names.now hash.now) (toks_of names.now line.now) (groups_seen groups) s) }
        ensures put { OnOk result (self.new.tokens ≡ self.old.tokens) }
        ensures bytes { self.new.bytes ≡ self.old.bytes }
        ensures paths { self.new.paths ≡ self.old.paths }
        ensures known { IfErr result (IsFaultInText names.now) }
    {
        match turn_undef(names, &mut self.macros, line) {
            Ok(()) => Ok(()),
            Err(LineFault::Refused(kind, word)) => Err(self.line_error(names, kind, hash, word)),
            Err(LineFault::Memory) => Err(PreFault::Memory),
        }
    }

    // `#error`, with the tokens behind it.
    fn tell_error(
        &mut self,
        alloc: Global,
        names: &mut Names,
        hash: &Token,
        line: &[Token],
    ) -> Result<(), PreFault>
        requires held { IsHeld names.old self.old }
        requires known { AreKnown names.old line.now }
        ensures done { (path : List ℕ) (s : UnitState) (groups : List Group) → Holds names.old path self.old s →
            IsDone names.new path self.new groups result (Halts (refused s ErrorDirective (tok_of names.old hash.now).at (error_words (toks_of names.old line.now)))) }
        ensures put { OnOk result (self.new.tokens ≡ self.old.tokens) }
        ensures bytes { self.new.bytes ≡ self.old.bytes }
        ensures paths { self.new.paths ≡ self.old.paths }
        ensures known { IfErr result (IsFaultInText names.new) }
        ensures keeps { Extends names.old names.new }
    {
        let word = intern_words(alloc, names, line)?;
        names.apart();
        Err(self.error(names, ErrorKind::ErrorDirective, hash.place, word))
    }
}

// What was done leaves nothing.
fn with_nothing_left(done: Result<(), PreFault>) -> Result<Turned, PreFault>
    ensures { MatchResult done (λ _. result ≡ Ok Turned.Done) (λ fault. result ≡ Err fault) }
{
    match done {
        Ok(()) => Ok(Turned::Done),
        Err(fault) => Err(fault),
    }
}
