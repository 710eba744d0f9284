//! Tokens of a file with their macros replaced: text, which is put, and the lines of conditions, which are judged.
ghost use Rattle.std.specs.Prelude.{◌≡◌, ◌<◌, ◌+◌, ◌^◌, ◌↔◌, Bool, List, ℕ, length, Some, IfErr, IfOk, IfSome, IsTrue, OnErr, OnOk};
ghost use Rattle.meaning_preprocessing.specs.Groups.{Evaluation, Turn, evaluated_line};
ghost use Rattle.meaning_preprocessing.specs.State.{Piece, UnitState, and_then, expanded_in, tokens_before};
ghost use Rattle.meaning_preprocessing.specs.Unit.{IsEvaluation, text_piece};
ghost use Rattle.c_tokens.specs.Seen.{Extends, tok_of, toks_of};
ghost use Rattle.c_directives.specs.Conditions.{AreKnown};
ghost use Rattle.c_directives.specs.Groups.{groups_seen};
ghost use Rattle.c_preproc.specs.States.{EndsUnit, GoesOn, Holds, IsFaultInText, IsHeld, put_of, stop_of};
ghost use Rattle.c_preproc.specs.Texts.{IsExpanded, IsJudgedLine, StopsBehind, StopsExpansion, before_in};

use crate::judged::condition_holds;
use crate::pre_fault::PreFault;
use crate::state::{MOST_TOKENS, NO_WORD, State};
use c_directives::{Group, LineFault, are_read, keep_undefined};
use c_macros::{Budget, ExpandFault, expand};
use c_tokens::{Names, Token};
use sparse_model::{ErrorKind, LimitKind};
use std::alloc::Global;

/// The most tokens that a condition may become.
const MOST_LINE_TOKENS: usize = 1 << 30;

impl State {
    /// Replaces the macros of a text within these groups, and puts what it becomes, where it is read.
    pub(crate) fn read_text(
        &mut self,
        alloc: Global,
        names: &mut Names,
        groups: &Vec<Group>,
        text: &[Token],
    ) -> Result<(), PreFault>
        requires held { IsHeld names.old self.old }
        requires known { AreKnown names.old text.now }
        ensures goes { (path : List ℕ) (s : UnitState) (next : UnitState → Piece) → Holds names.old path self.old s →
            OnOk result (GoesOn names.new path self.new
            (tokens_before (put_of names.old self.old) (and_then (text_piece (groups_seen groups.now.items) (toks_of names.old text.now) s) next)) next) }
        ensures ends { (path : List ℕ) (s : UnitState) (next : UnitState → Piece) → Holds names.old path self.old s →
            IfErr result (EndsUnit names.new
            (tokens_before (put_of names.old self.old) (and_then (text_piece (groups_seen groups.now.items) (toks_of names.old text.now) s) next))) }
        ensures bytes { self.new.bytes ≡ self.old.bytes }
        ensures paths { self.new.paths ≡ self.old.paths }
        ensures known { IfErr result (IsFaultInText names.new) }
        ensures keeps { Extends names.old names.new }
    {
        if are_read(groups) {
            return self.put_text(alloc, names, text);
        }
        Ok(())
    }

    // Replaces the macros of a text, and puts what it becomes.
    fn put_text(&mut self, alloc: Global, names: &mut Names, text: &[Token]) -> Result<(), PreFault>
        requires held { IsHeld names.old self.old }
        requires known { AreKnown names.old text.now }
        ensures goes { (path : List ℕ) (s : UnitState) (next : UnitState → Piece) → Holds names.old path self.old s →
            OnOk result (GoesOn names.new path self.new
            (tokens_before (put_of names.old self.old) (and_then (expanded_in s (toks_of names.old text.now)) next)) next) }
        ensures ends { (path : List ℕ) (s : UnitState) (next : UnitState → Piece) → Holds names.old path self.old s →
            IfErr result (EndsUnit names.new
            (tokens_before (put_of names.old self.old) (and_then (expanded_in s (toks_of names.old text.now)) next))) }
        ensures bytes { self.new.bytes ≡ self.old.bytes }
        ensures paths { self.new.paths ≡ self.old.paths }
        ensures known { IfErr result (IsFaultInText names.new) }
        ensures keeps { Extends names.old names.new }
    {
        match self.expanded(alloc, names, text) {
            Ok(made) => self.put(&made),
            Err(fault) => Err(self.text_fault(names, fault)),
        }
    }

    // What the unit ends with where the expansion of a text breaks off.
    fn text_fault(&self, names: &Names, fault: ExpandFault) -> PreFault
        ensures ends { (path : List ℕ) (s : UnitState) (piece : Piece) (next : UnitState → Piece) → Holds names.now path self.now s → StopsExpansion s piece fault →
            EndsUnit names.now (tokens_before (put_of names.now self.now) (and_then piece next)) result }
        ensures known { (path : List ℕ) (s : UnitState) → Holds names.now path self.now s → IsFaultInText names.now result }
    {
        if self.is_beyond(before(fault)) {
            return PreFault::Limit(LimitKind::UnitTokens);
        }
        self.fault_of(names, fault)
    }

    // The tokens with their macros replaced, which takes from the budget.
    pub(crate) fn expanded(
        &mut self,
        alloc: Global,
        names: &mut Names,
        tokens: &[Token],
    ) -> Result<Vec<Token>, ExpandFault>
        requires held { IsHeld names.old self.old }
        requires known { AreKnown names.old tokens.now }
        ensures done { (path : List ℕ) (s : UnitState) → Holds names.old path self.old s →
            IfOk result (λ made. IsExpanded names.new path self.new (expanded_in s (toks_of names.old tokens.now)) made.items) }
        ensures stops { (path : List ℕ) (s : UnitState) → Holds names.old path self.old s →
            IfErr result (StopsExpansion s (expanded_in s (toks_of names.old tokens.now))) }
        ensures still { (path : List ℕ) (s : UnitState) → Holds names.old path self.old s → OnErr result (Holds names.new path self.new s) }
        ensures put { self.new.tokens ≡ self.old.tokens }
        ensures bytes { self.new.bytes ≡ self.old.bytes }
        ensures paths { self.new.paths ≡ self.old.paths }
        ensures made { IfOk result (λ made. AreKnown names.new made.items) }
        ensures keeps { Extends names.old names.new }
    {
        let mut budget = self.budget;
        names.apart();
        match expand(alloc, &self.macros, names, tokens, &mut budget) {
            Ok(made) => {
                names.apart();
                if leaves_room(budget) {
                    self.budget = budget;
                    return Ok(made);
                }
                // No expansion leaves more than it was given, so this never comes.
                Err(ExpandFault::Memory)
            }
            Err(fault) => {
                names.apart();
                Err(fault)
            }
        }
    }

    // Puts tokens, unless they are too many.
    fn put(&mut self, made: &Vec<Token>) -> Result<(), PreFault>
        ensures goes { (names : List (List ℕ)) (path : List ℕ) (s : UnitState) (next : UnitState → Piece) → Holds names path self.old s → AreKnown names made.now.items →
            OnOk result (GoesOn names path self.new (tokens_before (put_of names self.old) (tokens_before (toks_of names made.now.items) (next s))) next) }
        ensures ends { (names : List (List ℕ)) (path : List ℕ) (s : UnitState) (next : UnitState → Piece) → Holds names path self.old s →
            IfErr result (EndsUnit names (tokens_before (put_of names self.old) (tokens_before (toks_of names made.now.items) (next s)))) }
        ensures bytes { self.new.bytes ≡ self.old.bytes }
        ensures paths { self.new.paths ≡ self.old.paths }
        ensures known { (names : List (List ℕ)) → IfErr result (IsFaultInText names) }
    {
        if self.is_beyond(made.len()) {
            return Err(PreFault::Limit(LimitKind::UnitTokens));
        }
        self.tokens.extend_from_slice(made.as_slice())?;
        Ok(())
    }

    // So many further tokens are too many.
    fn is_beyond(&self, count: usize) -> bool
        ensures { IsTrue result ↔ (2000000 < length self.now.tokens.items + count) }
    {
        self.tokens.len().saturating_add(count) > MOST_TOKENS
    }

    // What the unit ends with where an expansion breaks off.
    pub(crate) fn fault_of(&self, names: &Names, fault: ExpandFault) -> PreFault
        ensures stops { (path : List ℕ) (s : UnitState) (piece : Piece) → Holds names.now path self.now s → StopsExpansion s piece fault →
            IfSome (stop_of names.now result) (StopsBehind piece (before_in fault)) }
        ensures known { (path : List ℕ) (s : UnitState) → Holds names.now path self.now s → IsFaultInText names.now result }
    {
        names.apart();
        match fault {
            ExpandFault::Arguments { place, before: _ } => {
                self.error(
                    names,
                    ErrorKind::WrongNumberOfMacroArguments,
                    place,
                    NO_WORD,
                )
            }
            ExpandFault::OpenCall { place, before: _ } => {
                self.error(names, ErrorKind::UnterminatedMacroCall, place, NO_WORD)
            }
            ExpandFault::BadPaste { place, before: _ } => {
                self.error(names, ErrorKind::BadPaste, place, NO_WORD)
            }
            ExpandFault::Limit { limit, before: _ } => PreFault::Limit(limit),
            ExpandFault::Memory => PreFault::Memory,
        }
    }

    /// Whether a condition holds, of which each `defined` is answered. The identifiers that are left in it are
    /// kept.
    pub(crate) fn judge_line(
        &mut self,
        alloc: Global,
        names: &mut Names,
        hash: &Token,
        line: &[Token],
    ) -> Result<bool, PreFault>
        requires held { IsHeld names.old self.old }
        requires known { AreKnown names.old line.now }
        ensures judged { (value : Evaluation) (path : List ℕ) (s : UnitState) (next : Bool → UnitState → Turn) → IsEvaluation value → Holds names.old path self.old s →
            IsJudgedLine names.new path self.new next result (evaluated_line value (tok_of names.old hash.now) (Some (toks_of names.old line.now)) s next) }
        ensures put { self.new.tokens ≡ self.old.tokens }
        ensures bytes { self.new.bytes ≡ self.old.bytes }
        ensures paths { self.new.paths ≡ self.old.paths }
        ensures known { IfErr result (IsFaultInText names.new) }
        ensures keeps { Extends names.old names.new }
    {
        let left = match self.expanded(alloc, names, line) {
            Ok(left) => left,
            Err(fault) => return Err(self.fault_of(names, fault)),
        };
        if left.len() >= MOST_LINE_TOKENS {
            return Err(PreFault::Memory);
        }
        keep_undefined(&mut self.undefined, left.as_slice())?;
        match condition_holds(alloc, names, left.as_slice()) {
            Ok(holds) => Ok(holds),
            Err(LineFault::Refused(kind, word)) => Err(self.line_error(names, kind, hash, word)),
            Err(LineFault::Memory) => Err(PreFault::Memory),
        }
    }
}

// The counter has room for what is left of the replacements.
fn leaves_room(budget: Budget) -> bool
    ensures { IsTrue result → (budget.counter + budget.replacements < 2 ^ 32) }
{
    budget.replacements <= u32::MAX - budget.counter
}

// How many tokens an expansion puts before it breaks off.
fn before(fault: ExpandFault) -> usize
    ensures { result ≡ before_in fault }
{
    match fault {
        ExpandFault::Arguments { place: _, before } => before,
        ExpandFault::OpenCall { place: _, before } => before,
        ExpandFault::BadPaste { place: _, before } => before,
        ExpandFault::Limit { limit: _, before } => before,
        ExpandFault::Memory => 0,
    }
}
