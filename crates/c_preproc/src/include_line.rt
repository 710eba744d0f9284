//! The line of an `#include` (C11 6.10.2): which header it asks for.
ghost use Rattle.std.specs.Prelude.{◌≡◌, [], List, ℕ, Some, IfErr, IfOk};
ghost use Rattle.vocabulary.specs.declared.error_kind.ErrorKind.TheVariants.{MalformedDirective};
ghost use Rattle.meaning_preprocessing.specs.Directives.{asked, asked_if, include_turn};
ghost use Rattle.meaning_preprocessing.specs.Groups.{Includes, with_expanded};
ghost use Rattle.meaning_preprocessing.specs.Search.{header_of, is_header_kind};
ghost use Rattle.meaning_preprocessing.specs.State.{UnitState, refused};
ghost use Rattle.c_tokens.specs.Seen.{Extends, at_of, tok_of, toks_of};
ghost use Rattle.c_directives.specs.Conditions.{AreKnown};
ghost use Rattle.c_directives.specs.Headers.{IsKnownHeader, header_seen};
ghost use Rattle.c_preproc.specs.Requests.{IsAsked, IsKnownRequest, request_seen};
ghost use Rattle.c_preproc.specs.States.{Holds, IsFaultInText, IsHeld, stop_of};

use crate::pre_fault::PreFault;
use crate::state::{NO_WORD, State};
use c_directives::{Header, expanded_header, spelled_header};
use c_tokens::{Names, Token};
use sparse_model::{ErrorKind, NameId, Place, TokenKind};
use std::alloc::Global;

/// A header that is asked for.
#[derive(Clone, Copy, Debug, PartialEq, Eq)]
pub(crate) struct HeaderRequest {
    pub(crate) header: Header,
    /// The path of the file that asks.
    pub(crate) asking: NameId,
    /// Where the header stands in it.
    pub(crate) place: Place,
}

impl State {
    /// What the tokens behind `#include` ask for.
    pub(crate) fn turn_include(
        &mut self,
        alloc: Global,
        names: &mut Names,
        hash: &Token,
        line: &[Token],
    ) -> Result<HeaderRequest, PreFault>
        requires held { IsHeld names.old self.old }
        requires known { AreKnown names.old line.now }
        ensures asked { (path : List ℕ) (s : UnitState) → Holds names.old path self.old s →
            IsAsked names.new path self.new result (include_turn (tok_of names.old hash.now) (toks_of names.old line.now) s) }
        ensures request { IfOk result (IsKnownRequest names.new) }
        ensures put { self.new.tokens ≡ self.old.tokens }
        ensures bytes { self.new.bytes ≡ self.old.bytes }
        ensures paths { self.new.paths ≡ self.old.paths }
        ensures known { IfErr result (IsFaultInText names.new) }
        ensures keeps { Extends names.old names.new }
    {
        let Some((first, others)) = line.split_first() else {
            return Err(self.malformed(names, hash));
        };
        if !is_header_name(first.kind) {
            return self.ask_expanded(alloc, names, hash, first, line);
        }
        if !others.is_empty() {
            return Err(self.malformed(names, hash));
        }
        let header = spelled_header(alloc, names, first.name)?;
        names.apart();
        Ok(self.asked(names, header, hash, first))
    }

    // What other tokens ask for, behind expansion (p4).
    fn ask_expanded(
        &mut self,
        alloc: Global,
        names: &mut Names,
        hash: &Token,
        first: &Token,
        line: &[Token],
    ) -> Result<HeaderRequest, PreFault>
        requires held { IsHeld names.old self.old }
        requires known { AreKnown names.old line.now }
        ensures asked { (path : List ℕ) (s : UnitState) → Holds names.old path self.old s →
            IsAsked names.new path self.new result
            (with_expanded s (toks_of names.old line.now) (λ tokens u. asked_if (tok_of names.old hash.now) (tok_of names.old first.now) (header_of tokens) u)) }
        ensures request { IfOk result (IsKnownRequest names.new) }
        ensures put { self.new.tokens ≡ self.old.tokens }
        ensures bytes { self.new.bytes ≡ self.old.bytes }
        ensures paths { self.new.paths ≡ self.old.paths }
        ensures known { IfErr result (IsFaultInText names.new) }
        ensures keeps { Extends names.old names.new }
    {
        let tokens = match self.expanded(alloc, names, line) {
            Ok(tokens) => tokens,
            Err(fault) => return Err(self.fault_of(names, fault)),
        };
        let found = expanded_header(alloc, names, tokens.as_slice())?;
        names.apart();
        let Some(header) = found else {
            return Err(self.malformed(names, hash));
        };
        Ok(self.asked(names, header, hash, first))
    }

    fn asked(&self, names: &Names, header: Header, hash: &Token, first: &Token) -> HeaderRequest
        ensures asked { (path : List ℕ) (s : UnitState) → Holds names.now path self.now s →
            asked (tok_of names.now hash.now) (tok_of names.now first.now) (header_seen names.now header) s ≡ Includes (request_seen names.now result) s }
        ensures known { IsHeld names.now self.now → IsKnownHeader names.now header → IsKnownRequest names.now result }
    {
        HeaderRequest {
            header,
            asking: self.path_of(names, hash.place.file),
            place: first.place,
        }
    }

    fn malformed(&self, names: &Names, hash: &Token) -> PreFault
        ensures stop { (path : List ℕ) (s : UnitState) → Holds names.now path self.now s →
            stop_of names.now result ≡ Some (refused s MalformedDirective (at_of hash.now.place) []) }
        ensures known { IsHeld names.now self.now → IsFaultInText names.now result }
    {
        names.apart();
        self.error(names, ErrorKind::MalformedDirective, hash.place, NO_WORD)
    }
}

fn is_header_name(kind: TokenKind) -> bool
    ensures { result ≡ is_header_kind kind }
{
    matches!(kind, TokenKind::HeaderName)
}
