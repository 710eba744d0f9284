// The line that says for what parsing refuses the tokens of a unit.
ghost use Rattle.std.specs.Prelude.{◌≡◌, [], ℕ, IfOk, List, Some, slice_get};
ghost use Rattle.c_parse.specs.Answers.{IsFaultOf};
ghost use Rattle.c_preproc.specs.Units.{IsKnownUnit};
ghost use Rattle.c_tokens.specs.Seen.{at_of, text_of, toks_of};
ghost use Rattle.meaning_answer.specs.Answers.{TellsRefusal};
ghost use Rattle.meaning_answer.specs.Lines.{named_word, names_its_token, refusal_place, refusal_reply};
ghost use Rattle.meaning_derivation.specs.State.{IsError};
ghost use Rattle.meaning_warnings.specs.Places.{token_text};
ghost use Rattle.ksparse.specs.Written.{paths_of, reply_seen};

use crate::refusal::{NO_NAME, START, error, limit, path_in};
use crate::reply::Written;
use c_parse::ParseFault;
use c_preproc::UnitTokens;
use c_tokens::{Names, Token, TokenList};
use sparse_model::{ErrorKind, NameId, Place};
use std::alloc::{AllocError, Global};

/// The reply to tokens that parsing refuses for this.
pub fn tell_fault(
    alloc: Global,
    names: &Names,
    toks: &UnitTokens,
    fault: ParseFault,
) -> Result<Written, AllocError>
    requires known { IsKnownUnit names.now toks.now }
    requires fault { IsFaultOf (toks_of names.now toks.now.tokens) fault }
    ensures { IfOk result (λ written. TellsRefusal (paths_of names.now toks.now.files)
        (toks_of names.now toks.now.tokens) (reply_seen written)) }
{
    match fault {
        ParseFault::Refused(kind, token) => tell_error(alloc, names, toks, kind, token),
        ParseFault::Limit(kind, _) => limit(alloc, kind),
        ParseFault::Memory => Err(AllocError),
    }
}

// The line of an error that stands at the token with this index, or behind the last one.
fn tell_error(
    alloc: Global,
    names: &Names,
    toks: &UnitTokens,
    kind: ErrorKind,
    token: u32,
) -> Result<Written, AllocError>
    ensures { IfOk result (λ written. reply_seen written ≡ refusal_reply (paths_of names.now toks.now.files)
        (toks_of names.now toks.now.tokens) (IsError kind) token) }
{
    names.apart();
    let place = refusal_place(&toks.tokens, token);
    let path = path_in(&toks.files, place.file);
    let word = named_word(&toks.tokens, kind, token);
    error(alloc, names, kind, path, place, word)
}

// Where an error is told that stands at this index; a file that ends too early is told at its last token.
fn refusal_place(tokens: &TokenList, index: u32) -> Place
    ensures { (names : List (List ℕ)) → at_of result ≡ refusal_place (toks_of names tokens.now) index }
{
    let last = tokens.len().saturating_sub(1);
    match token_in(tokens, (index as usize).min(last)) {
        Some(token) => token.place,
        None => START,
    }
}

// The token with this index, if there is one.
fn token_in(tokens: &TokenList, index: usize) -> Option<Token>
    ensures { result ≡ slice_get tokens.now index }
{
    if index < tokens.len() {
        Some(*tokens.get(index))
    } else {
        None
    }
}

// The word that an error names which stands at this index.
fn named_word(tokens: &TokenList, kind: ErrorKind, index: u32) -> NameId
    ensures { (names : List (List ℕ)) → slice_get names 0 ≡ Some [] → text_of names result ≡ named_word kind (toks_of names tokens.now) index }
{
    if names_its_token(kind) {
        name_at(tokens, index)
    } else {
        NO_NAME
    }
}

// The name of the token with this index; one that isn't there has none.
fn name_at(tokens: &TokenList, index: u32) -> NameId
    ensures { (names : List (List ℕ)) → slice_get names 0 ≡ Some [] → text_of names result ≡ token_text (slice_get (toks_of names tokens.now) index) }
{
    match token_in(tokens, index as usize) {
        Some(token) => token.name,
        None => NO_NAME,
    }
}

// The error names the token at which it stands.
fn names_its_token(kind: ErrorKind) -> bool
    ensures { result ≡ names_its_token kind }
{
    matches!(
        kind,
        ErrorKind::SyntaxError | ErrorKind::NotDeclared | ErrorKind::Redeclared
    )
}
