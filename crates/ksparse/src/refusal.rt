// The line of each refusal, as a reply.
ghost use Rattle.std.specs.Prelude.{◌≡◌, [], ℕ, IfOk, List, Some, slice_get};
ghost use Rattle.c_tokens.specs.Seen.{at_of, text_of, toks_of};
ghost use Rattle.meaning_answer.specs.Lines.{bad_word_reply, error_reply, limit_reply, missing_file_reply};
ghost use Rattle.meaning_warnings.specs.Places.{begins_at, path_of};
ghost use Rattle.ksparse.specs.Judged.{constraint_reply};
ghost use Rattle.ksparse.specs.Written.{paths_of, reply_seen};

use crate::exit::Exit;
use crate::reply::Written;
use c_preproc::UnitTokens;
use c_tokens::{Names, TokenList};
use expression_rows::Broken;
use sparse_model::{ErrorKind, FileNames, LimitKind, NameId, Place};
use std::alloc::{AllocError, Global};
use warn_print::error_text;

/// The beginning of the checked file.
pub(crate) const START: Place = Place {
    file: 1,
    line: 1,
    column: 1,
};

/// The id of the empty spelling, which stands where there is no name.
pub(crate) const NO_NAME: NameId = NameId(0);

/// The first word that no rule allows.
pub(crate) fn bad_word(alloc: Global, word: &[u8]) -> Result<Written, AllocError>
    ensures { IfOk result (λ written. reply_seen written ≡ bad_word_reply word.now) }
{
    Written::line(alloc, Exit::Usage, b"ksparse: bad word: ", word)
}

/// An operand is wanting.
pub(crate) fn missing_file(alloc: Global) -> Result<Written, AllocError>
    ensures { IfOk result (λ written. reply_seen written ≡ missing_file_reply) }
{
    Written::line(alloc, Exit::Usage, b"ksparse: ", b"missing file")
}

/// A quantity passed its number.
pub fn limit(alloc: Global, kind: LimitKind) -> Result<Written, AllocError>
    ensures { IfOk result (λ written. reply_seen written ≡ limit_reply kind) }
{
    Written::line(alloc, Exit::Limit, b"ksparse: limit: ", kind.name())
}

/// The constraint that a unit breaks, at its token.
pub fn constraint(
    alloc: Global,
    names: &Names,
    toks: &UnitTokens,
    broken: Broken,
) -> Result<Written, AllocError>
    ensures { IfOk result (λ written. reply_seen written ≡ constraint_reply names.now toks.now broken) }
{
    names.apart();
    let place = place_of(&toks.tokens, broken.token);
    let path = path_in(&toks.files, place.file);
    error(alloc, names, broken.constraint, path, place, broken.name)
}

/// An error at this place of the file with this path, and the word that its text names, if it names one.
pub(crate) fn error(
    alloc: Global,
    names: &Names,
    kind: ErrorKind,
    path: NameId,
    place: Place,
    word: NameId,
) -> Result<Written, AllocError>
    ensures { IfOk result (λ written. reply_seen written ≡ error_reply kind (text_of names.now path) (at_of place) (text_of names.now word)) }
{
    Ok(Written {
        out: Vec::new(alloc),
        err: error_text(alloc, names, path, kind, place, word)?,
        exit: Exit::Refused,
    })
}

/// Where the token with this index begins; where there is none, the beginning of the checked file.
pub(crate) fn place_of(tokens: &TokenList, index: u32) -> Place
    ensures { (names : List (List ℕ)) → at_of result ≡ begins_at (slice_get (toks_of names tokens.now) index) }
{
    let index = index as usize;
    if index < tokens.len() {
        tokens.get(index).place
    } else {
        START
    }
}

/// The path of the file with this number.
pub(crate) fn path_in(files: &FileNames, file: u32) -> NameId
    ensures { (names : List (List ℕ)) → slice_get names 0 ≡ Some [] → text_of names result ≡ path_of (paths_of names files.now) file }
{
    let file = file as usize;
    if file < files.len() {
        *files.get(file)
    } else {
        NO_NAME
    }
}
