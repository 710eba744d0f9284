// The text of a unit's tokens, which `-E` writes.
ghost use Rattle.std.specs.Prelude.{◌≡◌, ◌++◌, IfOk, OnOk};
ghost use Rattle.c_directives.specs.Conditions.{AreKnown};
ghost use Rattle.c_tokens.specs.Seen.{IsKnown, at_of, tok_of, toks_of};
ghost use Rattle.meaning_answer.specs.Answers.{expanded_reply};
ghost use Rattle.meaning_answer.specs.Tokens.{is_line_of, token_behind, tokens_behind, tokens_text};
ghost use Rattle.ksparse.specs.Written.{reply_seen};

use crate::exit::Exit;
use crate::reply::Written;
use c_tokens::{Names, Token};
use sparse_model::Place;
use std::alloc::{AllocError, Global};

/// The reply that tells these tokens.
pub(crate) fn expand_tokens(
    alloc: Global,
    names: &Names,
    tokens: &[Token],
) -> Result<Written, AllocError>
    requires { AreKnown names.now tokens.now }
    ensures { IfOk result (λ written. reply_seen written ≡ expanded_reply (toks_of names.now tokens.now)) }
{
    let mut out = Vec::new(alloc);
    write_tokens(&mut out, names, tokens)?;
    Ok(Written {
        out,
        err: Vec::new(alloc),
        exit: Exit::Clean,
    })
}

fn write_tokens(text: &mut Vec<u8>, names: &Names, tokens: &[Token]) -> Result<(), AllocError>
    requires { AreKnown names.now tokens.now }
    ensures { OnOk result (text.new.items ≡ text.old.items ++ tokens_text (toks_of names.now tokens.now)) }
{
    let Some((first, others)) = tokens.split_first() else {
        return Ok(());
    };
    text.extend_from_slice(names.spelling(first.name))?;
    write_behind(text, names, first.place, others)
}

// The tokens behind one that stands here, and the last new-line.
fn write_behind(
    text: &mut Vec<u8>,
    names: &Names,
    place: Place,
    tokens: &[Token],
) -> Result<(), AllocError>
    requires { AreKnown names.now tokens.now }
    ensures { OnOk result (text.new.items
        ≡ text.old.items ++ tokens_behind (at_of place) (toks_of names.now tokens.now)) }
{
    let mut before = place;
    let mut left = tokens;
    'tokens: while let Some((token, others)) = left.split_first() {
        write_token(text, names, before, *token)?;
        before = token.place;
        left = others;
    }
    text.push(b'\n')?;
    Ok(())
}

// A token behind one that stands here.
fn write_token(
    text: &mut Vec<u8>,
    names: &Names,
    before: Place,
    token: Token,
) -> Result<(), AllocError>
    requires { IsKnown names.now token.name }
    ensures { OnOk result (text.new.items
        ≡ text.old.items ++ token_behind (at_of before) (tok_of names.now token)) }
{
    if is_line_of(before, token.place) {
        text.push(b' ')?;
    } else {
        text.push(b'\n')?;
    }
    text.extend_from_slice(names.spelling(token.name))
}

// Both stand on one line of one file.
fn is_line_of(place: Place, other: Place) -> bool
    ensures { result ≡ is_line_of (at_of place) (at_of other) }
{
    place.file == other.file && place.line == other.line
}
