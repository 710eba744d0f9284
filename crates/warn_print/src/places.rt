// How a line begins.
ghost use Rattle.std.specs.Prelude.{◌≡◌, ◌++◌, ℕ, List, OnOk, option_map};
ghost use Rattle.c_tokens.specs.Seen.{at_of, text_of, tok_of};
ghost use Rattle.meaning_warnings.specs.Places as places;

use crate::numbers::write_number;
use crate::show::spelling_of;
use c_tokens::{Names, Token};
use sparse_model::Place;
use std::alloc::AllocError;

/// The number of the checked file.
const MAIN_FILE: u32 = 1;

/// Appends `FILE:LINE:COLUMN: `.
pub(crate) fn write_front(text: &mut Vec<u8>, path: &[u8], at: Place) -> Result<(), AllocError>
    ensures { OnOk result (text.new.items ≡ text.old.items ++ places.line_front path.now (at_of at)) }
{
    text.extend_from_slice(path)?;
    text.push(b':')?;
    write_number(text, at.line)?;
    text.push(b':')?;
    write_number(text, at.column)?;
    text.extend_from_slice(b": ")?;
    Ok(())
}

/// Where a token begins; where there is none, the beginning of the checked file.
pub(crate) fn begins_at(token: Option<Token>) -> Place
    ensures { (names : List (List ℕ)) → at_of result ≡ places.begins_at (option_map (tok_of names) token) }
{
    match token {
        Some(token) => token.place,
        None => Place {
            file: MAIN_FILE,
            line: 1,
            column: 1,
        },
    }
}

/// How a token is spelled.
pub(crate) fn token_text(names: &Names, token: Option<Token>) -> &[u8]
    ensures { result.now ≡ places.token_text (option_map (tok_of names.now) token) }
{
    match token {
        Some(token) => spelling_of(names, token.name),
        None => b"",
    }
}
