//! The integer constants among tokens, from their end: tokens arrive, and the last constant leaves with those before it. What it
//! counts isn't known here.
ghost use Rattle.std.specs.Prelude.{◌≡◌, ℕ, List, option_map};
ghost use Rattle.meaning_literals.specs.Integers.{integer_of};
ghost use Rattle.meaning_attributes.specs.Integers.{PlacedConstant, before_constants, constants_from};
ghost use Rattle.c_tokens.specs.Seen.{tok_of, toks_of};
ghost use Rattle.c_literals.specs.Seen.{constant_seen};
ghost use Rattle.c_attrs.specs.Integers.{before_others, up_to_last, value_of};

use crate::token::spelling;
use c_literals::read_integer;
use c_tokens::{Names, Token};
use sparse_model::{IntConst, TokenKind};

/// The last integer constant, and the tokens before its own. It takes no memory.
pub fn last_integer<'t>(names: &Names, toks: &'t [Token]) -> Option<(IntConst, &'t [Token])>
    ensures { (start : ℕ) → constants_from start (toks_of names.now toks.now) ≡ up_to_last names.now start result }
{
    let mut rest = toks;
    'tokens: while let Some((&token, before)) = rest.split_last() {
        if let Some(constant) = integer_at(names, token) {
            return Some((constant, before));
        }
        rest = before;
    }
    None
}

// The integer constant that a token is.
fn integer_at(names: &Names, token: Token) -> Option<IntConst>
    ensures { (index : ℕ) (others : List PlacedConstant) → before_constants (tok_of names.now token).kind (integer_of (tok_of names.now token).text) index others ≡ before_others result index others }
{
    match token.kind {
        TokenKind::Number => integer_spelled(spelling(names, token.name)),
        _ => None,
    }
}

// The integer constant that is spelled so, unless it is refused.
fn integer_spelled(text: &[u8]) -> Option<IntConst>
    ensures { option_map constant_seen result ≡ value_of (integer_of text.now) }
{
    match read_integer(text) {
        Ok(constant) => Some(constant),
        Err(_fault) => None,
    }
}
