// Contexts: how the count that a function keeps changes. Tokens arrive, and two counts leave, or a change. The paths that keep
// it aren't known here.
ghost use Rattle.std.specs.Prelude.{◌≡◌, List, ℕ};
ghost use Rattle.meaning_attributes.specs.Pieces.{comma_pieces};
ghost use Rattle.meaning_attributes.specs.Items.{context_with};
ghost use Rattle.meaning_attributes.specs.Contexts.{change_by, change_of, change_spelled, context_between, context_in, signed_change};
ghost use Rattle.c_tokens.specs.Seen.{toks_of};
ghost use Rattle.c_attrs.specs.Seen.{change_seen, significant};
ghost use Rattle.c_attrs.specs.Fronts.{has_no_tokens};
ghost use Rattle.c_attrs.specs.Meanings.{arguments_seen, meaning_seen};

use crate::arguments::Arguments;
use crate::attribute::Attribute;
use crate::fault::ChangeFault;
use crate::meaning::{Bad, Meaning};
use crate::piece::first_piece;
use crate::token::{lone_number, number_at, split_first};
use c_tokens::{Names, Token};
use sparse_model::{ContextEntry, TokenKind};

/// The greatest number of a context, and the greatest change without its sign.
const GREATEST_STEP: u64 = 1_000_000;

/// The context that stands between the parentheses of an item.
pub(crate) fn context_with(names: &Names, arguments: Arguments<'_>) -> Meaning
    ensures { meaning_seen names.now result ≡ context_with (arguments_seen names.now arguments.entry) }
{
    match arguments {
        Arguments::Between(toks) => context_in(names, toks),
        Arguments::None | Arguments::Other => Meaning::Bad(Bad::Context),
    }
}

// Two integers, or words and two integers.
fn context_in(names: &Names, toks: &[Token]) -> Meaning
    ensures { meaning_seen names.now result ≡ context_in (comma_pieces (significant names.now toks.now)) }
{
    let (first, more) = first_piece(toks);
    let Some(behind) = more else {
        return Meaning::Bad(Bad::Context);
    };
    let (second, more) = first_piece(behind);
    let Some(behind) = more else {
        return context_between(lone_number(names, first), lone_number(names, second));
    };
    let (third, more) = first_piece(behind);
    if more.is_some() || has_no_tokens(names, first) {
        return Meaning::Bad(Bad::Context);
    }
    context_between(lone_number(names, second), lone_number(names, third))
}

// The count goes from the first number to the second one.
fn context_between(enters: Option<u64>, leaves: Option<u64>) -> Meaning
    ensures { (names : List (List ℕ)) → meaning_seen names result ≡ context_between enters leaves }
{
    match (enters, leaves) {
        (Some(enters), Some(leaves)) if enters <= GREATEST_STEP && leaves <= GREATEST_STEP => {
            Meaning::Means(Attribute::Context(ContextEntry {
                enters: enters as i64,
                leaves: leaves as i64,
            }))
        }
        (Some(_), Some(_)) => Meaning::PassesLimit,
        _ => Meaning::Bad(Bad::Context),
    }
}

// No token means something.
fn has_no_tokens(names: &Names, toks: &[Token]) -> bool
    ensures { result ≡ has_no_tokens (significant names.now toks.now) }
{
    split_first(names, toks).is_none()
}

/// The change of a context statement with these tokens between its parentheses: an integer with at most one
/// sign, perhaps behind words and a comma. It takes no memory, and time that is linear in the tokens.
///
/// # Errors
/// `StepLimit` where the form is that and the change is above 1,000,000, up or down; else `Bad`.
pub fn context_change(names: &Names, toks: &[Token]) -> Result<i64, ChangeFault>
    ensures { change_seen result ≡ change_of (toks_of names.now toks.now) }
{
    let (first, more) = first_piece(toks);
    let Some(behind) = more else {
        return change_spelled(names, first);
    };
    let (second, more) = first_piece(behind);
    if more.is_some() || has_no_tokens(names, first) {
        return Err(ChangeFault::Bad);
    }
    change_spelled(names, second)
}

// An integer with at most one sign before it.
fn change_spelled(names: &Names, toks: &[Token]) -> Result<i64, ChangeFault>
    ensures { change_seen result ≡ change_spelled (significant names.now toks.now) }
{
    let Some((first, behind)) = split_first(names, toks) else {
        return Err(ChangeFault::Bad);
    };
    let Some((second, behind)) = split_first(names, behind) else {
        return change_by(false, number_at(names, first));
    };
    if has_no_tokens(names, behind) {
        signed_change(first.kind, number_at(names, second))
    } else {
        Err(ChangeFault::Bad)
    }
}

// The change by a number, behind a token of this kind.
fn signed_change(sign: TokenKind, count: Option<u64>) -> Result<i64, ChangeFault>
    ensures { change_seen result ≡ signed_change sign count }
{
    match sign {
        TokenKind::Plus => change_by(false, count),
        TokenKind::Minus => change_by(true, count),
        _ => Err(ChangeFault::Bad),
    }
}

// The change by so much, up or down.
fn change_by(down: bool, count: Option<u64>) -> Result<i64, ChangeFault>
    ensures { change_seen result ≡ change_by down count }
{
    let Some(count) = count else {
        return Err(ChangeFault::Bad);
    };
    if count > GREATEST_STEP {
        return Err(ChangeFault::StepLimit);
    }
    let up = count as i64;
    Ok(if down { -up } else { up })
}
