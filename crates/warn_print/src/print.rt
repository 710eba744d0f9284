//! All warnings of a unit.
ghost use Rattle.std.specs.Prelude.{◌≡◌, ◌++◌, IfOk, OnOk, option_map, slice_get};
ghost use Rattle.vocabulary.specs.Rules.{rule_class};
ghost use Rattle.c_tokens.specs.Seen.{tok_of, toks_of};
ghost use Rattle.meaning_warnings.specs.Listing.{IsUnitText, class_index, is_on, lines_on, listing_lines, undefined_lines};
ghost use Rattle.warn_print.specs.Seen.{failure_seen, failures_seen, unit_shown};
ghost use Rattle.warn_print.specs.Undefined.{behind_first, front_token};

use crate::show::{Show, token_in};
use crate::warnings::write_failure;
use c_tokens::Token;
use failure_listing::in_order;
use sparse_model::{Class, ClassSet, Failure, FailureList};
use std::alloc::{AllocError, Global};

/// The warnings of a unit for the classes that are on: those of preprocessing in the order in which they were met, and
/// behind them the failures by token, rule and part, each once.
///
/// It sorts the failures, and otherwise takes time and memory in step with what is written.
pub fn print_all(
    alloc: Global,
    failures: &FailureList,
    classes: &ClassSet,
    show: &Show<'_>,
) -> Result<Vec<u8>, AllocError>
    ensures { IfOk result (λ text. IsUnitText (unit_shown show.now) classes.now (failures_seen show.now failures.now) text.items) }
{
    let listing = in_order(alloc, failures)?;
    let mut text = Vec::new(alloc);
    write_undefined(alloc, &mut text, classes, show)?;
    write_listing(alloc, &mut text, classes, show, listing.as_slice())?;
    Ok(text)
}

// The failures of preprocessing, each at the token with its number.
fn write_undefined(
    alloc: Global,
    text: &mut Vec<u8>,
    classes: &ClassSet,
    show: &Show<'_>,
) -> Result<(), AllocError>
    ensures { OnOk result (text.new.items ≡ text.old.items ++ undefined_lines (unit_shown show.now) classes.now
        (failures_seen show.now show.now.toks.now.undefs) (toks_of show.now.names.now show.now.toks.now.undef_tokens)) }
{
    let mut failures = show.toks.undefs.as_slice();
    let mut tokens = show.toks.undef_tokens.as_slice();
    'failures: while let Some((failure, others)) = failures.split_first() {
        let (token, behind) = first_of(tokens);
        write_if_on(alloc, text, classes, show, token, *failure)?;
        failures = others;
        tokens = behind;
    }
    Ok(())
}

// The first token, and those behind it.
fn first_of(tokens: &[Token]) -> (Option<Token>, &[Token])
    ensures first { result.0 ≡ front_token tokens.now }
    ensures behind { result.1.now ≡ behind_first tokens.now }
{
    match tokens.split_first() {
        Some((token, behind)) => (Some(*token), behind),
        None => (None, tokens),
    }
}

fn write_listing(
    alloc: Global,
    text: &mut Vec<u8>,
    classes: &ClassSet,
    show: &Show<'_>,
    listing: &[Failure],
) -> Result<(), AllocError>
    ensures { OnOk result (text.new.items ≡ text.old.items ++ listing_lines (unit_shown show.now) classes.now (failures_seen show.now listing.now)) }
{
    for failure in listing {
        write_listed(alloc, text, classes, show, *failure)?;
    }
    Ok(())
}

// The lines of a failure at its token.
fn write_listed(
    alloc: Global,
    text: &mut Vec<u8>,
    classes: &ClassSet,
    show: &Show<'_>,
    failure: Failure,
) -> Result<(), AllocError>
    ensures { OnOk result (text.new.items ≡ text.old.items ++ lines_on (unit_shown show.now) classes.now
        (slice_get (toks_of show.now.names.now show.now.toks.now.tokens) failure.token)
        (failure_seen show.now.names.now show.now.types.now failure)) }
{
    let token = token_in(&show.toks.tokens, failure.token);
    write_if_on(alloc, text, classes, show, token, failure)?;
    Ok(())
}

// The lines of a failure at this token, if its class is on.
fn write_if_on(
    alloc: Global,
    text: &mut Vec<u8>,
    classes: &ClassSet,
    show: &Show<'_>,
    token: Option<Token>,
    failure: Failure,
) -> Result<(), AllocError>
    ensures { OnOk result (text.new.items ≡ text.old.items ++ lines_on (unit_shown show.now) classes.now
        (option_map (tok_of show.now.names.now) token) (failure_seen show.now.names.now show.now.types.now failure)) }
{
    if is_on(classes, failure.rule.class()) {
        write_failure(alloc, text, show, token, failure)
    } else {
        Ok(())
    }
}

// The class is among those that are on.
fn is_on(classes: &ClassSet, class: Class) -> bool
    ensures { result ≡ is_on classes.now class }
{
    let mut left = classes.as_slice();
    'classes: while let Some((on, others)) = left.split_first() {
        if number_of(*on) == number_of(class) {
            return true;
        }
        left = others;
    }
    false
}

fn number_of(class: Class) -> u8
    ensures { result ≡ class_index class }
{
    class as u8
}
