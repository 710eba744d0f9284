// The lines of a failure.
ghost use Rattle.std.specs.Prelude.{◌≡◌, ◌++◌, ℕ, List, codes, IfOk, OnOk, option_map, slice_get};
ghost use Rattle.std.specs.Fmt.{signed_decimal};
ghost use Rattle.c_tokens.specs.Seen.{at_of, tok_of};
ghost use Rattle.meaning_types.specs.Types.{flags_of};
ghost use Rattle.meaning_warnings.specs.Warnings as meaning;
ghost use Rattle.warn_print.specs.Pieces.{flagged_text};
ghost use Rattle.warn_print.specs.Seen.{failure_seen, placed_lines, shown_type, unit_shown};

use crate::numbers::{write_number, write_signed};
use crate::places::{begins_at, token_text, write_front};
use crate::show::{Show, path_of, shape_of, spelling_of, token_in};
use crate::types::{write_identity, write_space, write_type};
use c_tokens::{Names, Token};
use c_types::{OuterBase, OuterShape, Types};
use sparse_model::{Failure, Place, RuleCode, TypeId};
use std::alloc::{AllocError, Global};

/// The part of an initializer.
const INITIALIZER: u16 = 256;

/// The lines of a failure: its warning, and for some rules its two types below it.
pub fn warning_text(alloc: Global, show: &Show<'_>, f: &Failure) -> Result<Vec<u8>, AllocError>
    ensures { IfOk result (λ text. text.items ≡ meaning.failure_lines (unit_shown show.now)
        (option_map (tok_of show.now.names.now) (slice_get show.now.toks.now.tokens f.now.token))
        (failure_seen show.now.names.now show.now.types.now f.now)) }
{
    let mut text = Vec::new(alloc);
    write_failure(
        alloc,
        &mut text,
        show,
        token_in(&show.toks.tokens, f.token),
        *f,
    )?;
    Ok(text)
}

/// Appends the lines of a failure that stands at this token.
pub(crate) fn write_failure(
    alloc: Global,
    text: &mut Vec<u8>,
    show: &Show<'_>,
    token: Option<Token>,
    failure: Failure,
) -> Result<(), AllocError>
    ensures { OnOk result (text.new.items ≡ text.old.items ++ meaning.failure_lines (unit_shown show.now)
        (option_map (tok_of show.now.names.now) token) (failure_seen show.now.names.now show.now.types.now failure)) }
{
    let at = begins_at(token);
    let path = path_of(show.names, &show.toks.files, at.file);
    let spelling = token_text(show.names, token);
    write_lines(alloc, text, show, path, at, spelling, failure)?;
    Ok(())
}

// The lines at this place, with the path of its file, where the token is spelled so.
fn write_lines(
    alloc: Global,
    text: &mut Vec<u8>,
    show: &Show<'_>,
    path: &[u8],
    at: Place,
    spelling: &[u8],
    failure: Failure,
) -> Result<(), AllocError>
    ensures { OnOk result (text.new.items ≡ text.old.items ++ placed_lines (unit_shown show.now) path.now (at_of at) spelling.now
        (failure_seen show.now.names.now show.now.types.now failure)) }
{
    write_front(text, path, at)?;
    text.extend_from_slice(b"warning: ")?;
    write_message(text, show, spelling, failure)?;
    text.push(b'\n')?;
    write_below(alloc, text, show, path, at, failure)?;
    Ok(())
}

// What the rule says.
fn write_message(
    text: &mut Vec<u8>,
    show: &Show<'_>,
    spelling: &[u8],
    failure: Failure,
) -> Result<(), AllocError>
    ensures { OnOk result (text.new.items ≡ text.old.items ++ (meaning.warning_of (unit_shown show.now) spelling.now
        (failure_seen show.now.names.now show.now.types.now failure) failure.rule).text) }
{
    let name = spelling_of(show.names, failure.name);
    match failure.rule {
        RuleCode::A1 => write_conversion(
            text,
            spelling,
            failure.part,
            b" (different address spaces)",
        ),
        RuleCode::A2 => write_conversion(text, spelling, failure.part, b" (different base types)"),
        RuleCode::A3 => write_meeting(text, spelling),
        RuleCode::A4 => write_access(text, show, failure.first),
        RuleCode::A5 => write_cast_of_space(
            text,
            show,
            b"cast removes address space ",
            failure.first,
        ),
        RuleCode::A6 => write_cast_of_space(text, show, b"cast adds address space ", failure.first),
        RuleCode::A7 => write_named(text, b"symbol '", name, b"' redeclared with different type"),
        RuleCode::B1 => write_restricted(
            text,
            show,
            b"restricted ",
            failure.first,
            b" degrades to integer",
        ),
        RuleCode::B2 => write_words(text, b"operands of different restricted types"),
        RuleCode::B3 => write_conversion(
            text,
            spelling,
            failure.part,
            b" (different restricted types)",
        ),
        RuleCode::B4 => write_cast(text, show, failure.first, failure.second),
        RuleCode::B5 => write_restricted(
            text,
            show,
            b"fouled restricted ",
            failure.first,
            b" compared or tested",
        ),
        RuleCode::B6 => write_words(text, b"case label of a different restricted type"),
        RuleCode::B7 => write_restricted_type(
            text,
            show,
            b"bad assignment operator on restricted ",
            failure.first,
        ),
        RuleCode::C1 => write_imbalance(text, name, b"different counts at this point"),
        RuleCode::C2 => write_imbalance(text, name, b"unexpected release"),
        RuleCode::C3 => write_wrong_count(text, name, failure),
        RuleCode::N1 => write_words(text, b"using plain integer as NULL pointer"),
        RuleCode::S1 => write_named(
            text,
            b"symbol '",
            name,
            b"' was not declared. Should it be static?",
        ),
        RuleCode::S2 => write_named(text, b"symbol '", name, b"' shadows an earlier one"),
        RuleCode::S3 => write_named(text, b"undefined preprocessor identifier '", name, b"'"),
        RuleCode::S4 => write_words(text, b"returning void-valued expression"),
        RuleCode::S5 => write_words(text, b"do-while statement is not a compound statement"),
        RuleCode::S6 => write_words(text, b"empty parameter list taken as (void)"),
        RuleCode::S7 => write_words(text, b"one-bit signed bit-field"),
        RuleCode::S8 => write_truncation(text, failure),
    }
}

fn write_words(text: &mut Vec<u8>, words: &[u8]) -> Result<(), AllocError>
    ensures { OnOk result (text.new.items ≡ text.old.items ++ words.now) }
{
    text.extend_from_slice(words)
}

fn write_named(text: &mut Vec<u8>, front: &[u8], name: &[u8], back: &[u8]) -> Result<(), AllocError>
    ensures { OnOk result (text.new.items ≡ text.old.items ++ (front.now ++ name.now ++ back.now)) }
{
    text.extend_from_slice(front)?;
    text.extend_from_slice(name)?;
    text.extend_from_slice(back)
}

// A conversion at the position of this part, or of a token that is spelled so.
fn write_conversion(
    text: &mut Vec<u8>,
    spelling: &[u8],
    part: u16,
    why: &[u8],
) -> Result<(), AllocError>
    ensures { OnOk result (text.new.items ≡ text.old.items ++ (codes "incorrect type in " ++ meaning.position spelling.now part ++ why.now)) }
{
    text.extend_from_slice(b"incorrect type in ")?;
    write_position(text, spelling, part)?;
    text.extend_from_slice(why)
}

fn write_position(text: &mut Vec<u8>, spelling: &[u8], part: u16) -> Result<(), AllocError>
    ensures { OnOk result (text.new.items ≡ text.old.items ++ meaning.position spelling.now part) }
{
    if part == 0 {
        if spelling == b"return".as_slice() {
            return text.extend_from_slice(b"return");
        }
        return text.extend_from_slice(b"assignment");
    }
    if part == INITIALIZER {
        return text.extend_from_slice(b"initializer");
    }
    text.extend_from_slice(b"argument ")?;
    write_number(text, u32::from(part))
}

// Two pointers meet at an operator.
fn write_meeting(text: &mut Vec<u8>, spelling: &[u8]) -> Result<(), AllocError>
    ensures { OnOk result (text.new.items ≡ text.old.items ++ (codes "incompatible types in " ++ meaning.meeting spelling.now)) }
{
    text.extend_from_slice(b"incompatible types in ")?;
    text.extend_from_slice(meeting(spelling))?;
    Ok(())
}

fn meeting(spelling: &[u8]) -> &'static [u8]
    ensures { result.now ≡ meaning.meeting spelling.now }
{
    if spelling == b"-".as_slice() {
        b"subtraction"
    } else if spelling == b"?".as_slice() {
        b"conditional"
    } else {
        b"comparison"
    }
}

// An access to a place of this type.
fn write_access(
    text: &mut Vec<u8>,
    show: &Show<'_>,
    place: Option<TypeId>,
) -> Result<(), AllocError>
    ensures { OnOk result (text.new.items ≡ text.old.items ++ meaning.of_type (λ place. meaning.access_text (flags_of place))
        (option_map (shown_type show.now.names.now show.now.types.now) place)) }
{
    let Some(place) = place else {
        return Ok(());
    };
    write_flagged(text, show.names, shape_of(show.types, place))
}

// What is wrong about a place of this type.
fn write_flagged(text: &mut Vec<u8>, names: &Names, place: OuterShape) -> Result<(), AllocError>
    ensures { OnOk result (text.new.items ≡ text.old.items ++ flagged_text names.now place) }
{
    if place.noderef {
        text.extend_from_slice(b"dereference of noderef expression")?;
        return Ok(());
    }
    text.extend_from_slice(b"dereference in address space ")?;
    write_space(text, names, place.space)?;
    Ok(())
}

// The space of what this pointer points to.
fn write_cast_of_space(
    text: &mut Vec<u8>,
    show: &Show<'_>,
    front: &[u8],
    pointer: Option<TypeId>,
) -> Result<(), AllocError>
    ensures { OnOk result (text.new.items ≡ text.old.items ++ (front.now ++ meaning.of_type meaning.pointed_space
        (option_map (shown_type show.now.names.now show.now.types.now) pointer))) }
{
    text.extend_from_slice(front)?;
    let Some(pointer) = pointer else {
        return Ok(());
    };
    match shape_of(show.types, pointer).base {
        OuterBase::Pointer(target) => write_space(
            text,
            show.names,
            shape_of(show.types, target).space,
        ),
        _ => Ok(()),
    }
}

// The name of this restricted type, between two texts.
fn write_restricted(
    text: &mut Vec<u8>,
    show: &Show<'_>,
    front: &[u8],
    of: Option<TypeId>,
    back: &[u8],
) -> Result<(), AllocError>
    ensures { OnOk result (text.new.items ≡ text.old.items ++ (front.now ++ meaning.of_type (meaning.restricted_name (unit_shown show.now))
        (option_map (shown_type show.now.names.now show.now.types.now) of) ++ back.now)) }
{
    text.extend_from_slice(front)?;
    write_restricted_name(text, show, of)?;
    text.extend_from_slice(back)
}

// The name of this restricted type behind a text.
fn write_restricted_type(
    text: &mut Vec<u8>,
    show: &Show<'_>,
    front: &[u8],
    of: Option<TypeId>,
) -> Result<(), AllocError>
    ensures { OnOk result (text.new.items ≡ text.old.items ++ (front.now ++ meaning.of_type (meaning.restricted_name (unit_shown show.now))
        (option_map (shown_type show.now.names.now show.now.types.now) of))) }
{
    text.extend_from_slice(front)?;
    write_restricted_name(text, show, of)
}

fn write_restricted_name(
    text: &mut Vec<u8>,
    show: &Show<'_>,
    of: Option<TypeId>,
) -> Result<(), AllocError>
    ensures { OnOk result (text.new.items ≡ text.old.items ++ meaning.of_type (meaning.restricted_name (unit_shown show.now))
        (option_map (shown_type show.now.names.now show.now.types.now) of)) }
{
    let Some(of) = of else {
        return Ok(());
    };
    match shape_of(show.types, of).base {
        OuterBase::Integer(kind, Some(identity)) => {
            write_identity(text, show.names, show.types, kind, identity)
        }
        _ => Ok(()),
    }
}

// A cast of a restricted operand, or to a restricted type.
fn write_cast(
    text: &mut Vec<u8>,
    show: &Show<'_>,
    operand: Option<TypeId>,
    to: Option<TypeId>,
) -> Result<(), AllocError>
    ensures { OnOk result (text.new.items ≡ text.old.items ++ meaning.of_type
        (λ operand. meaning.cast_text (unit_shown show.now) operand (option_map (shown_type show.now.names.now show.now.types.now) to))
        (option_map (shown_type show.now.names.now show.now.types.now) operand)) }
{
    match operand {
        Some(operand) => write_cast_of(text, show, operand, to),
        None => Ok(()),
    }
}

fn write_cast_of(
    text: &mut Vec<u8>,
    show: &Show<'_>,
    operand: TypeId,
    to: Option<TypeId>,
) -> Result<(), AllocError>
    ensures { OnOk result (text.new.items ≡ text.old.items ++ meaning.cast_text (unit_shown show.now) (shown_type show.now.names.now show.now.types.now operand)
        (option_map (shown_type show.now.names.now show.now.types.now) to)) }
{
    if is_restricted(show.types, operand) {
        write_restricted_type(text, show, b"cast of restricted ", Some(operand))?;
        return Ok(());
    }
    write_restricted_type(text, show, b"cast to restricted ", to)?;
    Ok(())
}

fn is_restricted(types: &Types, t: TypeId) -> bool
    ensures { (names : List (List ℕ)) → result ≡ meaning.is_restricted_type (shown_type names types.now t) }
{
    match shape_of(types, t).base {
        OuterBase::Integer(_, Some(_)) => true,
        _ => false,
    }
}

// The name of the function whose contexts aren't in balance.
fn write_imbalance(text: &mut Vec<u8>, name: &[u8], what: &[u8]) -> Result<(), AllocError>
    ensures { OnOk result (text.new.items ≡ text.old.items ++ meaning.imbalance name.now what.now) }
{
    write_named(text, b"context imbalance in '", name, b"' - ")?;
    text.extend_from_slice(what)?;
    Ok(())
}

fn write_wrong_count(text: &mut Vec<u8>, name: &[u8], failure: Failure) -> Result<(), AllocError>
    ensures { OnOk result (text.new.items ≡ text.old.items ++ meaning.imbalance name.now
        (codes "wrong count at exit (" ++ signed_decimal failure.number ++ codes " instead of " ++ signed_decimal failure.wanted ++ codes ")")) }
{
    write_imbalance(text, name, b"wrong count at exit (")?;
    write_two_numbers(text, failure, b" instead of ")?;
    Ok(())
}

fn write_truncation(text: &mut Vec<u8>, failure: Failure) -> Result<(), AllocError>
    ensures { OnOk result (text.new.items ≡ text.old.items
        ++ (codes "cast truncates constant (" ++ signed_decimal failure.number ++ codes " becomes " ++ signed_decimal failure.wanted ++ codes ")")) }
{
    text.extend_from_slice(b"cast truncates constant (")?;
    write_two_numbers(text, failure, b" becomes ")?;
    Ok(())
}

// The two numbers of a failure, before a closing parenthesis.
fn write_two_numbers(text: &mut Vec<u8>, failure: Failure, between: &[u8]) -> Result<(), AllocError>
    ensures { OnOk result (text.new.items ≡ text.old.items ++ signed_decimal failure.number ++ between.now ++ signed_decimal failure.wanted ++ codes ")") }
{
    write_counted(text, failure)?;
    text.extend_from_slice(between)?;
    write_wanted(text, failure)?;
    text.push(b')')?;
    Ok(())
}

fn write_counted(text: &mut Vec<u8>, failure: Failure) -> Result<(), AllocError>
    ensures { OnOk result (text.new.items ≡ text.old.items ++ signed_decimal failure.number) }
{
    write_signed(text, failure.number)
}

fn write_wanted(text: &mut Vec<u8>, failure: Failure) -> Result<(), AllocError>
    ensures { OnOk result (text.new.items ≡ text.old.items ++ signed_decimal failure.wanted) }
{
    write_signed(text, failure.wanted)
}

// The lines below a warning that name two types.
fn write_below(
    alloc: Global,
    text: &mut Vec<u8>,
    show: &Show<'_>,
    path: &[u8],
    at: Place,
    failure: Failure,
) -> Result<(), AllocError>
    ensures { (spelling : List ℕ) → OnOk result (text.new.items ≡ text.old.items ++ meaning.lines_below (unit_shown show.now) path.now (at_of at)
        (failure_seen show.now.names.now show.now.types.now failure)
        (meaning.warning_of (unit_shown show.now) spelling (failure_seen show.now.names.now show.now.types.now failure) failure.rule).below) }
{
    match failure.rule {
        RuleCode::A1 => write_types(alloc, text, show, path, at, b"expected", b"got", failure),
        RuleCode::A2 => write_types(alloc, text, show, path, at, b"expected", b"got", failure),
        RuleCode::A3 => write_types(alloc, text, show, path, at, b"left", b"right", failure),
        RuleCode::A7 => write_types(alloc, text, show, path, at, b"expected", b"got", failure),
        RuleCode::B2 => write_types(alloc, text, show, path, at, b"left", b"right", failure),
        RuleCode::B3 => write_types(alloc, text, show, path, at, b"expected", b"got", failure),
        RuleCode::B6 => write_types(alloc, text, show, path, at, b"left", b"right", failure),
        _ => Ok(()),
    }
}

fn write_types(
    alloc: Global,
    text: &mut Vec<u8>,
    show: &Show<'_>,
    path: &[u8],
    at: Place,
    word: &[u8],
    other: &[u8],
    failure: Failure,
) -> Result<(), AllocError>
    ensures { OnOk result (text.new.items ≡ text.old.items ++ meaning.two_types (unit_shown show.now) path.now (at_of at) word.now other.now
        (failure_seen show.now.names.now show.now.types.now failure)) }
{
    write_type_line(alloc, text, show, path, at, word, failure.first)?;
    write_type_line(alloc, text, show, path, at, other, failure.second)
}

// `FILE:LINE:COLUMN:    WORD TYPE` on a line.
fn write_type_line(
    alloc: Global,
    text: &mut Vec<u8>,
    show: &Show<'_>,
    path: &[u8],
    at: Place,
    word: &[u8],
    of: Option<TypeId>,
) -> Result<(), AllocError>
    ensures { OnOk result (text.new.items ≡ text.old.items ++ meaning.of_type (meaning.line_of_type (unit_shown show.now) path.now (at_of at) word.now)
        (option_map (shown_type show.now.names.now show.now.types.now) of)) }
{
    let Some(of) = of else {
        return Ok(());
    };
    write_front(text, path, at)?;
    text.extend_from_slice(b"   ")?;
    text.extend_from_slice(word)?;
    text.push(b' ')?;
    write_type(alloc, text, show.names, show.types, of)?;
    text.push(b'\n')?;
    Ok(())
}
