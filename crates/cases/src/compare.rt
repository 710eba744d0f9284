// What a command left beside what is expected of it.
ghost use Rattle.std.specs.Prelude.{◌≡◌, ◌≢◌, take, slice_get, MatchOption, IfOk};
ghost use Rattle.cases.specs.Compare.{IsAsExpected, text_or};

use crate::command::{Expected, Stream};
use crate::program::Ran;
use bstr::ByteSlice;
use std::alloc::{AllocError, Global};

/// The first difference between what a command left and what is expected of it, in lines; none where it
/// left exactly that.
pub fn difference(
    alloc: Global,
    expected: &Expected,
    ran: &Ran,
) -> Result<Option<String>, AllocError>
    ensures { IfOk result (λ told. MatchOption told (IsAsExpected expected.now ran.now)
        (λ _. ¬ (IsAsExpected expected.now ran.now))) }
{
    let out = text_or(&expected.out, b"");
    if let Some(place) = first_difference(out, ran.out.bytes()) {
        return Ok(Some(shown(alloc, Stream::Out, place, out, ran.out.bytes())?));
    }
    let err = text_or(&expected.err, b"");
    if let Some(place) = first_difference(err, ran.err.bytes()) {
        return Ok(Some(shown(alloc, Stream::Err, place, err, ran.err.bytes())?));
    }
    let number = ran.status;
    let status = format!(in alloc; "{number}\n")?;
    let wanted = text_or(&expected.status, b"0\n");
    if let Some(place) = first_difference(wanted, status.as_bytes()) {
        return Ok(Some(shown(alloc, Stream::Status, place, wanted, status.as_bytes())?));
    }
    Ok(None)
}

// The text that a section says, or this one where none does.
fn text_or<'a>(text: &'a Option<Vec<u8>>, otherwise: &'static [u8]) -> &'a [u8]
    ensures { result.now ≡ text_or text.now otherwise.now }
{
    match text {
        Some(text) => text.as_slice(),
        None => otherwise,
    }
}

// The first place where two texts differ; none where they are equal.
fn first_difference(expected: &[u8], got: &[u8]) -> Option<usize>
    ensures { MatchOption result (expected.now ≡ got.now) (λ place.
        (take place expected.now ≡ take place got.now)
        × (slice_get expected.now place ≢ slice_get got.now place)) }
{
    let common = expected.len().min(got.len());
    for place in 0..common {
        if expected[place] != got[place] {
            return Some(place);
        }
    }
    if expected.len() == got.len() {
        None
    } else {
        Some(common)
    }
}

// Shows the lines that differ in this place, in quotation marks.
fn shown(
    alloc: Global,
    stream: Stream,
    place: usize,
    expected: &[u8],
    got: &[u8],
) -> Result<String, AllocError> {
    let before = expected
        .iter()
        .take(place)
        .filter(|byte| **byte == b'\n')
        .count();
    let line = before.saturating_add(1);
    let expected = line_behind(expected, before).as_bstr();
    let got = line_behind(got, before).as_bstr();
    let name = stream.name();
    format!(in alloc; "line {line} of {name}\n  expected {expected:?}\n  got      {got:?}")
}

// The line behind so many lines, which is empty behind the last one.
fn line_behind(text: &[u8], lines: usize) -> &[u8] {
    text.lines_with_terminator().nth(lines).unwrap_or(b"")
}
