// What an escaped text stands for.
ghost use Rattle.std.specs.Prelude.{◌≡◌, ◌<◌, ◌++◌, replicate, MatchOption, IfOk, IfSome, OnOk};
ghost use Rattle.cases.specs.Escapes.{step_of, begun_at, digit_of, may_end, unescaped_from};

use std::alloc::{AllocError, Global};

// What was read of an escape.
#[derive(Clone, Copy)]
enum State {
    // Nothing.
    Outside,
    // The backslash.
    Backslash,
    // A backslash and a new-line, behind which nothing may stand.
    End,
    // The backslash and the x.
    Hexadecimal,
    // That, and this digit.
    Digit(u8),
    // The backslash, a star, and the digits of this number.
    Count(u32),
    // That, and the second star.
    Times(u32),
}

// What a byte gives: the state behind it, and a byte that stands there so many times.
#[derive(Clone, Copy)]
struct Step {
    state: State,
    byte: u8,
    times: u32,
}

// No count has more digits than this number.
const MOST_COUNTED: u32 = 999_999;

impl State {
    // The step at this byte, or none where no escape goes on so.
    fn step(self, byte: u8) -> Option<Step>
        ensures { result ≡ step_of self byte }
    {
        match self {
            State::Outside if byte == b'\\' => Some(Step::into(State::Backslash)),
            State::Outside => Some(Step::of(byte, 1)),
            State::Backslash => begun(byte),
            State::End => None,
            State::Hexadecimal => Some(Step::into(State::Digit(byte))),
            State::Digit(high) => Some(Step::of(digit(high)? * 16 + digit(byte)?, 1)),
            State::Count(count) if byte == b'*' => Some(Step::into(State::Times(count))),
            State::Count(count) if byte.is_ascii_digit() && count <= MOST_COUNTED => Some(
                Step::into(State::Count(count * 10 + u32::from(byte - b'0'))),
            ),
            State::Count(_) => None,
            State::Times(count) => Some(Step::of(byte, count)),
        }
    }

    // Whether a text may end here.
    fn may_end(self) -> bool
        ensures { result ≡ may_end self }
    {
        match self {
            State::Outside => true,
            State::Backslash => true,
            State::End => true,
            State::Hexadecimal => false,
            State::Digit(_) => false,
            State::Count(_) => false,
            State::Times(_) => false,
        }
    }
}

impl Step {
    // Nothing stands there, and the escape goes on.
    fn into(state: State) -> Self
        ensures { result ≡ record { state = state; byte = 0; times = 0 } }
    {
        Step {
            state,
            byte: 0,
            times: 0,
        }
    }

    // The byte so many times, behind which no escape is begun.
    fn of(byte: u8, times: u32) -> Self
        ensures { result ≡ record { state = State.Outside; byte = byte; times = times } }
    {
        Step {
            state: State::Outside,
            byte,
            times,
        }
    }
}

// The step at the byte behind a backslash.
fn begun(byte: u8) -> Option<Step>
    ensures { result ≡ begun_at byte }
{
    match byte {
        b'0' => Some(Step::of(0, 1)),
        b'r' => Some(Step::of(b'\r', 1)),
        b'\\' => Some(Step::of(b'\\', 1)),
        b'x' => Some(Step::into(State::Hexadecimal)),
        b'*' => Some(Step::into(State::Count(0))),
        b'\n' => Some(Step::into(State::End)),
        _ => None,
    }
}

// The value of a hexadecimal digit.
fn digit(byte: u8) -> Option<u8>
    ensures value { result ≡ digit_of byte }
    ensures small { IfSome result (λ digit. digit < 16) }
{
    match byte {
        b'0'..=b'9' => Some(byte - b'0'),
        b'A'..=b'F' => Some(byte - b'A' + 10),
        _ => None,
    }
}

/// The bytes that a text stands for, or none where it has an escape that is none.
pub fn unescaped(alloc: Global, text: &[u8]) -> Result<Option<Vec<u8>>, AllocError>
    ensures { IfOk result (λ found. MatchOption found (unescaped_from State.Outside text.now ≡ None)
        (λ bytes. unescaped_from State.Outside text.now ≡ Some bytes.items)) }
{
    let mut bytes = Vec::new(alloc);
    let mut state = State::Outside;
    for byte in text {
        let Some(step) = state.step(*byte) else {
            return Ok(None);
        };
        push_times(&mut bytes, step.byte, step.times)?;
        state = step.state;
    }
    if state.may_end() {
        Ok(Some(bytes))
    } else {
        Ok(None)
    }
}

// Adds the byte so many times.
fn push_times(bytes: &mut Vec<u8>, byte: u8, times: u32) -> Result<(), AllocError>
    ensures { OnOk result (bytes.new.items ≡ bytes.old.items ++ replicate times byte) }
{
    for _time in 0..times {
        bytes.push(byte)?;
    }
    Ok(())
}
