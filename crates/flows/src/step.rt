// Steps at the front of a text.
ghost use Rattle.std.specs.Prelude.{◌≡◌, ◌<◌, ◌≤◌, IfErr, IfOk, length};
ghost use Rattle.control_flow.specs.Seen.{step_of};
ghost use Rattle.flows.specs.Reading.{Reads, Fails};
ghost use Rattle.flows.specs.Steps.{call_at, count_at, is_letter, step_at, step_with};

use crate::number::{behind_mark, read_number, read_signed};
use crate::wrong::{Fault, Wrong, fault_at};
use control_flow::Step;

/// A step, and the text behind it.
pub(crate) fn read_step(text: &[u8]) -> Result<(Step, &[u8]), Fault>
    ensures reads { IfOk result (λ read. step_at text.now ≡ Reads (step_of read.0) read.1.now) }
    ensures fails { IfErr result (λ fault. step_at text.now ≡ Fails fault.wrong fault.left) }
    ensures shorter { IfOk result (λ read. length read.1.now < length text.now) }
{
    match text.split_first() {
        Some((letter, others)) if is_letter(*letter) => {
            let (token, rest) = read_number(others, 4_294_967_295)?;
            read_step_with(*letter, token as u32, rest)
        }
        _ => Err(fault_at(text, Wrong::NoStep)),
    }
}

fn is_letter(byte: u8) -> bool
    ensures { result ≡ is_letter byte }
{
    matches!(byte, b'P' | b'M' | b'A' | b'C' | b'E')
}

// What stands behind the letter of a step and its token.
fn read_step_with(letter: u8, token: u32, text: &[u8]) -> Result<(Step, &[u8]), Fault>
    ensures reads { IfOk result (λ read. step_with letter token text.now ≡ Reads (step_of read.0) read.1.now) }
    ensures fails { IfErr result (λ fault. step_with letter token text.now ≡ Fails fault.wrong fault.left) }
    ensures shorter { IfOk result (λ read. length read.1.now ≤ length text.now) }
{
    match letter {
        b'P' => Ok((Step::Point(token, false), text)),
        b'M' => Ok((Step::Point(token, true), text)),
        b'A' => {
            let (by, rest) = read_signed(text)?;
            Ok((Step::Add(token, by), rest))
        }
        b'C' => read_call(token, text),
        _ => Ok((Step::End(token), text)),
    }
}

// The counts of a call, in parentheses.
fn read_call(token: u32, text: &[u8]) -> Result<(Step, &[u8]), Fault>
    ensures reads { IfOk result (λ read. call_at token text.now ≡ Reads (step_of read.0) read.1.now) }
    ensures fails { IfErr result (λ fault. call_at token text.now ≡ Fails fault.wrong fault.left) }
    ensures shorter { IfOk result (λ read. length read.1.now < length text.now) }
{
    let (enters, rest) = read_count(text, b'(', Wrong::NoOpening)?;
    let (leaves, rest) = read_count(rest, b',', Wrong::NoComma)?;
    let rest = behind_mark(rest, b')', Wrong::NoClosing)?;
    Ok((Step::Call(token, enters, leaves), rest))
}

// A count behind this mark.
fn read_count(text: &[u8], mark: u8, wrong: Wrong) -> Result<(i64, &[u8]), Fault>
    ensures reads { IfOk result (λ read. count_at mark wrong text.now ≡ Reads read.0 read.1.now) }
    ensures fails { IfErr result (λ fault. count_at mark wrong text.now ≡ Fails fault.wrong fault.left) }
    ensures shorter { IfOk result (λ read. length read.1.now < length text.now) }
{
    let rest = behind_mark(text, mark, wrong)?;
    read_signed(rest)
}
