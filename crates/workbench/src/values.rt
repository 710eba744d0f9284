// Lines of a text to the values that they have behind an `#if`, each shown in a line.
ghost use Rattle.std.specs.Prelude.{◌≡◌, ◌^◌, ◌<◌, ◌++◌, IfOk, OnOk, length};
ghost use Rattle.std.specs.Fmt.{decimal};
ghost use Rattle.workbench.specs.Shown.{IsShownOf, number_text, shown_line};

use crate::lines::first_line;
use c_conditions::{IfFault, IfNumber, if_value};
use c_tokens::{LexFault, Names, lex};
use itoa::Buffer;
use std::alloc::{AllocError, Global};

/// What is shown of a line.
#[derive(Clone, Copy)]
pub enum Shown {
    /// Its value.
    Value(IfNumber),
    /// The index of the token at which it is no expression any more.
    BadExpression(u32),
    /// The index of the operator that divides by 0.
    ZeroDivisor(u32),
    /// A comment or a literal of it is never closed.
    NoTokens,
}

/// The values of the lines, in a line each. A line is read by itself.
pub fn if_values(alloc: Global, text: &[u8]) -> Result<Vec<u8>, AllocError>
    requires { length text.now < 2 ^ 30 }
{
    let mut shown = Vec::new(alloc);
    let mut rest = text;
    'lines: while !rest.is_empty() {
        let (line, others) = first_line(rest);
        push_line(&mut shown, answer_line(alloc, line)?)?;
        rest = others;
    }
    Ok(shown)
}

/// What is shown of a line.
pub fn answer_line(alloc: Global, line: &[u8]) -> Result<Shown, AllocError>
    requires { length line.now < 2 ^ 30 }
    ensures { IfOk result (IsShownOf line.now) }
{
    let mut names = Names::new(alloc)?;
    let tokens = match lex(alloc, &mut names, 1, line) {
        Ok(tokens) => tokens,
        Err(LexFault::Memory) => return Err(AllocError),
        Err(LexFault::OpenComment(_) | LexFault::OpenLiteral(_)) => return Ok(Shown::NoTokens),
    };
    match if_value(alloc, &names, tokens.as_slice()) {
        Ok(number) => Ok(Shown::Value(number)),
        Err(IfFault::BadExpression(index)) => Ok(Shown::BadExpression(index)),
        Err(IfFault::ZeroDivisor(index)) => Ok(Shown::ZeroDivisor(index)),
        Err(IfFault::Memory) => Err(AllocError),
    }
}

// Appends what is shown of a line.
fn push_line(text: &mut Vec<u8>, shown: Shown) -> Result<(), AllocError>
    ensures { OnOk result (text.new.items ≡ text.old.items ++ shown_line shown) }
{
    match shown {
        Shown::Value(number) => push_number(text, number)?,
        Shown::BadExpression(index) => push_indexed(text, b"bad expression at ", index)?,
        Shown::ZeroDivisor(index) => push_indexed(text, b"zero divisor at ", index)?,
        Shown::NoTokens => text.extend_from_slice(b"no tokens")?,
    }
    text.push(b'\n')?;
    Ok(())
}

fn push_number(text: &mut Vec<u8>, number: IfNumber) -> Result<(), AllocError>
    ensures { OnOk result (text.new.items ≡ text.old.items ++ number_text number) }
{
    let mut buffer = Buffer::new();
    if number.unsigned {
        text.extend_from_slice(buffer.format(number.bits).as_bytes())?;
        text.push(b'u')?;
        Ok(())
    } else {
        text.extend_from_slice(buffer.format(number.bits.cast_signed()).as_bytes())
    }
}

fn push_indexed(text: &mut Vec<u8>, front: &[u8], index: u32) -> Result<(), AllocError>
    ensures { OnOk result (text.new.items ≡ text.old.items ++ front.now ++ decimal index) }
{
    let mut buffer = Buffer::new();
    text.extend_from_slice(front)?;
    text.extend_from_slice(buffer.format(index).as_bytes())
}
