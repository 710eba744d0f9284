// Lists of attributes and context statements, a line each, and what they mean, each in a line.
ghost use Rattle.std.specs.Prelude.{◌^◌, ◌<◌, length};

use crate::lines::first_line;
use c_attrs::{AttrFault, Attrs, ChangeFault, context_change, read_attrs};
use c_tokens::{LexFault, Names, Token, lex};
use sparse_model::{ContextEntry, Space};
use std::alloc::{AllocError, Global};
use type_workbench::word_of;

/// What the tokens of a line are taken as, which stand between parentheses.
#[derive(Clone, Copy)]
pub enum Between {
    /// A list of attributes, which comes to something together.
    Attributes,
    /// A context statement, which has a change.
    Statement,
}

/// What the lines mean, in a line each; or why they mean nothing, with the index of a word of the line.
pub fn attribute_lines(alloc: Global, between: Between, text: &[u8]) -> Result<Vec<u8>, AllocError>
    requires { length text.now < 2 ^ 30 }
{
    let mut names = Names::new(alloc)?;
    let mut shown = Vec::new(alloc);
    let mut rest = text;
    'lines: while !rest.is_empty() {
        let (line, others) = first_line(rest);
        let told = told_line(alloc, &mut names, between, line)?;
        shown.extend_from_slice(&told)?;
        shown.push(b'\n')?;
        rest = others;
    }
    Ok(shown)
}

// What a line means.
fn told_line(
    alloc: Global,
    names: &mut Names,
    between: Between,
    line: &[u8],
) -> Result<Vec<u8>, AllocError>
    requires { length line.now < 2 ^ 30 }
{
    let tokens = match lex(alloc, names, 1, line) {
        Ok(tokens) => tokens,
        Err(LexFault::Memory) => return Err(AllocError),
        Err(LexFault::OpenComment(_) | LexFault::OpenLiteral(_)) => {
            return Ok(Vec::from_slice(alloc, b"no tokens")?);
        }
    };
    match between {
        Between::Attributes => list_line(alloc, names, &tokens),
        Between::Statement => change_line(alloc, context_change(names, &tokens)),
    }
}

// What a list comes to.
fn list_line(alloc: Global, names: &Names, tokens: &[Token]) -> Result<Vec<u8>, AllocError>
    requires { length tokens.now < 2 ^ 30 }
{
    let mut attrs = Attrs::new(alloc);
    match read_attrs(alloc, names, tokens, &mut attrs) {
        Ok(()) => attrs_line(alloc, names, &attrs),
        Err(
            fault @ (AttrFault::BadSpace(word)
            | AttrFault::BadContext(word)
            | AttrFault::BadAlign(word)),
        ) => Ok(format!(in alloc; "at {word}: {fault}")?.into_bytes()),
        Err(fault @ AttrFault::StepLimit) => Ok(format!(in alloc; "{fault}")?.into_bytes()),
        Err(AttrFault::Memory) => Err(AllocError),
    }
}

fn change_line(alloc: Global, change: Result<i64, ChangeFault>) -> Result<Vec<u8>, AllocError> {
    match change {
        Ok(change) => Ok(format!(in alloc; "{change}")?.into_bytes()),
        Err(fault) => Ok(format!(in alloc; "{fault}")?.into_bytes()),
    }
}

// What attributes say, with a comma between two.
fn attrs_line(alloc: Global, names: &Names, attrs: &Attrs) -> Result<Vec<u8>, AllocError> {
    let mut line = Vec::new(alloc);
    push_space(alloc, &mut line, names, attrs.space)?;
    push_flags(&mut line, attrs)?;
    if let Some(align) = attrs.align {
        push_part(&mut line, format!(in alloc; "align {align}")?.as_bytes())?;
    }
    for ContextEntry { enters, leaves } in attrs.contexts.as_slice() {
        push_part(
            &mut line,
            format!(in alloc; "context {enters} to {leaves}")?.as_bytes(),
        )?;
    }
    if line.is_empty() {
        line.extend_from_slice(b"nothing")?;
    }
    Ok(line)
}

fn push_space(
    alloc: Global,
    line: &mut Vec<u8>,
    names: &Names,
    space: Space,
) -> Result<(), AllocError> {
    match space {
        Space::None => Ok(()),
        Space::Number(number) => {
            push_part(line, format!(in alloc; "space number {number}")?.as_bytes())
        }
        Space::Named(name) => {
            push_part(line, b"space ")?;
            line.extend_from_slice(word_of(names, name))
        }
    }
}

fn push_flags(line: &mut Vec<u8>, attrs: &Attrs) -> Result<(), AllocError> {
    if attrs.noderef {
        push_part(line, b"noderef")?;
    }
    if attrs.bitwise {
        push_part(line, b"bitwise")?;
    }
    if attrs.force {
        push_part(line, b"force")?;
    }
    if attrs.packed {
        push_part(line, b"packed")?;
    }
    if attrs.noreturn {
        push_part(line, b"noreturn")?;
    }
    Ok(())
}

// Appends a part, behind a comma where others stand before it.
fn push_part(line: &mut Vec<u8>, part: &[u8]) -> Result<(), AllocError> {
    if !line.is_empty() {
        line.extend_from_slice(b", ")?;
    }
    line.extend_from_slice(part)
}
