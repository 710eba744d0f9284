// The definitions that stand before a text, a line each.
ghost use Rattle.std.specs.Prelude.{◌^◌, ◌<◌, ◌≤◌, All, IfOk, IfSome, List, ℕ, length};
ghost use Rattle.c_tokens.specs.Seen.{Extends, IsKnown};
ghost use Rattle.c_macros.specs.Seen.{KnowsAll};
ghost use Rattle.workbench.specs.Definitions.{text_behind};

use crate::lines::first_line;
use c_directives::{LineFault, define, undefine};
use c_macros::{MacroTable, known_tables_stay_known};
use c_tokens::{LexFault, Names, Token, lex};
use sparse_model::ErrorKind;
use std::alloc::{AllocError, Global};

/// What stands in the first lines of a text.
#[derive(Clone, Copy)]
pub(crate) enum Definitions<'t> {
    /// Definitions, which are done; behind them stands this text.
    Behind(&'t [u8]),
    /// The definition of this line, counted from 1, is none for this reason.
    Refused(usize, ErrorKind),
    /// A comment or a literal of the line's definition is never closed.
    Open(usize),
}

/// How a line was taken.
#[derive(Clone, Copy)]
enum Outcome {
    /// It is no definition.
    Text,
    Done,
    Refused(ErrorKind),
    Open,
}

/// Does the definitions before a text: the lines that begin with `#define` or `#undef`, and a space behind.
pub(crate) fn read_definitions<'t>(
    alloc: Global,
    names: &mut Names,
    table: &mut MacroTable,
    text: &'t [u8],
) -> Result<Definitions<'t>, AllocError>
    requires size { length text.now < 2 ^ 30 }
    requires known { KnowsAll names.old table.old }
    ensures known { KnowsAll names.new table.new }
    ensures size { IfOk result (λ found. length (text_behind found) < 2 ^ 30) }
{
    let mut rest = text;
    let mut number: usize = 0;
    'lines: while !rest.is_empty() {
        let (line, others) = first_line(rest);
        number = number.saturating_add(1);
        match take_line(alloc, names, table, line)? {
            Outcome::Text => return Ok(Definitions::Behind(rest)),
            Outcome::Done => rest = others,
            Outcome::Refused(kind) => return Ok(Definitions::Refused(number, kind)),
            Outcome::Open => return Ok(Definitions::Open(number)),
        }
    }
    Ok(Definitions::Behind(rest))
}

// Does a line, where it is a definition.
fn take_line(
    alloc: Global,
    names: &mut Names,
    table: &mut MacroTable,
    line: &[u8],
) -> Result<Outcome, AllocError>
    requires size { length line.now < 2 ^ 30 }
    requires known { KnowsAll names.old table.old }
    ensures known { KnowsAll names.new table.new }
{
    if let Some(behind) = line.strip_prefix(b"#define ") {
        return take_define(alloc, names, table, behind);
    }
    if let Some(behind) = line.strip_prefix(b"#undef ") {
        return take_undef(alloc, names, table, behind);
    }
    Ok(Outcome::Text)
}

fn take_define(
    alloc: Global,
    names: &mut Names,
    table: &mut MacroTable,
    behind: &[u8],
) -> Result<Outcome, AllocError>
    requires size { length behind.now < 2 ^ 30 }
    requires known { KnowsAll names.old table.old }
    ensures known { KnowsAll names.new table.new }
{
    known_tables_stay_known();
    let Some(tokens) = tokens_of(alloc, names, 0, behind)? else {
        return Ok(Outcome::Open);
    };
    outcome_of(define(alloc, names, table, &tokens))
}

fn take_undef(
    alloc: Global,
    names: &mut Names,
    table: &mut MacroTable,
    behind: &[u8],
) -> Result<Outcome, AllocError>
    requires size { length behind.now < 2 ^ 30 }
    requires known { KnowsAll names.old table.old }
    ensures known { KnowsAll names.new table.new }
{
    known_tables_stay_known();
    let Some(tokens) = tokens_of(alloc, names, 0, behind)? else {
        return Ok(Outcome::Open);
    };
    outcome_of(undefine(names, table, &tokens))
}

// How a definition was taken.
fn outcome_of(done: Result<(), LineFault>) -> Result<Outcome, AllocError> {
    match done {
        Ok(()) => Ok(Outcome::Done),
        Err(LineFault::Refused(kind, _)) => Ok(Outcome::Refused(kind)),
        Err(LineFault::Memory) => Err(AllocError),
    }
}

/// The tokens of a text in the file of this number, or none where a comment or a literal is never closed.
pub(crate) fn tokens_of(
    alloc: Global,
    names: &mut Names,
    file: u32,
    text: &[u8],
) -> Result<Option<Vec<Token>>, AllocError>
    requires { length text.now < 2 ^ 30 }
    ensures known { IfOk result (λ found. IfSome found (λ tokens. All (λ token. IsKnown names.new token.name) tokens.items)) }
    ensures keeps { Extends names.old names.new }
{
    match lex(alloc, names, file, text) {
        Ok(tokens) => Ok(Some(tokens)),
        Err(LexFault::OpenComment(_) | LexFault::OpenLiteral(_)) => Ok(None),
        Err(LexFault::Memory) => Err(AllocError),
    }
}
