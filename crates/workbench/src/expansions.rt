// Definitions and a text to the tokens that it becomes, shown in a line, and the budget that is left, in
// another.
ghost use Rattle.std.specs.Prelude.{◌^◌, ◌<◌, All, length};
ghost use Rattle.c_tokens.specs.Seen.{IsKnown};
ghost use Rattle.c_macros.specs.Seen.{KnowsAll};
ghost use Rattle.workbench.specs.Asked.{MayExpand};

use crate::asked::Asked;
use crate::definitions::{Definitions, read_definitions, tokens_of};
use c_macros::{Budget, ExpandFault, MacroTable, expand, known_tables_stay_known};
use c_tokens::{Names, Token};
use sparse_model::{ErrorKind, Place};
use std::alloc::{AllocError, Global};

/// The number of the text's file.
const TEXT: u32 = 1;

/// What a text becomes behind the definitions that stand before it, a line each. The text's own lines are
/// counted from 1.
pub fn expand_text(alloc: Global, asked: Asked<'_>, text: &[u8]) -> Result<Vec<u8>, AllocError>
    requires size { length text.now < 2 ^ 30 }
    requires sum { MayExpand asked }
{
    let mut names = Names::new(alloc)?;
    let mut table = MacroTable::new(alloc);
    if let Some(spelled) = asked.spelled {
        let id = names.intern(spelled)?;
        table.set_file(TEXT, id)?;
    }
    match read_definitions(alloc, &mut names, &mut table, text)? {
        Definitions::Behind(text) => expand_behind(alloc, asked, &mut names, &table, text),
        Definitions::Refused(line, kind) => {
            let number = kind.number();
            Ok(format!(in alloc; "line {line}: error[{number}]\n")?.into_bytes())
        }
        Definitions::Open(line) => Ok(format!(in alloc; "line {line}: no tokens\n")?.into_bytes()),
    }
}

// What a text becomes.
fn expand_behind(
    alloc: Global,
    asked: Asked<'_>,
    names: &mut Names,
    table: &MacroTable,
    text: &[u8],
) -> Result<Vec<u8>, AllocError>
    requires size { length text.now < 2 ^ 30 }
    requires sum { MayExpand asked }
    requires known { KnowsAll names.old table.now }
{
    known_tables_stay_known();
    let Some(tokens) = tokens_of(alloc, names, TEXT, text)? else {
        return Ok(Vec::from_slice(alloc, b"no tokens\n")?);
    };
    let mut budget = asked.budget;
    match expand(alloc, table, names, &tokens, &mut budget) {
        Ok(made) => shown(alloc, names, &made, asked.places, budget),
        Err(fault) => fault_line(alloc, fault),
    }
}

// The line of the tokens, and that of the budget.
fn shown(
    alloc: Global,
    names: &Names,
    made: &[Token],
    places: bool,
    left: Budget,
) -> Result<Vec<u8>, AllocError>
    requires { All (λ token. IsKnown names.now token.name) made.now }
{
    let mut text = Vec::new(alloc);
    for (before, token) in made.iter().enumerate() {
        if before > 0 {
            text.push(b' ')?;
        }
        text.extend_from_slice(names.spelling(token.name))?;
        if places {
            let Place { line, column, .. } = token.place;
            text.extend_from_slice(format!(in alloc; "@{line}:{column}")?.as_bytes())?;
        }
    }
    let Budget {
        replacements,
        tokens,
        counter,
    } = left;
    let left = format!(in alloc;
        "\nleft {replacements} replacements, {tokens} tokens; counter {counter}\n"
    )?;
    text.extend_from_slice(left.as_bytes())?;
    Ok(text)
}

// The line of a fault: what it is, where, and behind how many tokens.
fn fault_line(alloc: Global, fault: ExpandFault) -> Result<Vec<u8>, AllocError> {
    match fault {
        ExpandFault::Arguments { place, before } => {
            placed_line(alloc, ErrorKind::WrongNumberOfMacroArguments, place, before)
        }
        ExpandFault::OpenCall { place, before } => {
            placed_line(alloc, ErrorKind::UnterminatedMacroCall, place, before)
        }
        ExpandFault::BadPaste { place, before } => {
            placed_line(alloc, ErrorKind::BadPaste, place, before)
        }
        ExpandFault::Limit { limit, before } => {
            let behind = format!(in alloc; " are passed behind {before}\n")?;
            line_of(alloc, limit.name(), behind.as_bytes())
        }
        ExpandFault::Memory => Err(AllocError),
    }
}

fn placed_line(
    alloc: Global,
    kind: ErrorKind,
    place: Place,
    before: usize,
) -> Result<Vec<u8>, AllocError> {
    let Place { line, column, .. } = place;
    let behind = format!(in alloc; " at {line}:{column} behind {before}\n")?;
    line_of(alloc, kind.front(), behind.as_bytes())
}

fn line_of(alloc: Global, front: &[u8], behind: &[u8]) -> Result<Vec<u8>, AllocError> {
    let mut line = Vec::from_slice(alloc, front)?;
    line.extend_from_slice(behind)?;
    Ok(line)
}
