// A file to its preprocessed unit, shown as the text that its tokens spell or by the names that its `#if` lines leave, or to
// the line of the error or the limit at which it ends.
ghost use Rattle.std.specs.Prelude.{◌≡◌, All, IsErrOf};
ghost use Rattle.meaning_outside.specs.Faults.{Told};
ghost use Rattle.c_tokens.specs.Seen.{IsKnown};

use crate::command::Stop;
use crate::texts::texts_of;
use c_preproc::{PreFault, UnitTokens, preprocess};
use c_tokens::{Names, Token};
use sparse_model::{Bytes, ClassSet, ErrorKind, Options, PathList, Place};
use sparse_outside::Files;
use std::alloc::{AllocError, Global};
use type_workbench::word_of;

/// What is shown of a unit.
#[derive(Clone, Copy)]
pub(crate) enum View {
    /// The text that its tokens spell.
    Text,
    /// The failures of its `#if` lines, each with the name that was left.
    LeftNames,
    /// The texts that commands among its tokens ask for.
    Texts,
}

/// What becomes of the file at a path, without directories or definitions from words.
///
/// # Errors
/// `ReadFault` exactly where the count of faults rose; `NoMemory`.
pub(crate) fn preprocessed<F: Files>(
    alloc: Global,
    view: View,
    path: &[u8],
    files: &mut F,
) -> Result<Vec<u8>, Stop>
    ensures read { Told (F.faults files.old) (F.faults files.new) (IsErrOf result Stop.ReadFault) }
    ensures keeps { F.holds files.new ≡ F.holds files.old }
{
    let options = Options {
        dirs: PathList::new(alloc),
        commands: Bytes::new(alloc),
        classes: ClassSet::new(alloc),
    };
    let mut names = Names::new(alloc)?;
    match preprocess(alloc, &options, files, &mut names, path) {
        Ok(unit) => Ok(view.shown(alloc, &names, &unit)?),
        Err(PreFault::Error(kind, place, word, path)) => {
            let path = names.spelling(path);
            let word = names.spelling(word);
            Ok(error_line(alloc, path, place, kind, word)?)
        }
        Err(PreFault::Limit(kind)) => Ok(limit_line(alloc, kind.name())?),
        Err(PreFault::ReadFault) => Err(Stop::ReadFault),
        Err(PreFault::Memory) => Err(Stop::NoMemory),
    }
}

impl View {
    fn shown(self, alloc: Global, names: &Names, unit: &UnitTokens) -> Result<Vec<u8>, AllocError>
        requires { All (λ token. IsKnown names.now token.name) unit.now.tokens }
    {
        match self {
            View::Text => unit_text(alloc, names, unit),
            View::LeftNames => left_names(alloc, names, unit),
            View::Texts => texts_of(alloc, names, unit),
        }
    }
}

// A line for each failure.
fn left_names(alloc: Global, names: &Names, unit: &UnitTokens) -> Result<Vec<u8>, AllocError> {
    let mut text = Vec::new(alloc);
    for failure in unit.undefs.as_slice() {
        let line = left_line(alloc, names, unit, failure.token)?;
        text.extend_from_slice(line.as_slice())?;
    }
    Ok(text)
}

// The number of a failure's token among the names that were left, then that name's place, and the name.
fn left_line(
    alloc: Global,
    names: &Names,
    unit: &UnitTokens,
    number: u32,
) -> Result<Vec<u8>, AllocError> {
    let Some(token) = unit.undef_tokens.as_slice().get(number as usize) else {
        return Ok(Vec::new(alloc));
    };
    let Place { line, column, .. } = token.place;
    let mut text = format!(in alloc; "{number} ")?.into_bytes();
    text.extend_from_slice(path_of(names, unit, token.place))?;
    let place = format!(in alloc; ":{line}:{column}: ")?;
    text.extend_from_slice(place.as_bytes())?;
    text.extend_from_slice(word_of(names, token.name))?;
    text.push(b'\n')?;
    Ok(text)
}

// The path of a place's file.
fn path_of<'n>(names: &'n Names, unit: &UnitTokens, place: Place) -> &'n [u8] {
    match unit.files.as_slice().get(place.file as usize) {
        Some(&path) => word_of(names, path),
        None => &[],
    }
}

// The tokens, each in a line of its own where its file or line is another one than that of the token before, else behind
// a space; and a last new-line.
fn unit_text(alloc: Global, names: &Names, unit: &UnitTokens) -> Result<Vec<u8>, AllocError>
    requires { All (λ token. IsKnown names.now token.name) unit.now.tokens }
{
    let mut text = Vec::new(alloc);
    let mut before: Option<Token> = None;
    for token in unit.tokens.as_slice() {
        if let Some(last) = before {
            text.push(separator(last.place, token.place))?;
        }
        text.extend_from_slice(names.spelling(token.name))?;
        before = Some(*token);
    }
    if before.is_some() {
        text.push(b'\n')?;
    }
    Ok(text)
}

// What stands between two tokens.
fn separator(last: Place, next: Place) -> u8 {
    if last.file == next.file && last.line == next.line {
        b' '
    } else {
        b'\n'
    }
}

// The line of an error: where it stands, its number and its text.
fn error_line(
    alloc: Global,
    path: &[u8],
    place: Place,
    kind: ErrorKind,
    word: &[u8],
) -> Result<Vec<u8>, AllocError> {
    let mut text = Vec::from_slice(alloc, path)?;
    let Place { line, column, .. } = place;
    let number = kind.number();
    let front = format!(in alloc; ":{line}:{column}: error[{number}]: ")?;
    text.extend_from_slice(front.as_bytes())?;
    text.extend_from_slice(kind.front())?;
    text.extend_from_slice(word)?;
    text.extend_from_slice(kind.back())?;
    text.push(b'\n')?;
    Ok(text)
}

// The line of a limit.
fn limit_line(alloc: Global, name: &[u8]) -> Result<Vec<u8>, AllocError> {
    let mut text = Vec::from_slice(alloc, b"limit: ")?;
    text.extend_from_slice(name)?;
    text.push(b'\n')?;
    Ok(text)
}
