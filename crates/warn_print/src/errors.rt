// The line of an error.
ghost use Rattle.std.specs.Prelude.{◌≡◌, ◌++◌, IfOk, OnOk};
ghost use Rattle.vocabulary.specs.Errors.{error_line};
ghost use Rattle.c_tokens.specs.Seen.{at_of, text_of};
ghost use Rattle.meaning_warnings.specs.Errors.{error_front, error_lines, told_word};

use crate::numbers::write_number;
use crate::places::write_front;
use crate::show::spelling_of;
use c_tokens::Names;
use sparse_model::{ErrorKind, NameId, Place};
use std::alloc::{AllocError, Global};

/// The line of an error at a place in the file with this path, with the word that its text names. A missing file has no
/// place, and its word is its path; the word of a syntax error is the token that isn't expected, or empty where the file
/// ends.
pub fn error_text(
    alloc: Global,
    names: &Names,
    path: NameId,
    kind: ErrorKind,
    at: Place,
    word: NameId,
) -> Result<Vec<u8>, AllocError>
    ensures { IfOk result (λ text. text.items ≡ error_lines kind (text_of names.now path) (at_of at) (text_of names.now word)) }
{
    let mut text = Vec::new(alloc);
    write_error_front(&mut text, spelling_of(names, path), kind, at)?;
    write_error(&mut text, kind, spelling_of(names, word))?;
    text.push(b'\n')?;
    Ok(text)
}

// Where the error stands.
fn write_error_front(
    text: &mut Vec<u8>,
    path: &[u8],
    kind: ErrorKind,
    at: Place,
) -> Result<(), AllocError>
    ensures { OnOk result (text.new.items ≡ text.old.items ++ error_front kind path.now (at_of at)) }
{
    match kind {
        ErrorKind::NoSuchFile => text.extend_from_slice(b"ksparse: "),
        _ => write_front(text, path, at),
    }
}

// `error[NUMBER]: TEXT`
fn write_error(text: &mut Vec<u8>, kind: ErrorKind, word: &[u8]) -> Result<(), AllocError>
    ensures { OnOk result (text.new.items ≡ text.old.items ++ error_line kind (told_word kind word.now)) }
{
    text.extend_from_slice(b"error[")?;
    write_number(text, u32::from(kind.number()))?;
    text.extend_from_slice(b"]: ")?;
    text.extend_from_slice(kind.front())?;
    write_word(text, kind, word)?;
    text.extend_from_slice(kind.back())
}

// The word that an error names.
fn write_word(text: &mut Vec<u8>, kind: ErrorKind, word: &[u8]) -> Result<(), AllocError>
    ensures { OnOk result (text.new.items ≡ text.old.items ++ told_word kind word.now) }
{
    match kind {
        ErrorKind::SyntaxError => write_unexpected(text, word),
        _ => text.extend_from_slice(word),
    }
}

// The token that isn't expected, or that the file ends.
fn write_unexpected(text: &mut Vec<u8>, word: &[u8]) -> Result<(), AllocError>
    ensures { OnOk result (text.new.items ≡ text.old.items ++ told_word ErrorKind.SyntaxError word.now) }
{
    if word.is_empty() {
        return text.extend_from_slice(b"end of file");
    }
    text.push(b'\'')?;
    text.extend_from_slice(word)?;
    text.push(b'\'')?;
    Ok(())
}
