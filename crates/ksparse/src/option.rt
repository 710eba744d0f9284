// One word of a command: which option it is, an operand, or a word that no rule allows.
ghost use Rattle.std.specs.Prelude.{◌≡◌, ◌≤◌, length, true};
ghost use Rattle.meaning_answer.specs.Options as meaning;
ghost use Rattle.ksparse.specs.Options.{word_seen};

use crate::class_names::class_named;
use crate::identifier::is_identifier;
use sparse_model::Class;

/// A class that a word switches.
#[derive(Clone, Copy, Debug, PartialEq, Eq)]
pub(crate) struct Switch {
    pub(crate) class: Class,
    pub(crate) on: bool,
}

/// What a word is.
#[derive(Clone, Copy, Debug)]
pub(crate) enum Word<'w> {
    /// `-E`
    AsksForTokens,
    /// `-IDIR`
    AddsDirectory(&'w [u8]),
    /// `-DNAME` and `-DNAME=TEXT`: the name and its text.
    Defines(&'w [u8], &'w [u8]),
    /// `-UNAME`
    Undefines(&'w [u8]),
    /// `-WCLASS` and `-Wno-CLASS`
    Switches(Switch),
    /// A path.
    Operand,
    /// No rule allows it.
    Strange,
}

/// What a word is.
pub(crate) fn read_word(word: &[u8]) -> Word<'_>
    ensures { word_seen result ≡ meaning.word_of word.now }
{
    match word.split_first() {
        Some((&byte, bytes)) => {
            if byte == b'-' {
                read_option(bytes)
            } else {
                Word::Operand
            }
        }
        None => Word::Operand,
    }
}

// What stands behind the hyphen.
fn read_option(bytes: &[u8]) -> Word<'_>
    ensures { word_seen result ≡ meaning.option_word bytes.now }
{
    match bytes.split_first() {
        Some((&letter, value)) => read_lettered(letter, value),
        None => Word::Strange,
    }
}

// An option by its letter.
fn read_lettered(letter: u8, value: &[u8]) -> Word<'_>
    ensures { word_seen result ≡ meaning.lettered_word letter value.now }
{
    if letter == b'E' {
        return read_tokens(value);
    }
    if letter == b'I' {
        return read_directory(value);
    }
    if letter == b'D' {
        return read_definition(value);
    }
    if letter == b'U' {
        return read_undefinition(value);
    }
    if letter == b'W' {
        return read_class(value);
    }
    Word::Strange
}

fn read_tokens(value: &[u8]) -> Word<'_>
    ensures { word_seen result ≡ meaning.tokens_word value.now }
{
    match value.split_first() {
        Some(_) => Word::Strange,
        None => Word::AsksForTokens,
    }
}

// A directory isn't empty.
fn read_directory(value: &[u8]) -> Word<'_>
    ensures { word_seen result ≡ meaning.directory_word value.now }
{
    match value.split_first() {
        Some(_) => Word::AddsDirectory(value),
        None => Word::Strange,
    }
}

// A name, and behind an `=` a text without a new-line.
fn read_definition(value: &[u8]) -> Word<'_>
    ensures { word_seen result ≡ meaning.define_word value.now }
{
    let (name, behind) = value.split_at(name_length(value));
    let text = macro_text(behind);
    if is_identifier(name) && !has_new_line(text) {
        Word::Defines(name, text)
    } else {
        Word::Strange
    }
}

// The text of a macro: `1` where none is given.
fn macro_text(behind: &[u8]) -> &[u8]
    ensures { result.now ≡ meaning.macro_text behind.now }
{
    match behind.split_first() {
        Some((_, text)) => text,
        None => b"1",
    }
}

// How many bytes stand before the first `=`.
fn name_length(value: &[u8]) -> usize
    ensures length { result ≡ meaning.name_length value.now }
    ensures within { result ≤ length value.now }
{
    let mut count = 0;
    'bytes: while count < value.len() && value[count] != b'=' {
        count += 1;
    }
    count
}

fn has_new_line(text: &[u8]) -> bool
    ensures { result ≡ meaning.has_new_line text.now }
{
    let mut left = text;
    'bytes: while let Some((&byte, others)) = left.split_first() {
        if byte == b'\n' {
            return true;
        }
        left = others;
    }
    false
}

fn read_undefinition(name: &[u8]) -> Word<'_>
    ensures { word_seen result ≡ meaning.undef_word name.now }
{
    if is_identifier(name) {
        Word::Undefines(name)
    } else {
        Word::Strange
    }
}

// The name of a class, with `no-` before it or without.
fn read_class(value: &[u8]) -> Word<'_>
    ensures { word_seen result ≡ meaning.class_word value.now }
{
    if begins_with_no(value) {
        switched(class_named(&value[3..]), false)
    } else {
        switched(class_named(value), true)
    }
}

fn begins_with_no(value: &[u8]) -> bool
    ensures begins { result ≡ meaning.begins_with_no value.now }
    ensures within { result ≡ true → 3 ≤ length value.now }
{
    value.len() >= 3 && value[0] == b'n' && value[1] == b'o' && value[2] == b'-'
}

fn switched<'w>(class: Option<Class>, on: bool) -> Word<'w>
    ensures { word_seen result ≡ meaning.switch_of on class }
{
    match class {
        Some(class) => Word::Switches(Switch { class, on }),
        None => Word::Strange,
    }
}
