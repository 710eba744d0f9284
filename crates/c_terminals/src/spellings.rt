// How a spelling is read where it is that of a word: a spelling arrives, and what it is to the grammar leaves, or that it is
// no word. Where it stands isn't known here.
ghost use Rattle.std.specs.Prelude.{◌≡◌, ◌∷◌, List, ℕ, map, option_map};
ghost use Rattle.meaning_grammar.specs.Words.{name_reading, word_reading};
ghost use Rattle.c_terminals.specs.Groups.{found_in, group_of, words_in};
ghost use Rattle.c_terminals.specs.Seen.{entry_seen, reading_seen, row_seen, word_entry};

use crate::reading::{Reading, of_class, refused};
use crate::rows::{BEHIND_R, UNDERSCORED, UP_TO_D, UP_TO_R, WordRow};
use vocabulary::{ErrorKind, TokenClass};

// Words by their first letter.
#[derive(Clone, Copy)]
enum Group {
    Underscored,
    UpToD,
    UpToR,
    BehindR,
}

fn group_of(text: &[u8]) -> Group
    ensures { result ≡ group_of text.now }
{
    match text.split_first() {
        None => Group::BehindR,
        Some((first, _)) => group_at(*first),
    }
}

// The group of the words that begin with this letter.
fn group_at(first: u8) -> Group
    ensures { (rest : List ℕ) → result ≡ group_of (first ∷ rest) }
{
    if first == b'_' {
        Group::Underscored
    } else if first <= b'd' {
        Group::UpToD
    } else if first <= b'r' {
        Group::UpToR
    } else {
        Group::BehindR
    }
}

fn rows_of(group: Group) -> &'static [WordRow]
    ensures { map row_seen result.now ≡ words_in group }
{
    match group {
        Group::Underscored => &UNDERSCORED,
        Group::UpToD => &UP_TO_D,
        Group::UpToR => &UP_TO_R,
        Group::BehindR => &BEHIND_R,
    }
}

// How the word of a row is read.
fn reading_of(row: &WordRow) -> Reading
    ensures { reading_seen result ≡ (row_seen row.now).reading }
{
    Reading {
        class: row.class,
        refusal: row.refusal,
    }
}

// The reading of the first of the rows that is spelled so.
fn found(rows: &[WordRow], text: &[u8]) -> Option<Reading>
    ensures { option_map reading_seen result ≡ found_in (map row_seen rows.now) text.now }
{
    for row in rows {
        if row.spelling == text {
            return Some(reading_of(row));
        }
    }
    None
}

// How a word is read that has no row.
fn name_reading(text: &[u8]) -> Reading
    ensures { reading_seen result ≡ name_reading text.now }
{
    if text.starts_with(b"__builtin_") {
        refused(ErrorKind::Builtin)
    } else if text.contains(&b'\\') {
        refused(ErrorKind::UniversalCharacterName)
    } else {
        of_class(TokenClass::Identifier)
    }
}

fn word_reading(text: &[u8]) -> Reading
    ensures { reading_seen result ≡ word_reading text.now }
{
    match found(rows_of(group_of(text)), text) {
        Some(reading) => reading,
        None => name_reading(text),
    }
}

/// How a spelling is read where it is that of a word: None for the one that is read over.
pub(crate) fn word_entry(text: &[u8]) -> Option<Reading>
    ensures { entry_seen result ≡ word_entry text.now }
{
    if text == b"__extension__".as_slice() {
        None
    } else {
        Some(word_reading(text))
    }
}
