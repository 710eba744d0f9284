// The words of attributes: a spelling arrives, and what it says leaves. What stands behind the word isn't known here.
ghost use Rattle.std.specs.Prelude.{◌≡◌, ◌≢◌, ◌++◌, List, ℕ, MatchOption, codes};
ghost use Rattle.meaning_attributes.specs.Words.{attribute_word, flag_word, is_named};
ghost use Rattle.c_attrs.specs.Meanings.{word_seen};

use crate::attribute::Flag;

/// What an item is of, by its word.
#[derive(Clone, Copy, Debug, PartialEq, Eq)]
pub(crate) enum Word {
    AddressSpace,
    Context,
    Aligned,
    Flag(Flag),
    /// Another word means nothing.
    Other,
}

/// The word that is spelled so.
pub(crate) fn attribute_word(text: &[u8]) -> Word
    ensures { word_seen result ≡ attribute_word text.now }
{
    if is_named(text, b"address_space") {
        Word::AddressSpace
    } else if is_named(text, b"context") {
        Word::Context
    } else if is_named(text, b"aligned") {
        Word::Aligned
    } else {
        flag_word(text)
    }
}

fn flag_word(text: &[u8]) -> Word
    ensures { word_seen result ≡ flag_word text.now }
{
    if is_named(text, b"noderef") {
        Word::Flag(Flag::Noderef)
    } else if is_named(text, b"bitwise") {
        Word::Flag(Flag::Bitwise)
    } else if is_named(text, b"force") {
        Word::Flag(Flag::Force)
    } else if is_named(text, b"packed") {
        Word::Flag(Flag::Packed)
    } else if is_named(text, b"noreturn") {
        Word::Flag(Flag::Noreturn)
    } else {
        Word::Other
    }
}

// Spelled so, or with `__` before and behind it.
fn is_named(text: &[u8], word: &[u8]) -> bool
    ensures { result ≡ is_named word.now text.now }
{
    if text == word {
        return true;
    }
    match between_underscores(text) {
        Some(plain) => plain == word,
        None => false,
    }
}

// What stands between two underscores before and two behind.
fn between_underscores(text: &[u8]) -> Option<&[u8]>
    ensures { MatchOption result
        ((plain : List ℕ) → text.now ≢ codes "__" ++ plain ++ codes "__")
        (λ plain. text.now ≡ codes "__" ++ plain.now ++ codes "__") }
{
    match text.strip_prefix(b"__") {
        Some(behind) => behind.strip_suffix(b"__"),
        None => None,
    }
}
