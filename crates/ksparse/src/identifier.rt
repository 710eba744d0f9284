// The name of a macro, as a word spells it (C11 6.4.2.1).
ghost use Rattle.std.specs.Prelude.{◌≡◌, ◌∷◌, ℕ, List};
ghost use Rattle.meaning_text.specs.Words.{begins_hexadecimal, begins_identifier, is_identifier, is_word, universal_length, word_goes_on};

use c_tokens::{is_nondigit, is_word_byte};

/// The text is an identifier, universal character names by their form included.
pub(crate) fn is_identifier(text: &[u8]) -> bool
    ensures { result ≡ is_identifier text.now }
{
    begins_identifier(text) && is_word(text)
}

fn begins_identifier(text: &[u8]) -> bool
    ensures { result ≡ begins_identifier text.now }
{
    match text.split_first() {
        Some((&byte, _)) => is_nondigit(byte) || universal_length(text) > 0,
        None => false,
    }
}

// Each byte goes on with an identifier.
fn is_word(text: &[u8]) -> bool
    ensures { result ≡ is_word text.now }
{
    let mut left = text;
    'bytes: while let Some((&byte, others)) = left.split_first() {
        if !word_goes_on(byte, left) {
            return false;
        }
        left = others;
    }
    true
}

// The first byte of the text goes on with one.
fn word_goes_on(byte: u8, text: &[u8]) -> bool
    requires { (others : List ℕ) × (text.now ≡ byte ∷ others) }
    ensures { result ≡ word_goes_on text.now }
{
    is_word_byte(byte) || universal_length(text) > 0
}

// The length of the universal character name with which the text begins, or 0 (6.4.3).
fn universal_length(text: &[u8]) -> usize
    ensures { result ≡ universal_length text.now }
{
    match text.split_first() {
        Some((&first, behind)) => length_behind(first, behind),
        None => 0,
    }
}

// The same where this byte is the first.
fn length_behind(first: u8, behind: &[u8]) -> usize
    ensures { result ≡ universal_length (first ∷ behind.now) }
{
    let Some((&second, digits)) = behind.split_first() else {
        return 0;
    };
    if first == b'\\' && second == b'u' && begins_hexadecimal(digits, 4) {
        return 6;
    }
    if first == b'\\' && second == b'U' && begins_hexadecimal(digits, 8) {
        return 10;
    }
    0
}

// The text begins with so many hexadecimal digits.
fn begins_hexadecimal(text: &[u8], count: usize) -> bool
    ensures { result ≡ begins_hexadecimal count text.now }
{
    let mut left = text;
    let mut wanted = count;
    'digits: while wanted > 0 {
        let Some((byte, others)) = left.split_first() else {
            return false;
        };
        if !byte.is_ascii_hexdigit() {
            return false;
        }
        left = others;
        wanted -= 1;
    }
    true
}
