//! The word behind `#`: which directive it names (C11 6.10).
ghost use Rattle.std.specs.Prelude.{◌≡◌, All};
ghost use Rattle.meaning_preprocessing.specs.Lines.{behind_word, directive_named, directive_of, other_directive};
ghost use Rattle.c_tokens.specs.Seen.{IsKnown, toks_of};
ghost use Rattle.c_directives.specs.Lines.{name_seen};

use c_tokens::{Names, Token};

/// What a directive is. The first six are conditionals.
#[derive(Clone, Copy, Debug, PartialEq, Eq)]
pub(crate) enum DirectiveName {
    If,
    Ifdef,
    Ifndef,
    Elif,
    Else,
    Endif,
    Include,
    Define,
    Undef,
    Error,
    /// It does nothing.
    Unread,
    Unknown,
}

/// The directive that the tokens behind `#` name, and those behind its word.
pub(crate) fn read_word<'t>(names: &Names, rest: &'t [Token]) -> (DirectiveName, &'t [Token])
    requires { All (λ token. IsKnown names.now token.name) rest.now }
    ensures name { name_seen result.0 ≡ directive_of (toks_of names.now rest.now) }
    ensures behind { toks_of names.now result.1.now ≡ behind_word (toks_of names.now rest.now) }
    ensures known { All (λ token. IsKnown names.now token.name) result.1.now }
{
    match rest.split_first() {
        Some((word, behind)) => (directive_named(names.spelling(word.name)), behind),
        None => (DirectiveName::Unread, rest),
    }
}

fn directive_named(word: &[u8]) -> DirectiveName
    ensures { name_seen result ≡ directive_named word.now }
{
    if word == b"if".as_slice() {
        return DirectiveName::If;
    }
    if word == b"ifdef".as_slice() {
        return DirectiveName::Ifdef;
    }
    if word == b"ifndef".as_slice() {
        return DirectiveName::Ifndef;
    }
    if word == b"elif".as_slice() {
        return DirectiveName::Elif;
    }
    if word == b"else".as_slice() {
        return DirectiveName::Else;
    }
    if word == b"endif".as_slice() {
        return DirectiveName::Endif;
    }
    other_directive(word)
}

// The ones that aren't conditionals.
fn other_directive(word: &[u8]) -> DirectiveName
    ensures { name_seen result ≡ other_directive word.now }
{
    if word == b"include".as_slice() {
        return DirectiveName::Include;
    }
    if word == b"define".as_slice() {
        return DirectiveName::Define;
    }
    if word == b"undef".as_slice() {
        return DirectiveName::Undef;
    }
    if word == b"error".as_slice() {
        return DirectiveName::Error;
    }
    if word == b"line".as_slice() {
        return DirectiveName::Unread;
    }
    if word == b"pragma".as_slice() {
        return DirectiveName::Unread;
    }
    if word == b"ident".as_slice() {
        return DirectiveName::Unread;
    }
    if word == b"warning".as_slice() {
        return DirectiveName::Unread;
    }
    DirectiveName::Unknown
}
