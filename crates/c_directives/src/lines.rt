//! The tokens of a file, part by part: text, and the directive behind it. No token is copied, and what a
//! directive does isn't known here.
ghost use Rattle.std.specs.Prelude.{◌≡◌, ◌≤◌, List, ℕ, length};
ghost use Rattle.c_directives.specs.Lines.{from_hash, line_length, part_seen, parts_of, text_behind, text_length, tokens_in, without_text};

use c_tokens::Token;
use sparse_model::TokenKind;

/// The front of a file's tokens (C11 6.10 p1, p2).
#[derive(Clone, Copy, Debug, PartialEq, Eq)]
pub enum FilePart<'t> {
    /// No directive is left.
    LastText {
        text: &'t [Token],
    },
    /// The text before a directive, its `#`, the rest of its line, and the tokens behind that.
    Directive {
        text: &'t [Token],
        hash: Token,
        rest: &'t [Token],
        behind: &'t [Token],
    },
}

/// What stands first in the tokens, which begin a line. It takes time in the tokens that it leaves behind.
pub fn first_part(tokens: &[Token]) -> FilePart<'_>
    ensures parts { (names : List (List ℕ)) → parts_of names tokens.now ≡ part_seen names result }
    ensures tokens { tokens_in result ≡ tokens.now }
    ensures hash { (names : List (List ℕ)) → parts_of names (from_hash result) ≡ without_text (part_seen names result) }
{
    let (text, directive) = tokens.split_at(text_length(tokens));
    let Some((hash, others)) = directive.split_first() else {
        return FilePart::LastText { text };
    };
    let (rest, behind) = others.split_at(line_length(others));
    FilePart::Directive {
        text,
        hash: *hash,
        rest,
        behind,
    }
}

// How many tokens stand before the first directive.
fn text_length(tokens: &[Token]) -> usize
    ensures length { result ≡ text_length tokens.now }
    ensures within { result ≤ length tokens.now }
{
    let Some((first, others)) = tokens.split_first() else {
        return 0;
    };
    if first.kind == TokenKind::Hash {
        return 0;
    }
    1 + text_behind(others)
}

// How many tokens go on with a text.
fn text_behind(tokens: &[Token]) -> usize
    ensures length { result ≡ text_behind tokens.now }
    ensures within { result ≤ length tokens.now }
{
    let mut count = 0;
    let mut left = tokens;
    while let Some((token, others)) = left.split_first() {
        if token.line_start && token.kind == TokenKind::Hash {
            return count;
        }
        count += 1;
        left = others;
    }
    count
}

// How many tokens go on with a line.
fn line_length(tokens: &[Token]) -> usize
    ensures length { result ≡ line_length tokens.now }
    ensures within { result ≤ length tokens.now }
{
    let mut count = 0;
    let mut left = tokens;
    while let Some((token, others)) = left.split_first() {
        if token.line_start {
            return count;
        }
        count += 1;
        left = others;
    }
    count
}
