//! Lists of tokens that are cut at their commas, and those between parentheses, which are counted, however deep they are.
//! Tokens arrive, and some of them leave, in their order. What they mean isn't known here.
ghost use Rattle.std.specs.Prelude.{◌≡◌, ◌∷◌, ◌+◌, ◌<◌, ◌≤◌, ◌^◌, List, ℕ, length};
ghost use Rattle.meaning_attributes.specs.Pieces.{closes, comma_pieces, cuts, depth_behind, in_parentheses, length_to_inside, up_to_closing};
ghost use Rattle.c_tokens.specs.Seen.{toks_of};
ghost use Rattle.c_attrs.specs.Seen.{significant};
ghost use Rattle.c_attrs.specs.Cuts.{length_to_comma, pieces_in, significant_pieces_in, size_left};
ghost use Rattle.c_attrs.specs.Closing.{length_to_closing};

use crate::token::{is_closing, is_opening};
use c_tokens::Token;
use sparse_model::TokenKind;

/// What stands before the first comma outside parentheses, and what behind it, where there is one.
pub(crate) fn first_piece(toks: &[Token]) -> (&[Token], Option<&[Token]>)
    ensures pieces { (names : List (List ℕ)) → comma_pieces (toks_of names toks.now) ≡ toks_of names result.0.now ∷ pieces_in names result.1 }
    ensures significant { (names : List (List ℕ)) → comma_pieces (significant names toks.now) ≡ significant names result.0.now ∷ significant_pieces_in names result.1 }
    ensures size { length result.0.now + size_left result.1 ≡ length toks.now }
{
    let (piece, behind) = toks.split_at(length_to_comma(toks));
    match behind.split_first() {
        Some((_, rest)) => (piece, Some(rest)),
        None => (piece, None),
    }
}

// How many tokens stand before the first comma outside parentheses.
fn length_to_comma(toks: &[Token]) -> usize
    ensures count { result ≡ length_to_comma 0 toks.now }
    ensures within { result ≤ length toks.now }
{
    let mut count: usize = 0;
    let mut depth: usize = 0;
    let mut rest = toks;
    'tokens: while let Some((&token, others)) = rest.split_first() {
        if cuts(depth, token.kind) {
            return count;
        }
        depth = depth_behind(depth, token.kind);
        count += 1;
        rest = others;
    }
    count
}

// A comma where no parenthesis is open.
fn cuts(depth: usize, kind: TokenKind) -> bool
    ensures { result ≡ cuts depth kind }
{
    depth == 0 && matches!(kind, TokenKind::Comma)
}

/// The tokens between the first parenthesis and the one that closes it.
pub fn in_parentheses(toks: &[Token]) -> &[Token]
    ensures { (names : List (List ℕ)) → toks_of names result.now ≡ in_parentheses (toks_of names toks.now) }
{
    let mut rest = toks;
    'tokens: while let Some((&token, others)) = rest.split_first() {
        if is_opening(token.kind) {
            return up_to_closing(others);
        }
        rest = others;
    }
    rest
}

/// How many tokens those between parentheses begin behind.
pub fn length_to_inside(toks: &[Token]) -> usize
    ensures count { (names : List (List ℕ)) → result ≡ length_to_inside (toks_of names toks.now) }
    ensures within { result ≤ length toks.now }
{
    let mut count: usize = 0;
    let mut rest = toks;
    'tokens: while let Some((&token, others)) = rest.split_first() {
        count += 1;
        if is_opening(token.kind) {
            return count;
        }
        rest = others;
    }
    count
}

// The tokens up to the parenthesis that closes none of those among them.
fn up_to_closing(toks: &[Token]) -> &[Token]
    ensures { (names : List (List ℕ)) → toks_of names result.now ≡ up_to_closing 0 (toks_of names toks.now) }
{
    let (front, _) = toks.split_at(length_to_closing(toks));
    front
}

// How many tokens stand before the parenthesis that closes none of those behind the start.
fn length_to_closing(toks: &[Token]) -> usize
    ensures count { result ≡ length_to_closing 0 toks.now }
    ensures within { result ≤ length toks.now }
{
    let mut count: usize = 0;
    let mut depth: usize = 0;
    let mut rest = toks;
    'tokens: while let Some((&token, others)) = rest.split_first() {
        if closes(depth, token.kind) {
            return count;
        }
        depth = depth_behind(depth, token.kind);
        count += 1;
        rest = others;
    }
    count
}

// A parenthesis that closes none of those that are open.
fn closes(depth: usize, kind: TokenKind) -> bool
    ensures { result ≡ closes depth kind }
{
    depth == 0 && is_closing(kind)
}

// How many parentheses are open behind a token.
fn depth_behind(depth: usize, kind: TokenKind) -> usize
    requires { depth < 2 ^ 63 }
    ensures { result ≡ depth_behind depth kind }
{
    match kind {
        TokenKind::LeftParenthesis => depth + 1,
        TokenKind::RightParenthesis => depth.saturating_sub(1),
        _ => depth,
    }
}
