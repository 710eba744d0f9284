// The pieces of a body: each token once, from the left. Which of them `##` joins isn't known here.
ghost use Rattle.std.specs.Prelude.{◌≡◌, ◌≤◌, ◌∷◌, false, length, map, IfOk};
ghost use Rattle.meaning_macros.specs.Bodies.{piece_of, pieces_of, parameter_of, stringized_by};
ghost use Rattle.meaning_macros.specs.Macros.{without_first_space};
ghost use Rattle.c_macros.specs.Operands.{piece_by};
ghost use Rattle.c_macros.specs.Seen.{KeepsApart, Spelling, token_by};

use crate::operand::{Operand, Piece};
use crate::parameters::Parameters;
use c_tokens::Token;
use sparse_model::TokenKind;
use std::alloc::{AllocError, Global};

/// The body without the white space before it (6.10.3 p7).
pub(crate) fn inner_body(alloc: Global, body: &[Token]) -> Result<Vec<Token>, AllocError>
    ensures { IfOk result (λ inner. (s : Spelling) → map (token_by s) inner.items ≡ without_first_space (map (token_by s) body.now)) }
{
    let mut inner = Vec::with_capacity(alloc, body.len())?;
    if let Some((first, others)) = body.split_first() {
        inner.push(without_space(first))?;
        inner.extend_from_slice(others)?;
    }
    Ok(inner)
}

fn without_space(token: &Token) -> Token
    ensures { result ≡ record token.now { space_before = false } }
{
    Token {
        kind: token.kind,
        space_before: false,
        line_start: token.line_start,
        name: token.name,
        place: token.place,
    }
}

/// The operands of a body and the `##` between them.
pub(crate) fn read_pieces(
    alloc: Global,
    parameters: &Parameters,
    body: &[Token],
) -> Result<Vec<Piece>, AllocError>
    ensures { IfOk result (λ pieces. (s : Spelling) → KeepsApart s → map (piece_by s) pieces.items ≡ pieces_of (map s parameters.now) (map (token_by s) body.now)) }
{
    let mut pieces = Vec::with_capacity(alloc, body.len())?;
    let mut rest = body;
    while let Some((token, others)) = rest.split_first() {
        let (piece, behind) = first_piece(parameters, token, others);
        pieces.push(piece)?;
        rest = behind;
    }
    Ok(pieces)
}

// The piece at the front, and the tokens behind it.
fn first_piece<'t>(
    parameters: &Parameters,
    token: &Token,
    others: &'t [Token],
) -> (Piece, &'t [Token])
    ensures front { (s : Spelling) → KeepsApart s → pieces_of (map s parameters.now) (map (token_by s) (token.now ∷ others.now)) ≡ piece_by s result.0 ∷ pieces_of (map s parameters.now) (map (token_by s) result.1.now) }
    ensures shorter { length result.1.now ≤ length others.now }
{
    if let Some((next, behind)) = others.split_first() {
        if let Some(parameter) = stringized(parameters, token, next) {
            let space = token.space_before;
            return (Piece::One(Operand::Stringized { space, parameter }), behind);
        }
    }
    (piece(parameters, token), others)
}

// The parameter that a token before another one stringizes.
fn stringized(parameters: &Parameters, token: &Token, next: &Token) -> Option<u32>
    ensures { (s : Spelling) → KeepsApart s → result ≡ stringized_by (map s parameters.now) (token_by s token.now) (token_by s next.now) }
{
    if token.kind != TokenKind::Hash {
        return None;
    }
    parameters.number_of(next)
}

// A token that stands for itself or for an argument.
fn piece(parameters: &Parameters, token: &Token) -> Piece
    ensures { (s : Spelling) → KeepsApart s → piece_by s result ≡ piece_of (map s parameters.now) (token_by s token.now) }
{
    if token.kind == TokenKind::HashHash {
        return Piece::PasteSign;
    }
    match parameters.number_of(token) {
        Some(parameter) => {
            let space = token.space_before;
            Piece::One(Operand::Argument { space, parameter })
        }
        None => Piece::One(Operand::Own(*token)),
    }
}
