// Pieces become chains: operands that `##` joins, in one flat list.
ghost use Rattle.std.specs.Prelude.{◌≡◌, ◌≤◌, ◌++◌, ◌∷◌, true, length, map, option_map, List, IfOk, IfSome};
ghost use Rattle.meaning_macros.specs.Bodies.{BodyPiece, chains_of, with_rests};
ghost use Rattle.c_macros.specs.Operands.{begins_next, flat_from, grouped, is_some_list, part_by, pasted_rest_of, piece_by};
ghost use Rattle.c_macros.specs.Seen.{Spelling};

use crate::operand::{Operand, Part, Piece};
use sparse_model::TokenKind;
use std::alloc::{AllocError, Global};

/// The operands of all chains, where a macro with so many parameters is variadic or not.
pub(crate) fn read_parts(
    alloc: Global,
    variadic: bool,
    count: u32,
    pieces: &[Piece],
) -> Result<Vec<Part>, AllocError>
    ensures chains { IfOk result (λ parts. (s : Spelling) → grouped (map (part_by s) parts.items) ≡ chains_of (with_rests variadic count (map (piece_by s) pieces.now))) }
    ensures begins { IfOk result (λ parts. (s : Spelling) → begins_next (map (part_by s) parts.items) ≡ true) }
{
    // They stay as long as the macro, and most macros have one: a vector that grows has room for four.
    let mut parts = Vec::with_capacity(alloc, pieces.len())?;
    let mut joined = false;
    let mut rest = pieces;
    while let Some((first, others)) = rest.split_first() {
        let (piece, behind) = first_with_rest(variadic, count, first, others);
        joined = take_piece(&mut parts, joined, piece)?;
        rest = behind;
    }
    Ok(parts)
}

// Takes a piece, and answers whether a `##` joins the next operand to the last one.
fn take_piece(parts: &mut Vec<Part>, joined: bool, piece: Piece) -> Result<bool, AllocError>
    ensures { IfOk result (λ next. (s : Spelling) (later : List BodyPiece) →
        map (part_by s) parts.new.items ++ flat_from (is_some_list parts.new.items) next later ≡ map (part_by s) parts.old.items ++ flat_from (is_some_list parts.old.items) joined (piece_by s piece ∷ later)) }
{
    match piece {
        Piece::PasteSign => Ok(!parts.is_empty()),
        Piece::One(operand) => {
            parts.push(Part {
                operand,
                begins: !joined,
            })?;
            Ok(false)
        }
    }
}

// The piece at the front, where `, ## V` is one, and the pieces behind it.
fn first_with_rest<'p>(
    variadic: bool,
    count: u32,
    first: &Piece,
    others: &'p [Piece],
) -> (Piece, &'p [Piece])
    ensures front { (s : Spelling) → with_rests variadic count (map (piece_by s) (first.now ∷ others.now)) ≡ piece_by s result.0 ∷ with_rests variadic count (map (piece_by s) result.1.now) }
    ensures shorter { length result.1.now ≤ length others.now }
{
    if let Piece::One(Operand::Own(comma)) = first {
        if variadic && comma.kind == TokenKind::Comma {
            if let Some((space, parameter, behind)) = pasted_rest(count, others) {
                let comma = *comma;
                return (
                    Piece::One(Operand::CommaAndRest {
                        comma,
                        space,
                        parameter,
                    }),
                    behind,
                );
            }
        }
    }
    (*first, others)
}

// `##` and the variable parameter, which is the last of so many, at the front: whether white space stands
// before it, its number, and the pieces behind it.
fn pasted_rest(count: u32, pieces: &[Piece]) -> Option<(bool, u32, &[Piece])>
    ensures found { option_map (λ found. (found.0, (found.1, found.2.now))) result ≡ pasted_rest_of count pieces.now }
    ensures shorter { IfSome result (λ found. length found.2.now ≤ length pieces.now) }
{
    let (first, others) = pieces.split_first()?;
    let (second, behind) = others.split_first()?;
    match (first, second) {
        (Piece::PasteSign, Piece::One(Operand::Argument { space, parameter })) => {
            if *parameter as u64 + 1 == count as u64 {
                Some((*space, *parameter, behind))
            } else {
                None
            }
        }
        _ => None,
    }
}
