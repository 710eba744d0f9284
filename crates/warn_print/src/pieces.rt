// What is still to be written of a type. A stack of pieces stands in the place of a recursion, since types are as deep as
// their text says.
ghost use Rattle.std.specs.Prelude.{◌≡◌, ◌++◌, ◌+◌, ◌<◌, ℕ, List, OnOk};
ghost use Rattle.c_types.specs.Table.{IsTypeId, type_at};
ghost use Rattle.c_types.specs.Rows.{is_variadic};
ghost use Rattle.warn_print.specs.Pieces.{AreKnownPieces, id_of, inner_of, piece_spelling, plain_derivation, piece_weight, stack_text, stack_weight};

use crate::types::{write_brackets, write_leaf, write_marks};
use c_tokens::Names;
use c_types::{OuterBase, Types};
use sparse_model::TypeId;
use std::alloc::AllocError;

/// A piece of a type that is still to be written.
#[derive(Clone, Copy)]
pub(crate) enum Piece {
    /// A type, whole.
    Whole(TypeId),
    /// What stands behind the type of which it is derived.
    Behind(TypeId),
    /// What stands between the parentheses of a function.
    Parameters(TypeId),
    /// The same behind a parameter: this function has it no more.
    More(TypeId),
    /// The closing parenthesis of a function, and what stands behind it.
    Close(TypeId),
}

/// Appends a piece, or its first part and leaves the others on the stack.
pub(crate) fn write_piece(
    text: &mut Vec<u8>,
    stack: &mut Vec<Piece>,
    names: &Names,
    types: &Types,
    piece: Piece,
) -> Result<(), AllocError>
    requires known { IsTypeId types.now (id_of piece) }
    requires below { AreKnownPieces types.now stack.old.items }
    ensures written { OnOk result (text.new.items ++ stack_text names.now types.now stack.new.items
        ≡ text.old.items ++ piece_spelling names.now types.now piece ++ stack_text names.now types.now stack.old.items) }
    ensures known { OnOk result (AreKnownPieces types.now stack.new.items) }
    ensures less { OnOk result (stack_weight types.now stack.new.items < piece_weight types.now piece + stack_weight types.now stack.old.items) }
{
    match piece {
        Piece::Whole(t) => write_whole(text, stack, names, types, t),
        Piece::Behind(t) => write_behind(text, stack, names, types, t),
        Piece::Parameters(t) => write_parameters(text, stack, types, t),
        Piece::More(t) => write_more(text, stack, types, t),
        Piece::Close(t) => {
            text.push(b')')?;
            write_marks(text, names, types.shape(t))
        }
    }
}

// A type: the one inside it first.
fn write_whole(
    text: &mut Vec<u8>,
    stack: &mut Vec<Piece>,
    names: &Names,
    types: &Types,
    t: TypeId,
) -> Result<(), AllocError>
    requires known { IsTypeId types.now t }
    requires below { AreKnownPieces types.now stack.old.items }
    ensures written { OnOk result (text.new.items ++ stack_text names.now types.now stack.new.items
        ≡ text.old.items ++ piece_spelling names.now types.now (Piece.Whole t) ++ stack_text names.now types.now stack.old.items) }
    ensures known { OnOk result (AreKnownPieces types.now stack.new.items) }
    ensures less { OnOk result (stack_weight types.now stack.new.items < piece_weight types.now (Piece.Whole t) + stack_weight types.now stack.old.items) }
{
    let shape = types.shape(t);
    match inside(shape.base) {
        Some(inner) => {
            stack.push(Piece::Behind(t))?;
            stack.push(Piece::Whole(inner))?;
            Ok(())
        }
        None => {
            write_leaf(text, names, types, shape.base)?;
            write_marks(text, names, shape)
        }
    }
}

// The type from which one is derived.
fn inside(base: OuterBase) -> Option<TypeId>
    ensures { result ≡ inner_of base }
{
    match base {
        OuterBase::Pointer(target) => Some(target),
        OuterBase::Array(element, _) => Some(element),
        OuterBase::Function(answer, _, _) => Some(answer),
        _ => None,
    }
}

// What derives a type, and what stands behind it.
fn write_behind(
    text: &mut Vec<u8>,
    stack: &mut Vec<Piece>,
    names: &Names,
    types: &Types,
    t: TypeId,
) -> Result<(), AllocError>
    requires known { IsTypeId types.now t }
    requires below { AreKnownPieces types.now stack.old.items }
    ensures written { OnOk result (text.new.items ++ stack_text names.now types.now stack.new.items
        ≡ text.old.items ++ piece_spelling names.now types.now (Piece.Behind t) ++ stack_text names.now types.now stack.old.items) }
    ensures known { OnOk result (AreKnownPieces types.now stack.new.items) }
    ensures less { OnOk result (stack_weight types.now stack.new.items < piece_weight types.now (Piece.Behind t) + stack_weight types.now stack.old.items) }
{
    let shape = types.shape(t);
    if let OuterBase::Function(_, _, _) = shape.base {
        text.extend_from_slice(b" (")?;
        stack.push(Piece::Close(t))?;
        stack.push(Piece::Parameters(t))?;
        return Ok(());
    }
    write_derivation(text, shape.base)?;
    write_marks(text, names, shape)
}

// The star of a pointer, or the brackets of an array.
fn write_derivation(text: &mut Vec<u8>, base: OuterBase) -> Result<(), AllocError>
    ensures { OnOk result (text.new.items ≡ text.old.items ++ plain_derivation base) }
{
    match base {
        OuterBase::Pointer(_) => text.extend_from_slice(b" *"),
        OuterBase::Array(_, count) => write_brackets(text, count),
        _ => Ok(()),
    }
}

// The parameters of a function: the first one, and the others behind it.
fn write_parameters(
    text: &mut Vec<u8>,
    stack: &mut Vec<Piece>,
    types: &Types,
    t: TypeId,
) -> Result<(), AllocError>
    requires known { IsTypeId types.now t }
    requires below { AreKnownPieces types.now stack.old.items }
    ensures written { (names : List (List ℕ)) → OnOk result (text.new.items ++ stack_text names types.now stack.new.items
        ≡ text.old.items ++ piece_spelling names types.now (Piece.Parameters t) ++ stack_text names types.now stack.old.items) }
    ensures known { OnOk result (AreKnownPieces types.now stack.new.items) }
    ensures less { OnOk result (stack_weight types.now stack.new.items < piece_weight types.now (Piece.Parameters t) + stack_weight types.now stack.old.items) }
{
    match types.first_parameter(t) {
        Some((first, rest)) => {
            stack.push(Piece::More(rest))?;
            stack.push(Piece::Whole(first))?;
            Ok(())
        }
        None => {
            if takes_more(types, t) {
                text.extend_from_slice(b"...")
            } else {
                text.extend_from_slice(b"void")
            }
        }
    }
}

// What stands behind a parameter.
fn write_more(
    text: &mut Vec<u8>,
    stack: &mut Vec<Piece>,
    types: &Types,
    t: TypeId,
) -> Result<(), AllocError>
    requires known { IsTypeId types.now t }
    requires below { AreKnownPieces types.now stack.old.items }
    ensures written { (names : List (List ℕ)) → OnOk result (text.new.items ++ stack_text names types.now stack.new.items
        ≡ text.old.items ++ piece_spelling names types.now (Piece.More t) ++ stack_text names types.now stack.old.items) }
    ensures known { OnOk result (AreKnownPieces types.now stack.new.items) }
    ensures less { OnOk result (stack_weight types.now stack.new.items < piece_weight types.now (Piece.More t) + stack_weight types.now stack.old.items) }
{
    match types.first_parameter(t) {
        Some((first, rest)) => {
            text.extend_from_slice(b", ")?;
            stack.push(Piece::More(rest))?;
            stack.push(Piece::Whole(first))?;
            Ok(())
        }
        None => {
            if takes_more(types, t) {
                text.extend_from_slice(b", ...")?;
            }
            Ok(())
        }
    }
}

// More arguments may follow.
fn takes_more(types: &Types, t: TypeId) -> bool
    requires { IsTypeId types.now t }
    ensures { result ≡ is_variadic (type_at types.now t) }
{
    match types.shape(t).base {
        OuterBase::Function(_, _, variadic) => variadic,
        _ => false,
    }
}
