// The spelling of types.
ghost use Rattle.std.specs.Prelude.{◌≡◌, ◌++◌, OnOk, IfOk, codes};
ghost use Rattle.meaning_types.specs.Spelling.{kind_spelling, length_spelling};
ghost use Rattle.meaning_types.specs.Spelling as spelling;
ghost use Rattle.meaning_warnings.specs.Places.{type_spelling};
ghost use Rattle.c_types.specs.Table.{space_of, type_at};
ghost use Rattle.warn_print.specs.Seen.{identity_in, named_space, tag_in, shown_type, unit_shown};
ghost use Rattle.warn_print.specs.Pieces.{later_marks, leaf_text, shape_flags, shape_marks, spelled_in};

use crate::numbers::{write_length, write_number};
use crate::pieces::{Piece, write_piece};
use crate::show::{Show, name_of, spelling_of, tag_of};
use c_tokens::Names;
use c_types::{OuterBase, OuterShape, Types};
use sparse_model::{IntKind, Restrict, Space, TypeId};
use std::alloc::{AllocError, Global};

/// The spelling of a type, from the inside out. An unknown id is spelled as `void` is.
///
/// It takes time and memory in step with what is written.
pub fn type_text(alloc: Global, show: &Show<'_>, t: TypeId) -> Result<Vec<u8>, AllocError>
    ensures { IfOk result (λ text. text.items ≡ type_spelling (unit_shown show.now) (shown_type show.now.names.now show.now.types.now t)) }
{
    let mut text = Vec::new(alloc);
    write_type(alloc, &mut text, show.names, show.types, t)?;
    Ok(text)
}

/// Appends the spelling of a type.
pub(crate) fn write_type(
    alloc: Global,
    text: &mut Vec<u8>,
    names: &Names,
    types: &Types,
    t: TypeId,
) -> Result<(), AllocError>
    ensures { OnOk result (text.new.items ≡ text.old.items ++ spelled_in names.now types.now (type_at types.now t)) }
{
    if !types.knows(t) {
        return text.extend_from_slice(b"void");
    }
    let mut stack = Vec::new(alloc);
    stack.push(Piece::Whole(t))?;
    'pieces: while let Some(piece) = stack.pop() {
        write_piece(text, &mut stack, names, types, piece)?;
    }
    Ok(())
}

/// Appends the spelling of a type that isn't derived from another one, without its qualifiers and flags.
pub(crate) fn write_leaf(
    text: &mut Vec<u8>,
    names: &Names,
    types: &Types,
    base: OuterBase,
) -> Result<(), AllocError>
    ensures { OnOk result (text.new.items ≡ text.old.items ++ leaf_text names.now types.now base) }
{
    match base {
        OuterBase::Void => text.extend_from_slice(b"void"),
        OuterBase::Integer(kind, None) => text.extend_from_slice(kind_text(kind)),
        OuterBase::Integer(kind, Some(identity)) => {
            text.extend_from_slice(b"restricted ")?;
            write_identity(text, names, types, kind, identity)
        }
        OuterBase::Aggregate(number, is_union) => write_aggregate(
            text, names, types, number, is_union,
        ),
        _ => Ok(()),
    }
}

/// Appends the name of an identity, or its kind where it has none.
pub(crate) fn write_identity(
    text: &mut Vec<u8>,
    names: &Names,
    types: &Types,
    kind: IntKind,
    identity: Restrict,
) -> Result<(), AllocError>
    ensures { OnOk result (text.new.items ≡ text.old.items ++ spelling.identity_spelling kind (identity_in names.now types.now identity.0)) }
{
    match name_of(names, types, identity) {
        Some(name) => text.extend_from_slice(name),
        None => text.extend_from_slice(kind_text(kind)),
    }
}

// An aggregate by its keyword and its tag.
fn write_aggregate(
    text: &mut Vec<u8>,
    names: &Names,
    types: &Types,
    number: u32,
    is_union: bool,
) -> Result<(), AllocError>
    ensures { OnOk result (text.new.items ≡ text.old.items ++ spelling.aggregate_word is_union ++ spelling.tag_spelling (tag_in names.now types.now number)) }
{
    text.extend_from_slice(aggregate_word(is_union))?;
    match tag_of(names, types, number) {
        Some(tag) => text.extend_from_slice(tag),
        None => text.extend_from_slice(b"<unnamed>"),
    }
}

fn aggregate_word(is_union: bool) -> &'static [u8]
    ensures { result.now ≡ spelling.aggregate_word is_union }
{
    if is_union { b"union " } else { b"struct " }
}

// How an integer type is spelled.
fn kind_text(kind: IntKind) -> &'static [u8]
    ensures { result.now ≡ kind_spelling kind }
{
    match kind {
        IntKind::Bool => b"_Bool",
        IntKind::Char => b"char",
        IntKind::SChar => b"signed char",
        IntKind::UChar => b"unsigned char",
        IntKind::Short => b"short",
        IntKind::UShort => b"unsigned short",
        IntKind::Int => b"int",
        IntKind::UInt => b"unsigned int",
        IntKind::Long => b"long",
        IntKind::ULong => b"unsigned long",
        IntKind::LLong => b"long long",
        IntKind::ULLong => b"unsigned long long",
    }
}

/// Appends the qualifiers and flags of a type.
pub(crate) fn write_marks(
    text: &mut Vec<u8>,
    names: &Names,
    shape: OuterShape,
) -> Result<(), AllocError>
    ensures { OnOk result (text.new.items ≡ text.old.items ++ shape_marks names.now shape) }
{
    if shape.is_const {
        text.extend_from_slice(b" const")?;
    }
    write_later_marks(text, names, shape)
}

fn write_later_marks(text: &mut Vec<u8>, names: &Names, shape: OuterShape) -> Result<(), AllocError>
    ensures { OnOk result (text.new.items ≡ text.old.items ++ later_marks names.now shape) }
{
    if shape.is_volatile {
        text.extend_from_slice(b" volatile")?;
    }
    write_flags(text, names, shape)
}

fn write_flags(text: &mut Vec<u8>, names: &Names, shape: OuterShape) -> Result<(), AllocError>
    ensures { OnOk result (text.new.items ≡ text.old.items ++ shape_flags names.now shape) }
{
    if shape.noderef {
        text.extend_from_slice(b" noderef")?;
    }
    write_space_mark(text, names, shape.space)
}

fn write_space_mark(text: &mut Vec<u8>, names: &Names, space: Space) -> Result<(), AllocError>
    ensures { OnOk result (text.new.items ≡ text.old.items ++ spelling.space_mark (named_space names.now (space_of space))) }
{
    if let Space::None = space {
        return Ok(());
    }
    text.extend_from_slice(b" address_space(")?;
    write_space(text, names, space)?;
    text.push(b')')?;
    Ok(())
}

/// Appends what stands between the parentheses of a space.
pub(crate) fn write_space(text: &mut Vec<u8>, names: &Names, space: Space) -> Result<(), AllocError>
    ensures { OnOk result (text.new.items ≡ text.old.items ++ spelling.space_spelling (named_space names.now (space_of space))) }
{
    match space {
        Space::None => Ok(()),
        Space::Number(number) => write_number(text, number),
        Space::Named(id) => text.extend_from_slice(spelling_of(names, id)),
    }
}

/// Appends the length of an array between its brackets.
pub(crate) fn write_brackets(text: &mut Vec<u8>, count: Option<u64>) -> Result<(), AllocError>
    ensures { OnOk result (text.new.items ≡ text.old.items ++ codes " [" ++ length_spelling count ++ codes "]") }
{
    text.extend_from_slice(b" [")?;
    if let Some(count) = count {
        write_length(text, count)?;
    }
    text.push(b']')?;
    Ok(())
}
