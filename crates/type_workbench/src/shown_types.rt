// How the outermost level of a type is shown.
use c_types::{OuterBase, OuterShape};
use itoa::Buffer;
use sparse_model::{IntKind, Space};
use std::alloc::AllocError;

/// Appends the qualifiers and flags, each with a blank behind it.
pub fn push_marks(shown: &mut Vec<u8>, outer: OuterShape) -> Result<(), AllocError> {
    if outer.is_const {
        shown.extend_from_slice(b"const ")?;
    }
    if outer.is_volatile {
        shown.extend_from_slice(b"volatile ")?;
    }
    if outer.noderef {
        shown.extend_from_slice(b"noderef ")?;
    }
    if let Space::Number(number) = outer.space {
        shown.extend_from_slice(b"space ")?;
        push_number(shown, u64::from(number))?;
        shown.push(b' ')?;
    }
    Ok(())
}

/// Appends what the type is, without the types in it.
pub fn push_base(shown: &mut Vec<u8>, base: OuterBase) -> Result<(), AllocError> {
    match base {
        OuterBase::Void => shown.extend_from_slice(b"void"),
        OuterBase::Integer(_, Some(identity)) => {
            shown.extend_from_slice(b"restricted ")?;
            push_number(shown, u64::from(identity.0))
        }
        OuterBase::Integer(kind, None) => shown.extend_from_slice(kind_word(kind)),
        OuterBase::Pointer(_) => shown.extend_from_slice(b"pointer"),
        OuterBase::Array(_, None) => shown.extend_from_slice(b"array"),
        OuterBase::Array(_, Some(count)) => {
            shown.extend_from_slice(b"array ")?;
            push_number(shown, count)
        }
        OuterBase::Function(_, count, variadic) => {
            shown.extend_from_slice(b"function ")?;
            push_number(shown, u64::from(count))?;
            if variadic {
                shown.extend_from_slice(b" variadic")?;
            }
            Ok(())
        }
        OuterBase::Aggregate(number, is_union) => {
            let word: &[u8] = if is_union { b"union " } else { b"struct " };
            shown.extend_from_slice(word)?;
            push_number(shown, u64::from(number))
        }
    }
}

/// The word of a kind of integers.
pub fn kind_word(kind: IntKind) -> &'static [u8] {
    match kind {
        IntKind::Bool => b"bool",
        IntKind::Char => b"char",
        IntKind::SChar => b"signed_char",
        IntKind::UChar => b"unsigned_char",
        IntKind::Short => b"short",
        IntKind::UShort => b"unsigned_short",
        IntKind::Int => b"int",
        IntKind::UInt => b"unsigned",
        IntKind::Long => b"long",
        IntKind::ULong => b"unsigned_long",
        IntKind::LLong => b"long_long",
        IntKind::ULLong => b"unsigned_long_long",
    }
}

/// Appends a number.
pub fn push_number(shown: &mut Vec<u8>, number: u64) -> Result<(), AllocError> {
    let mut buffer = Buffer::new();
    shown.extend_from_slice(buffer.format(number).as_bytes())
}
