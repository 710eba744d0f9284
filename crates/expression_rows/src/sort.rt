// What a value is to an operator, and constraints on operands that aren't taken.
ghost use Rattle.std.specs.Prelude.{◌≡◌, option_map};
ghost use Rattle.meaning_rules.specs.Rules.{least_broken};
ghost use Rattle.meaning_typing.specs.Operators as meaning;
ghost use Rattle.c_types.specs.Layouts.{extent_seen, told_in};
ghost use Rattle.c_types.specs.Table.{IsTypeId, type_at};
ghost use Rattle.meaning_typing.specs.Facts.{type_of_value};
ghost use Rattle.expression_rows.specs.Facts.{IsValued, valued_seen};
ghost use Rattle.expression_rows.specs.Rows.{broken_seen};
ghost use Rattle.expression_rows.specs.Sorts.{first_of, sort_in, sort_seen};

use crate::operand::{is_function, is_void};
use crate::row::{Broken, broken_at, lesser};
use crate::value::Valued;
use c_types::{Extent, LayoutFault, Outline, Types};
use sparse_model::{ErrorKind, IntKind, TypeId};

/// Where an operator with two operands stands, and these.
#[derive(Clone, Copy)]
pub struct BinaryTokens {
    pub token: u32,
    pub first: u32,
    pub second: u32,
}

/// What a value is to an operator.
#[derive(Clone, Copy)]
pub enum ValueSort {
    Void,
    /// Of this kind, restricted or not.
    Integer(IntKind),
    Pointer,
    /// A structure or a union, or a type that no value has.
    Other,
}

fn sort_in(outline: Outline) -> ValueSort
    ensures { sort_seen result ≡ sort_in outline }
{
    match outline {
        Outline::Void => ValueSort::Void,
        Outline::Integer(kind) => ValueSort::Integer(kind),
        Outline::Restricted(kind, _) => ValueSort::Integer(kind),
        Outline::Pointer => ValueSort::Pointer,
        _ => ValueSort::Other,
    }
}

/// The sort of values of a type.
#[tactic(auto, using(crate::proofs::SortLemmas::sort_told))]
pub fn sort_of(types: &Types, t: TypeId) -> ValueSort
    requires { IsTypeId types.now t }
    ensures { sort_seen result ≡ meaning.sort_of (type_at types.now t) }
{
    sort_in(types.outline(t))
}

/// The sort of a value.
pub fn value_sort(types: &Types, of: Valued) -> ValueSort
    requires { IsValued types.now of }
    ensures { sort_seen result ≡ meaning.value_sort (valued_seen types.now of) }
{
    sort_of(types, of.value)
}

/// Void operands, which stand at their own tokens: the least.
pub fn void_among(first: u32, second: u32, left: ValueSort, right: ValueSort) -> Option<Broken>
    ensures { option_map broken_seen result ≡ least_broken (meaning.void_among first second (sort_seen left) (sort_seen right)) }
{
    match (left, right) {
        (ValueSort::Void, ValueSort::Void) => lesser(
            broken_at(ErrorKind::VoidValueUsed, first),
            broken_at(ErrorKind::VoidValueUsed, second),
        ),
        (ValueSort::Void, _) => broken_at(ErrorKind::VoidValueUsed, first),
        (_, ValueSort::Void) => broken_at(ErrorKind::VoidValueUsed, second),
        _ => None,
    }
}

/// The only operand, if it is void.
pub fn void_alone(operand: u32, of: ValueSort) -> Option<Broken>
    ensures { option_map broken_seen result ≡ least_broken (meaning.void_alone operand (sort_seen of)) }
{
    match of {
        ValueSort::Void => broken_at(ErrorKind::VoidValueUsed, operand),
        _ => None,
    }
}

/// What is broken, or else this.
pub fn or_else(broken: Option<Broken>, otherwise: Option<Broken>) -> Option<Broken>
    ensures { option_map broken_seen result ≡ first_of (option_map broken_seen broken) (option_map broken_seen otherwise) }
{
    match broken {
        Some(least) => Some(least),
        None => otherwise,
    }
}

/// Operands that an operator doesn't take: of a void one nothing but that is told.
#[tactic(auto, using(crate::proofs::SortLemmas::or_else_told))]
pub fn not_taken(
    constraint: ErrorKind,
    at: BinaryTokens,
    left: ValueSort,
    right: ValueSort,
) -> Option<Broken>
    ensures { option_map broken_seen result ≡ least_broken (meaning.not_taken constraint at.token at.first at.second (sort_seen left) (sort_seen right)) }
{
    or_else(
        void_among(at.first, at.second, left, right),
        broken_at(constraint, at.token),
    )
}

/// Whether a type has no size since it isn't complete, by what its layout was told to be.
pub fn is_incomplete(extent: Result<Extent, LayoutFault>) -> bool
    ensures { result ≡ meaning.is_incomplete (extent_seen extent) }
{
    match extent {
        Ok(_) => false,
        Err(LayoutFault::Incomplete) => true,
        Err(LayoutFault::TooLarge) => false,
    }
}

/// Whether a type has no size, where void and a function count as one byte.
pub fn has_no_size(types: &Types, t: TypeId) -> bool
    requires { IsTypeId types.now t }
    ensures { result ≡ meaning.has_no_size (told_in types.now) (type_at types.now t) }
{
    !(is_void(types, t) || is_function(types, t)) && is_incomplete(types.extent(t))
}
