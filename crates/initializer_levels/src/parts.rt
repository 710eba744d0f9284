// The parts of objects: elements of an array, and members of a structure or a union by their numbers (C11 6.7.9 p9, p17).
ghost use Rattle.std.specs.Prelude.{◌≡◌};
ghost use Rattle.c_types.specs.Table.{IsTypeId};
ghost use Rattle.initializer_levels.specs.Parts.{IsKnownParts, bounded_length, by_outline, is_elements, is_own_part, parts_in, parts_seen, type_seen};

use c_types::{OuterBase, Outline, Types};
use sparse_model::TypeId;

/// The type of an object, or of a part of one.
#[derive(Clone, Copy, Debug, PartialEq, Eq)]
pub struct PartType {
    pub of: TypeId,
    /// It is that of a member, where an array without a length has no elements (C11 6.7.2.1 p18).
    pub is_member: bool,
}

/// A part of an object: its number among the elements or members, those without a name counted, and its type.
#[derive(Clone, Copy, Debug, PartialEq, Eq)]
pub struct Part {
    pub number: u64,
    pub of: PartType,
}

/// What an object has for parts.
#[derive(Clone, Copy, Debug, PartialEq, Eq)]
pub enum Parts {
    /// Elements of this type, and how many, where that is known.
    Elements(TypeId, Option<u64>),
    /// The members of the aggregate with this number, which may be a union.
    Members(u32, bool),
    /// In braces it is its own only part.
    Itself,
}

// An array without a length has no elements where it is a member.
fn bounded_length(is_member: bool, count: Option<u64>) -> Option<u64>
    ensures { result ≡ bounded_length is_member count }
{
    match count {
        Some(count) => Some(count),
        None => { if is_member { Some(0) } else { None } }
    }
}

// By the outermost level of the type.
#[tactic(auto, using(crate::proofs::PartLemmas::elements_are))]
fn array_parts(types: &Types, of: PartType) -> Parts
    requires { IsTypeId types.now of.of }
    ensures parts { parts_seen types.now result ≡ parts_in (type_seen types.now of) }
    ensures known { IsKnownParts types.now result }
{
    match types.shape(of.of).base {
        OuterBase::Array(element, count) => {
            Parts::Elements(element, bounded_length(of.is_member, count))
        }
        OuterBase::Aggregate(number, is_union) => Parts::Members(number, is_union),
        _ => Parts::Itself,
    }
}

// The outermost level is asked of an array alone, since of a function it takes a step for each parameter.
fn parts_by(types: &Types, of: PartType, outline: Outline) -> Parts
    requires { IsTypeId types.now of.of }
    ensures parts { parts_seen types.now result ≡ by_outline outline (parts_in (type_seen types.now of)) }
    ensures known { IsKnownParts types.now result }
{
    match outline {
        Outline::Array => array_parts(types, of),
        Outline::Aggregate(number, is_union) => Parts::Members(number, is_union),
        _ => Parts::Itself,
    }
}

/// What an object of this type has for parts. It takes no memory, and a few steps.
#[tactic(auto, using(crate::proofs::PartLemmas::outline_is_enough))]
pub fn parts_of(types: &Types, of: PartType) -> Parts
    requires { IsTypeId types.now of.of }
    ensures parts { parts_seen types.now result ≡ parts_in (type_seen types.now of) }
    ensures known { IsKnownParts types.now result }
{
    parts_by(types, of, types.outline(of.of))
}

impl Parts {
    /// Whether they are elements of an array.
    pub fn are_elements(self) -> bool
        ensures { result ≡ is_elements self }
    {
        match self {
            Parts::Elements(_, _) => true,
            _ => false,
        }
    }

    /// Whether there are none but the object itself.
    pub fn are_itself(self) -> bool
        ensures { result ≡ is_own_part self }
    {
        match self {
            Parts::Itself => true,
            _ => false,
        }
    }
}
