// Types as callers give them and see them: the outermost level, over ids.
use sparse_model::{IntKind, Restrict, Seq, Space, TypeId};

/// Types in order, as those of parameters.
pub type TypeIdList = Seq<TypeId>;

/// What a type is, apart from its qualifiers and flags.
#[derive(Drop)]
pub enum ShapeBase {
    Void,
    /// A kind, and the identity of a restricted type.
    Integer(IntKind, Option<Restrict>),
    Pointer(TypeId),
    /// An element, and the length where it is known.
    Array(TypeId, Option<u64>),
    /// A result, the parameters, and whether more arguments may follow.
    Function(TypeId, TypeIdList, bool),
    /// The index of the token that names the aggregate first, and whether it is a union.
    Aggregate(u32, bool),
}

/// A type that is to be made. What is said of an array is said of its element, and what is said of a
/// function is dropped (C11 6.7.3 p9).
#[derive(Drop)]
pub struct TypeShape {
    pub base: ShapeBase,
    pub is_const: bool,
    pub is_volatile: bool,
    pub noderef: bool,
    pub space: Space,
}

/// What a type is, apart from its qualifiers and flags, with the number of a function's parameters in their
/// place.
#[derive(Clone, Copy)]
pub enum OuterBase {
    Void,
    Integer(IntKind, Option<Restrict>),
    Pointer(TypeId),
    Array(TypeId, Option<u64>),
    /// A result, how many parameters there are, and whether more arguments may follow.
    Function(TypeId, u32, bool),
    Aggregate(u32, bool),
}

/// The outermost level of a type.
#[derive(Clone, Copy)]
pub struct OuterShape {
    pub base: OuterBase,
    pub is_const: bool,
    pub is_volatile: bool,
    pub noderef: bool,
    pub space: Space,
}
