// What is asked of types in one step: their forms, their flags, and whether two are equal without flags.
ghost use Rattle.std.specs.Prelude.{◌≡◌, ◌<◌, length};
ghost use Rattle.meaning_types.specs.Types.{flags_of, has_flag, without_flags};
ghost use Rattle.meaning_types.specs.Equality.{are_equal_flags, are_equal_spaces, are_same};
ghost use Rattle.c_types.specs.Outlines.{flags_in_shape, outline_in, outline_of};
ghost use Rattle.c_types.specs.Rows.{AreRows, space_seen, type_numbered, types_of};

use crate::form::{Form, Shape, SpaceKey};
use crate::rows::Rows;
use sparse_model::{IntKind, Restrict};

/// What a type is, apart from its qualifiers and flags and from the types in it.
#[derive(Clone, Copy, Debug, PartialEq, Eq)]
pub enum Outline {
    Void,
    Integer(IntKind),
    /// A kind, and the identity.
    Restricted(IntKind, Restrict),
    Pointer,
    Array,
    Function,
    /// The index of the token that names the aggregate first, and whether it is a union.
    Aggregate(u32, bool),
}

impl Outline {
    ghost use Rattle.c_types.specs.Outlines.{aggregate_in, is_pointer_outline, is_void_outline, restrict_in};

    /// Whether it is void.
    pub fn is_void(self) -> bool
        ensures { result ≡ is_void_outline self }
    {
        match self {
            Outline::Void => true,
            _ => false,
        }
    }

    /// Whether it is a pointer.
    pub fn is_pointer(self) -> bool
        ensures { result ≡ is_pointer_outline self }
    {
        match self {
            Outline::Pointer => true,
            _ => false,
        }
    }

    /// The token that names an aggregate first, and whether it is a union.
    pub fn aggregate(self) -> Option<(u32, bool)>
        ensures { result ≡ aggregate_in self }
    {
        match self {
            Outline::Aggregate(number, is_union) => Some((number, is_union)),
            _ => None,
        }
    }

    /// The identity of a restricted integer type.
    pub fn identity(self) -> Option<Restrict>
        ensures { result ≡ restrict_in self }
    {
        match self {
            Outline::Restricted(_, restrict) => Some(restrict),
            _ => None,
        }
    }
}

impl Form {
    /// What a type of this form is.
    pub fn outline(self) -> Outline
        ensures { result ≡ outline_in self }
    {
        match self {
            Form::Void => Outline::Void,
            Form::Integer(kind) => Outline::Integer(kind),
            Form::Restricted(kind, token) => Outline::Restricted(kind, Restrict(token)),
            Form::Pointer(_) => Outline::Pointer,
            Form::Array(_, _) => Outline::Array,
            Form::OpenArray(_) => Outline::Array,
            Form::Function(_, _) => Outline::Function,
            Form::Parameter(_, _) => Outline::Function,
            Form::Aggregate(token, is_union) => Outline::Aggregate(token, is_union),
        }
    }
}

impl SpaceKey {
    ghost use Rattle.meaning_types.specs.Types.{is_space};

    /// Whether it is a space.
    pub fn is_space(self) -> bool
        ensures { result ≡ is_space (space_seen self) }
    {
        match self {
            SpaceKey::Absent => false,
            SpaceKey::Number(_) => true,
            SpaceKey::Named(_) => true,
        }
    }

    /// Whether both are no space, or one space.
    pub fn is_same(self, other: SpaceKey) -> bool
        ensures { result ≡ are_equal_spaces (space_seen self) (space_seen other) }
    {
        match (self, other) {
            (SpaceKey::Absent, SpaceKey::Absent) => true,
            (SpaceKey::Number(number), SpaceKey::Number(another)) => number == another,
            (SpaceKey::Named(name), SpaceKey::Named(another)) => name == another,
            _ => false,
        }
    }
}

impl Shape {
    /// Whether there is a flag.
    pub fn has_flag(self) -> bool
        ensures { result ≡ has_flag (flags_in_shape self) }
    {
        self.marks.words().noderef || self.marks.space().is_space()
    }

    /// Whether both have the same flags.
    pub fn same_flags(self, other: Shape) -> bool
        ensures { result ≡ are_equal_flags (flags_in_shape self) (flags_in_shape other) }
    {
        let space = self.marks.space();
        let another = other.marks.space();
        match (self.marks.words().noderef, other.marks.words().noderef) {
            (true, true) => space.is_same(another),
            (false, false) => space.is_same(another),
            (true, false) => false,
            (false, true) => false,
        }
    }
}

impl Rows {
    /// What a type is.
    pub fn outline(&self, number: u32) -> Outline
        requires rows { AreRows self.now.rows.entries }
        requires known { number < length (types_of self.now.rows.entries) }
        ensures { result ≡ outline_of (type_numbered (types_of self.now.rows.entries) number) }
    {
        self.row(number).0.form.outline()
    }

    /// Whether the outermost level of a type has a flag.
    pub fn has_flag(&self, number: u32) -> bool
        requires rows { AreRows self.now.rows.entries }
        requires known { number < length (types_of self.now.rows.entries) }
        ensures { result ≡ has_flag (flags_of (type_numbered (types_of self.now.rows.entries) number)) }
    {
        let (shape, _) = self.row(number);
        shape.has_flag()
    }

    /// Whether the outermost levels of two types have the same flags.
    pub fn same_flags(&self, number: u32, other: u32) -> bool
        requires rows { AreRows self.now.rows.entries }
        requires first { number < length (types_of self.now.rows.entries) }
        requires second { other < length (types_of self.now.rows.entries) }
        ensures { result ≡ are_equal_flags (flags_of (type_numbered (types_of self.now.rows.entries) number)) (flags_of (type_numbered (types_of self.now.rows.entries) other)) }
    {
        let (shape, _) = self.row(number);
        let (others, _) = self.row(other);
        shape.same_flags(others)
    }

    /// Whether two types are equal but for const, volatile and flags at every level.
    pub fn same_without_flags(&self, number: u32, other: u32) -> bool
        requires rows { AreRows self.now.rows.entries }
        requires first { number < length (types_of self.now.rows.entries) }
        requires second { other < length (types_of self.now.rows.entries) }
        ensures { result ≡ are_same (without_flags (type_numbered (types_of self.now.rows.entries) number)) (without_flags (type_numbered (types_of self.now.rows.entries) other)) }
    {
        self.plain(number) == self.plain(other)
    }
}
