// What a row tells of its type.
ghost use Rattle.std.specs.Prelude.{◌≡◌, ◌<◌, ◌↔◌, IsTrue, IfNone, IfSome, Some, length};
ghost use Rattle.meaning_types.specs.Equality.{are_same};
ghost use Rattle.meaning_types.specs.Types.{FunctionTree, NoTypes};
ghost use Rattle.c_types.specs.Rows.{AreRows, IsFunction, base_of, is_variadic, parameter_types, result_of, space_seen, type_numbered, types_of};
ghost use Rattle.c_types.specs.Table.{IsOuterOver, base_of_outer, count_in, count_of, integer_kind, nth_type, space_of, type_of_outer};
ghost use Rattle.c_types.specs.Levels.{BeginsWith};

use crate::form::SpaceKey;
use crate::rows::Rows;
use crate::shapes::{OuterBase, OuterShape};
use sparse_model::{IntKind, NameId, Space, TypeId};

impl Rows {
    /// Whether a type has this number.
    pub fn has(&self, number: u32) -> bool
        requires { AreRows self.now.rows.entries }
        ensures { IsTrue result ↔ (number < length (types_of self.now.rows.entries)) }
    {
        number < self.len()
    }

    /// Whether two types are equal but for const and volatile at every level.
    pub fn same(&self, number: u32, other: u32) -> bool
        requires rows { AreRows self.now.rows.entries }
        requires first { number < length (types_of self.now.rows.entries) }
        requires second { other < length (types_of self.now.rows.entries) }
        ensures { result ≡ are_same (type_numbered (types_of self.now.rows.entries) number) (type_numbered (types_of self.now.rows.entries) other) }
    {
        self.bare(number) == self.bare(other)
    }

    /// Whether two types are equal: each stands once.
    pub fn equal(&self, number: u32, other: u32) -> bool
        requires rows { AreRows self.now.rows.entries }
        requires first { number < length (types_of self.now.rows.entries) }
        requires second { other < length (types_of self.now.rows.entries) }
        ensures { IsTrue result ↔ (type_numbered (types_of self.now.rows.entries) number ≡ type_numbered (types_of self.now.rows.entries) other) }
    {
        number == other
    }

    /// The kind of an integer type, restricted or not.
    pub fn kind(&self, number: u32) -> Option<IntKind>
        requires rows { AreRows self.now.rows.entries }
        requires known { number < length (types_of self.now.rows.entries) }
        ensures { result ≡ integer_kind (type_numbered (types_of self.now.rows.entries) number) }
    {
        self.row(number).0.form.kind()
    }

    /// The first parameter of a function type, and the type without it.
    pub fn first_parameter(&self, number: u32) -> Option<(u32, u32)>
        requires rows { AreRows self.now.rows.entries }
        requires known { number < length (types_of self.now.rows.entries) }
        ensures some { IfSome result (λ parts. BeginsWith (types_of self.now.rows.entries) number parts.0 parts.1) }
        ensures none { IfNone result (parameter_types (type_numbered (types_of self.now.rows.entries) number) ≡ NoTypes) }
    {
        self.row(number).0.form.parameter()
    }

    /// The type of a function's parameter, of which there are more than `index`.
    pub fn parameter(&self, number: u32, index: u32) -> u32
        requires rows { AreRows self.now.rows.entries }
        requires known { number < length (types_of self.now.rows.entries) }
        requires within { index < count_of (parameter_types (type_numbered (types_of self.now.rows.entries) number)) }
        ensures parameter { nth_type (parameter_types (type_numbered (types_of self.now.rows.entries) number)) index ≡ Some (type_numbered (types_of self.now.rows.entries) result) }
        ensures known { result < length (types_of self.now.rows.entries) }
    {
        let mut rest = number;
        let mut before = index;
        'parameters: while before > 0 {
            let (_, behind) = self.first_parameter(rest).unwrap();
            rest = behind;
            before -= 1;
        }
        self.first_parameter(rest).unwrap().0
    }

    // The base of a function type, with the number of its parameters.
    fn function_base(&self, number: u32) -> OuterBase
        requires rows { AreRows self.now.rows.entries }
        requires known { number < length (types_of self.now.rows.entries) }
        requires function { IsFunction (type_numbered (types_of self.now.rows.entries) number) }
        ensures base { base_of_outer (types_of self.now.rows.entries) (parameter_types (type_numbered (types_of self.now.rows.entries) number)) result ≡ base_of (type_numbered (types_of self.now.rows.entries) number) }
        ensures count { count_in result ≡ count_of (parameter_types (type_numbered (types_of self.now.rows.entries) number)) }
        ensures known { IsOuterOver (types_of self.now.rows.entries) result }
    {
        let mut rest = number;
        let mut count = 0;
        while let Some((_, behind)) = self.first_parameter(rest) {
            rest = behind;
            count += 1;
        }
        let (answer, variadic) = self.row(rest).0.form.function().unwrap();
        OuterBase::Function(TypeId(answer), count, variadic)
    }

    // The base of a type.
    fn outer_base(&self, number: u32) -> OuterBase
        requires rows { AreRows self.now.rows.entries }
        requires known { number < length (types_of self.now.rows.entries) }
        ensures base { base_of_outer (types_of self.now.rows.entries) (parameter_types (type_numbered (types_of self.now.rows.entries) number)) result ≡ base_of (type_numbered (types_of self.now.rows.entries) number) }
        ensures count { count_in result ≡ count_of (parameter_types (type_numbered (types_of self.now.rows.entries) number)) }
        ensures known { IsOuterOver (types_of self.now.rows.entries) result }
    {
        match self.row(number).0.form.outer_base() {
            Some(base) => base,
            None => self.function_base(number),
        }
    }

    /// The outermost level of a type.
    pub fn outer_shape(&self, number: u32) -> OuterShape
        requires rows { AreRows self.now.rows.entries }
        requires known { number < length (types_of self.now.rows.entries) }
        ensures shape { type_of_outer (types_of self.now.rows.entries) (parameter_types (type_numbered (types_of self.now.rows.entries) number)) result ≡ type_numbered (types_of self.now.rows.entries) number }
        ensures count { count_in result.base ≡ count_of (parameter_types (type_numbered (types_of self.now.rows.entries) number)) }
        ensures known { IsOuterOver (types_of self.now.rows.entries) result.base }
    {
        let base = self.outer_base(number);
        let (shape, _) = self.row(number);
        let words = shape.marks.words();
        OuterShape {
            base,
            is_const: words.is_const,
            is_volatile: words.is_volatile,
            noderef: words.noderef,
            space: space_at(shape.marks.space()),
        }
    }
}

// The space of a key.
fn space_at(key: SpaceKey) -> Space
    ensures { space_of result ≡ space_seen key }
{
    match key {
        SpaceKey::Absent => Space::None,
        SpaceKey::Number(number) => Space::Number(number),
        SpaceKey::Named(name) => Space::Named(NameId(name)),
    }
}
