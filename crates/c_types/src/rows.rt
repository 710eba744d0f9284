// The rows of the table: each type once, with what is left of it.
use crate::form::{Form, Reduced, Shape, TypeFacts};
use indexmap::IndexMap;
use sparse_model::IntKind;
use std::alloc::{AllocError, Global};

/// How many types a table may hold.
const MAX_TYPES: usize = 1 << 30;

/// The kinds in the order of their numbers.
const KINDS: [IntKind; 12] = [
    IntKind::Bool,
    IntKind::Char,
    IntKind::SChar,
    IntKind::UChar,
    IntKind::Short,
    IntKind::UShort,
    IntKind::Int,
    IntKind::UInt,
    IntKind::Long,
    IntKind::ULong,
    IntKind::LLong,
    IntKind::ULLong,
];

/// Types by their numbers. A shape stands once, so equal types have equal numbers.
#[derive(Drop)]
pub struct Rows {
    pub rows: IndexMap<Shape, TypeFacts>,
}

impl Rows {
    ghost use Rattle.std.specs.Prelude.{◌≡◌, ◌<◌, ◌≤◌, ◌+◌, ◌*◌, ◌^◌, [], Some, length, slice_get, IfOk, IfSome, OnOk, OnErr, option_map};
    ghost use Rattle.indexmap.specs.IndexMap.{spare};
    ghost use Rattle.meaning_types.specs.Types.{bare, bare_base, without_flags, base_without_flags};
    ghost use Rattle.meaning_types.specs.Equality.{all_kinds};
    ghost use Rattle.c_types.specs.Table.{plain_integers, pointed_at};
    ghost use Rattle.c_types.specs.Rows.{AreRows, Grows, IsFunction, IsInside, JoinsRight, MayJoin, form_seen, type_numbered, type_seen, types_of};

    /// No types, in no memory.
    pub fn new(alloc: Global) -> Rows
        ensures { result.rows.entries ≡ [] }
    {
        Rows {
            rows: IndexMap::new(alloc),
        }
    }

    /// The integer types of all kinds, each without qualifiers and flags.
    pub fn of_integers(alloc: Global) -> Result<Rows, AllocError>
        ensures rows { IfOk result (λ rows. AreRows rows.rows.entries) }
        ensures types { IfOk result (λ rows. types_of rows.rows.entries ≡ plain_integers) }
    {
        let mut rows = Rows::new(alloc);
        rows.reserve(KINDS.len())?;
        rows.join_integers(&KINDS);
        Ok(rows)
    }

    // The integer types of these kinds, which are all, join the rows, of which there are none.
    fn join_integers(&mut self, kinds: &[IntKind])
        requires none { self.old.rows.entries ≡ [] }
        requires all { kinds.now ≡ all_kinds }
        requires room { 12 ≤ spare self.old.rows }
        ensures rows { AreRows self.new.rows.entries }
        ensures types { types_of self.new.rows.entries ≡ plain_integers }
    {
        for &kind in kinds {
            let own = self.len();
            self.join(
                Shape::unmarked(Form::Integer(kind)),
                Reduced {
                    bare: own,
                    plain: own,
                },
            );
        }
    }

    /// How many types there are.
    pub fn len(&self) -> u32
        requires { AreRows self.now.rows.entries }
        ensures count { result ≡ length self.now.rows.entries }
        ensures few { result ≤ 2 ^ 30 }
    {
        self.rows.len() as u32
    }

    /// Makes room for so many types, each with what is left of it.
    pub fn reserve(&mut self, count: usize) -> Result<(), AllocError>
        requires rows { AreRows self.old.rows.entries }
        ensures same { self.new.rows.entries ≡ self.old.rows.entries }
        ensures room { OnOk result (3 * count ≤ spare self.new.rows) }
        ensures few { OnOk result (length self.new.rows.entries + 3 * count ≤ 2 ^ 30) }
    {
        if count > (MAX_TYPES - self.rows.len()) / 3 {
            return Err(AllocError);
        }
        self.rows.reserve(3 * count)
    }

    /// The row of a type.
    pub fn row(&self, number: u32) -> (Shape, TypeFacts)
        requires { number < length self.now.rows.entries }
        ensures { slice_get self.now.rows.entries number ≡ Some result }
    {
        let (shape, facts) = self.rows.get_index(number as usize).unwrap();
        (*shape, *facts)
    }

    /// The number of the type of this shape, if it has one.
    pub fn find(&self, shape: Shape) -> Option<u32>
        requires { AreRows self.now.rows.entries }
        ensures stands { IfSome result (λ number. slice_get (types_of self.now.rows.entries) number ≡ Some (type_seen (types_of self.now.rows.entries) shape)) }
    {
        match self.rows.get_index_of(&shape) {
            Some(index) => Some(index as u32),
            None => None,
        }
    }

    // The number of the type of this shape, which joins the rows with what is left of it if it is new.
    fn join(&mut self, shape: Shape, reduced: Reduced) -> u32
        requires rows { AreRows self.old.rows.entries }
        requires room { 0 < spare self.old.rows }
        requires few { length self.old.rows.entries < 2 ^ 30 }
        requires may { MayJoin self.old.rows.entries shape }
        requires right { JoinsRight self.old.rows.entries shape reduced }
        ensures stands { slice_get (types_of self.new.rows.entries) result ≡ Some (type_seen (types_of self.old.rows.entries) shape) }
        ensures rows { AreRows self.new.rows.entries }
        ensures grows { Grows self.old.rows.entries self.new.rows.entries }
        ensures one { length self.new.rows.entries ≤ length self.old.rows.entries + 1 }
        ensures spare { spare self.old.rows ≤ spare self.new.rows + 1 }
    {
        if let Some(index) = self.rows.get_index_of(&shape) {
            return index as u32;
        }
        let Reduced { bare, plain } = reduced;
        let facts = TypeFacts {
            bare,
            plain,
            elements: self.elements_of(shape.form),
        };
        let index = self.rows.len();
        self.rows.insert(shape, facts).unwrap();
        index as u32
    }

    /// The number of a type without const and volatile at every level.
    pub fn bare(&self, number: u32) -> u32
        requires rows { AreRows self.now.rows.entries }
        requires known { number < length (types_of self.now.rows.entries) }
        ensures known { result < length (types_of self.now.rows.entries) }
        ensures function { IsFunction (type_numbered (types_of self.now.rows.entries) number) → IsFunction (type_numbered (types_of self.now.rows.entries) result) }
        ensures bare { type_numbered (types_of self.now.rows.entries) result ≡ bare (type_numbered (types_of self.now.rows.entries) number) }
    {
        self.row(number).1.bare
    }

    /// The number of a type without const, volatile and flags at every level.
    pub fn plain(&self, number: u32) -> u32
        requires rows { AreRows self.now.rows.entries }
        requires known { number < length (types_of self.now.rows.entries) }
        ensures known { result < length (types_of self.now.rows.entries) }
        ensures function { IsFunction (type_numbered (types_of self.now.rows.entries) number) → IsFunction (type_numbered (types_of self.now.rows.entries) result) }
        ensures plain { type_numbered (types_of self.now.rows.entries) result ≡ without_flags (bare (type_numbered (types_of self.now.rows.entries) number)) }
    {
        self.row(number).1.plain
    }

    /// The number of the type to which a pointer points.
    pub fn target(&self, number: u32) -> Option<u32>
        requires rows { AreRows self.now.rows.entries }
        requires known { number < length (types_of self.now.rows.entries) }
        ensures target { option_map (type_numbered (types_of self.now.rows.entries)) result ≡ pointed_at (type_numbered (types_of self.now.rows.entries) number) }
        ensures known { IfSome result (λ target. target < length (types_of self.now.rows.entries)) }
    {
        self.row(number).0.form.target()
    }

    // The form with bare types in it.
    fn bare_form(&self, form: Form) -> Form
        requires rows { AreRows self.now.rows.entries }
        requires inside { IsInside (types_of self.now.rows.entries) form }
        ensures inside { IsInside (types_of self.now.rows.entries) result }
        ensures bare { form_seen (types_of self.now.rows.entries) result ≡ bare_base (form_seen (types_of self.now.rows.entries) form) }
    {
        match form {
            Form::Pointer(target) => Form::Pointer(self.bare(target)),
            Form::Array(element, count) => Form::Array(self.bare(element), count),
            Form::OpenArray(element) => Form::OpenArray(self.bare(element)),
            Form::Function(answer, variadic) => Form::Function(self.bare(answer), variadic),
            Form::Parameter(first, rest) => Form::Parameter(self.bare(first), self.bare(rest)),
            Form::Void => Form::Void,
            Form::Integer(kind) => Form::Integer(kind),
            Form::Restricted(kind, identity) => Form::Restricted(kind, identity),
            Form::Aggregate(number, is_union) => Form::Aggregate(number, is_union),
        }
    }

    // The form with plain types in it.
    fn plain_form(&self, form: Form) -> Form
        requires rows { AreRows self.now.rows.entries }
        requires inside { IsInside (types_of self.now.rows.entries) form }
        ensures inside { IsInside (types_of self.now.rows.entries) result }
        ensures plain { form_seen (types_of self.now.rows.entries) result ≡ base_without_flags (bare_base (form_seen (types_of self.now.rows.entries) form)) }
    {
        match form {
            Form::Pointer(target) => Form::Pointer(self.plain(target)),
            Form::Array(element, count) => Form::Array(self.plain(element), count),
            Form::OpenArray(element) => Form::OpenArray(self.plain(element)),
            Form::Function(answer, variadic) => Form::Function(self.plain(answer), variadic),
            Form::Parameter(first, rest) => Form::Parameter(self.plain(first), self.plain(rest)),
            Form::Void => Form::Void,
            Form::Integer(kind) => Form::Integer(kind),
            Form::Restricted(kind, identity) => Form::Restricted(kind, identity),
            Form::Aggregate(number, is_union) => Form::Aggregate(number, is_union),
        }
    }

    // The number of what is left of this shape without const, volatile and flags at every level.
    fn add_plain(&mut self, shape: Shape) -> u32
        requires rows { AreRows self.old.rows.entries }
        requires room { 0 < spare self.old.rows }
        requires few { length self.old.rows.entries < 2 ^ 30 }
        requires may { MayJoin self.old.rows.entries shape }
        ensures stands { slice_get (types_of self.new.rows.entries) result ≡ Some (without_flags (bare (type_seen (types_of self.old.rows.entries) shape))) }
        ensures rows { AreRows self.new.rows.entries }
        ensures grows { Grows self.old.rows.entries self.new.rows.entries }
        ensures one { length self.new.rows.entries ≤ length self.old.rows.entries + 1 }
        ensures spare { spare self.old.rows ≤ spare self.new.rows + 1 }
    {
        let plain = Shape::unmarked(self.plain_form(shape.form));
        let own = self.len();
        self.join(
            plain,
            Reduced {
                bare: own,
                plain: own,
            },
        )
    }

    // The number of what is left of this shape without const and volatile at every level, where what is
    // left without flags besides has this number.
    fn add_bare(&mut self, shape: Shape, plain: u32) -> u32
        requires rows { AreRows self.old.rows.entries }
        requires room { 0 < spare self.old.rows }
        requires few { length self.old.rows.entries < 2 ^ 30 }
        requires may { MayJoin self.old.rows.entries shape }
        requires plain { slice_get (types_of self.old.rows.entries) plain ≡ Some (without_flags (bare (type_seen (types_of self.old.rows.entries) shape))) }
        ensures stands { slice_get (types_of self.new.rows.entries) result ≡ Some (bare (type_seen (types_of self.old.rows.entries) shape)) }
        ensures rows { AreRows self.new.rows.entries }
        ensures grows { Grows self.old.rows.entries self.new.rows.entries }
        ensures one { length self.new.rows.entries ≤ length self.old.rows.entries + 1 }
        ensures spare { spare self.old.rows ≤ spare self.new.rows + 1 }
    {
        let bare = Shape {
            form: self.bare_form(shape.form),
            marks: shape.marks.unqualified(),
        };
        let own = self.len();
        self.join(bare, Reduced { bare: own, plain })
    }

    /// The number of the type of this shape, which joins the rows if it is new, behind what is left of it.
    pub fn add(&mut self, shape: Shape) -> u32
        requires rows { AreRows self.old.rows.entries }
        requires room { 3 ≤ spare self.old.rows }
        requires few { length self.old.rows.entries + 3 ≤ 2 ^ 30 }
        requires may { MayJoin self.old.rows.entries shape }
        ensures stands { slice_get (types_of self.new.rows.entries) result ≡ Some (type_seen (types_of self.old.rows.entries) shape) }
        ensures rows { AreRows self.new.rows.entries }
        ensures grows { Grows self.old.rows.entries self.new.rows.entries }
        ensures three { length self.new.rows.entries ≤ length self.old.rows.entries + 3 }
        ensures spare { spare self.old.rows ≤ spare self.new.rows + 3 }
    {
        if let Some(number) = self.find(shape) {
            return number;
        }
        let plain = self.add_plain(shape);
        let bare = self.add_bare(shape, plain);
        self.join(shape, Reduced { bare, plain })
    }
}
