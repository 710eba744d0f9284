// Types that are made of others.
ghost use Rattle.std.specs.Prelude.{◌≡◌, ◌<◌, All, IfOk, IfSome, OnOk, OnErr, Some, length, slice_get};

use crate::form::{Form, Marking, Marks, Shape};
use crate::rows::Rows;
use crate::shapes::ShapeBase;
use indexmap::IndexMap;
use sparse_model::TypeId;
use std::alloc::{AllocError, Global};

/// The rows of all types, and what was added to which type before.
#[derive(Drop)]
pub struct Maker {
    pub alloc: Global,
    pub rows: Rows,
    // A type that is marked again costs a look-up, however many levels it has.
    pub markings: IndexMap<Marking, u32>,
}

impl Rows {
    ghost use Rattle.std.specs.Prelude.{true};
    ghost use Rattle.meaning_types.specs.Types.{Typed, no_flags, no_qualifiers};
    ghost use Rattle.meaning_types.specs.Marks.{marked};
    ghost use Rattle.c_types.specs.Forms.{may_be_marked};
    ghost use Rattle.c_types.specs.Rows.{AreRows, Grows, IsInside, MayJoin, flags_in, form_seen, function_numbered, qualifiers_in, type_seen, types_of};

    /// The number of the type of this shape.
    pub fn make(&mut self, shape: Shape) -> Result<u32, AllocError>
        requires rows { AreRows self.old.rows.entries }
        requires may { MayJoin self.old.rows.entries shape }
        ensures stands { IfOk result (λ number. slice_get (types_of self.new.rows.entries) number ≡ Some (type_seen (types_of self.old.rows.entries) shape)) }
        ensures rows { AreRows self.new.rows.entries }
        ensures grows { Grows self.old.rows.entries self.new.rows.entries }
        ensures err { OnErr result (self.new.rows.entries ≡ self.old.rows.entries) }
    {
        self.reserve(1)?;
        Ok(self.add(shape))
    }

    // The number of the type with this form, which is neither an array nor a function.
    fn make_marked(&mut self, form: Form, marks: Marks) -> Result<u32, AllocError>
        requires rows { AreRows self.old.rows.entries }
        requires inside { IsInside (types_of self.old.rows.entries) form }
        requires markable { may_be_marked form ≡ true }
        ensures stands { IfOk result (λ number. slice_get (types_of self.new.rows.entries) number ≡ Some (marked (qualifiers_in marks) (flags_in marks) (Typed (form_seen (types_of self.old.rows.entries) form) no_qualifiers no_flags))) }
        ensures rows { AreRows self.new.rows.entries }
        ensures grows { Grows self.old.rows.entries self.new.rows.entries }
        ensures err { OnErr result (self.new.rows.entries ≡ self.old.rows.entries) }
    {
        self.make(Shape { form, marks })
    }

    // The number of the type of functions with this result and these parameters, which join from the last
    // one on, so types with one result share the ends of their lists.
    fn make_function(
        &mut self,
        answer: u32,
        parameters: &[TypeId],
        variadic: bool,
    ) -> Result<u32, AllocError>
        requires rows { AreRows self.old.rows.entries }
        requires answer { answer < length (types_of self.old.rows.entries) }
        requires parameters { All (λ id. id.0 < length (types_of self.old.rows.entries)) parameters.now }
        ensures stands { IfOk result (λ number. slice_get (types_of self.new.rows.entries) number ≡ Some (function_numbered (types_of self.old.rows.entries) answer parameters.now variadic)) }
        ensures rows { AreRows self.new.rows.entries }
        ensures grows { Grows self.old.rows.entries self.new.rows.entries }
        ensures err { OnErr result (self.new.rows.entries ≡ self.old.rows.entries) }
    {
        self.reserve(parameters.len() + 1)?;
        let mut number = self.add(Shape::unmarked(Form::Function(answer, variadic)));
        let mut rest = parameters;
        while let Some((parameter, front)) = rest.split_last() {
            number = self.add(Shape::unmarked(Form::Parameter(parameter.0, number)));
            rest = front;
        }
        Ok(number)
    }
}

impl Maker {
    ghost use Rattle.std.specs.Prelude.{[]};
    ghost use Rattle.meaning_types.specs.Types.{Typed, no_flags, no_qualifiers};
    ghost use Rattle.meaning_types.specs.Marks.{marked};
    ghost use Rattle.c_types.specs.Levels.{AreMarkings, IsMarked};
    ghost use Rattle.c_types.specs.Table.{IsShapeOver, base_of_shape};
    ghost use Rattle.c_types.specs.Rows.{AreRows, Grows, array_numbered, flags_in, qualifiers_in, types_of};

    /// Nothing was made of these rows so far.
    pub fn new(alloc: Global, rows: Rows) -> Maker
        ensures rows { result.rows.rows.entries ≡ rows.rows.entries }
        ensures markings { result.markings.entries ≡ [] }
    {
        Maker {
            alloc,
            rows,
            markings: IndexMap::new(alloc),
        }
    }

    /// The number of the type with this base, to which these qualifiers and flags are added.
    pub fn make_base(&mut self, base: ShapeBase, marks: Marks) -> Result<u32, AllocError>
        requires rows { AreRows self.old.rows.rows.entries }
        requires markings { AreMarkings self.old.rows.rows.entries self.old.markings.entries }
        requires inside { IsShapeOver (types_of self.old.rows.rows.entries) base }
        ensures stands { IfOk result (λ number. slice_get (types_of self.new.rows.rows.entries) number ≡ Some (marked (qualifiers_in marks) (flags_in marks) (Typed (base_of_shape (types_of self.old.rows.rows.entries) base) no_qualifiers no_flags))) }
        ensures rows { AreRows self.new.rows.rows.entries }
        ensures markings { AreMarkings self.new.rows.rows.entries self.new.markings.entries }
        ensures grows { Grows self.old.rows.rows.entries self.new.rows.rows.entries }
        ensures err { OnErr result (self.new.rows.rows.entries ≡ self.old.rows.rows.entries) }
    {
        match base {
            ShapeBase::Void => self.rows.make_marked(Form::Void, marks),
            ShapeBase::Integer(kind, None) => self.rows.make_marked(Form::Integer(kind), marks),
            ShapeBase::Integer(kind, Some(identity)) => {
                self.rows
                    .make_marked(Form::Restricted(kind, identity.0), marks)
            }
            ShapeBase::Pointer(target) => self.rows.make_marked(Form::Pointer(target.0), marks),
            ShapeBase::Aggregate(number, is_union) => {
                self.rows
                    .make_marked(Form::Aggregate(number, is_union), marks)
            }
            ShapeBase::Array(element, count) => self.make_array(element.0, count, marks),
            ShapeBase::Function(answer, parameters, variadic) => {
                self.rows
                    .make_function(answer.0, parameters.as_slice(), variadic)
            }
        }
    }

    // The number of the type of arrays of such elements, to which something is added.
    fn make_array(
        &mut self,
        element: u32,
        count: Option<u64>,
        marks: Marks,
    ) -> Result<u32, AllocError>
        requires rows { AreRows self.old.rows.rows.entries }
        requires markings { AreMarkings self.old.rows.rows.entries self.old.markings.entries }
        requires element { element < length (types_of self.old.rows.rows.entries) }
        ensures stands { IfOk result (λ number. slice_get (types_of self.new.rows.rows.entries) number ≡ Some (marked (qualifiers_in marks) (flags_in marks) (array_numbered (types_of self.old.rows.rows.entries) element count))) }
        ensures rows { AreRows self.new.rows.rows.entries }
        ensures markings { AreMarkings self.new.rows.rows.entries self.new.markings.entries }
        ensures grows { Grows self.old.rows.rows.entries self.new.rows.rows.entries }
        ensures err { OnErr result (self.new.rows.rows.entries ≡ self.old.rows.rows.entries) }
    {
        match self.known(element, marks) {
            Some(marked) => self
                .rows
                .make(Shape::unmarked(Form::array_of(marked, count))),
            None => self.make_marked_array(element, count, marks),
        }
    }

    // The same, where nothing was made of the element with these marks before.
    fn make_marked_array(
        &mut self,
        element: u32,
        count: Option<u64>,
        marks: Marks,
    ) -> Result<u32, AllocError>
        requires rows { AreRows self.old.rows.rows.entries }
        requires markings { AreMarkings self.old.rows.rows.entries self.old.markings.entries }
        requires element { element < length (types_of self.old.rows.rows.entries) }
        ensures stands { IfOk result (λ number. slice_get (types_of self.new.rows.rows.entries) number ≡ Some (marked (qualifiers_in marks) (flags_in marks) (array_numbered (types_of self.old.rows.rows.entries) element count))) }
        ensures rows { AreRows self.new.rows.rows.entries }
        ensures markings { AreMarkings self.new.rows.rows.entries self.new.markings.entries }
        ensures grows { Grows self.old.rows.rows.entries self.new.rows.rows.entries }
        ensures err { OnErr result (self.new.rows.rows.entries ≡ self.old.rows.rows.entries) }
    {
        let levels = self.rows.levels(self.alloc, element)?;
        self.rows.reserve(levels.arrays.len() + 2)?;
        let marked = self.rows.mark_levels(levels, marks);
        self.remember(element, marks, marked);
        Ok(
            self.rows
                .add(Shape::unmarked(Form::array_of(marked, count))),
        )
    }

    // The number of a type with what is added to it, where that is nothing or was added before.
    fn known(&self, number: u32, marks: Marks) -> Option<u32>
        requires rows { AreRows self.now.rows.rows.entries }
        requires markings { AreMarkings self.now.rows.rows.entries self.now.markings.entries }
        requires number { number < length (types_of self.now.rows.rows.entries) }
        ensures { IfSome result (IsMarked (types_of self.now.rows.rows.entries) (record { number = number; marks = marks })) }
    {
        if !marks.are_some() {
            return Some(number);
        }
        self.markings.get(&Marking { number, marks }).copied()
    }

    // Remembers the number of a type with what is added to it. If there is no memory for that, it is made
    // again.
    fn remember(&mut self, number: u32, marks: Marks, marked: u32)
        requires markings { AreMarkings self.old.rows.rows.entries self.old.markings.entries }
        requires marked { IsMarked (types_of self.old.rows.rows.entries) (record { number = number; marks = marks }) marked }
        ensures markings { AreMarkings self.old.rows.rows.entries self.new.markings.entries }
        ensures same { self.new.rows ≡ self.old.rows }
    {
        let _remembered = self.markings.insert(Marking { number, marks }, marked);
    }
}
