// What is added to an array is added to its element: the levels of an array are made anew, the innermost
// first.
ghost use Rattle.std.specs.Prelude.{◌≡◌, ◌<◌, ◌≤◌, ◌+◌, ◌*◌, ◌^◌, IfNone, IfOk, IfSome, Some, length, slice_get};
ghost use Rattle.indexmap.specs.IndexMap.{spare};
ghost use Rattle.meaning_types.specs.Marks.{marked};
ghost use Rattle.c_types.specs.Rows.{AreRows, Grows, flags_in, qualifiers_in, type_numbered, types_of};
ghost use Rattle.c_types.specs.Levels.{AreLevels, IsLevel, IsSingle, over_element};

use crate::form::{Marks, Shape};
use crate::rows::Rows;
use std::alloc::{AllocError, Global};

/// A type, the levels of arrays in it from the outermost on, and what the last one has as its element: the
/// type itself, where that is no array.
#[derive(Drop)]
pub struct Levels {
    pub whole: u32,
    pub arrays: Vec<u32>,
    pub inner: u32,
}

impl Rows {
    /// The number of the element of an array.
    pub fn element(&self, number: u32) -> Option<u32>
        requires rows { AreRows self.now.rows.entries }
        requires known { number < length self.now.rows.entries }
        ensures level { IfSome result (IsLevel self.now.rows.entries number) }
        ensures single { IfNone result (IsSingle self.now.rows.entries number) }
        ensures earlier { IfSome result (λ element. element < number) }
    {
        self.row(number).0.form.element()
    }

    /// The levels of a type.
    pub fn levels(&self, alloc: Global, number: u32) -> Result<Levels, AllocError>
        requires rows { AreRows self.now.rows.entries }
        requires known { number < length self.now.rows.entries }
        ensures whole { IfOk result (λ levels. levels.whole ≡ number) }
        ensures levels { IfOk result (AreLevels self.now.rows.entries) }
    {
        let mut arrays = Vec::new(alloc);
        let mut inner = number;
        while let Some(element) = self.element(inner) {
            arrays.push(inner)?;
            inner = element;
        }
        Ok(Levels {
            whole: number,
            arrays,
            inner,
        })
    }

    // The number of a type that is no array, with these qualifiers and flags besides.
    fn mark_single(&mut self, number: u32, marks: Marks) -> u32
        requires rows { AreRows self.old.rows.entries }
        requires room { 3 ≤ spare self.old.rows }
        requires few { length self.old.rows.entries + 3 ≤ 2 ^ 30 }
        requires single { IsSingle self.old.rows.entries number }
        ensures stands { slice_get (types_of self.new.rows.entries) result ≡ Some (marked (qualifiers_in marks) (flags_in marks) (type_numbered (types_of self.old.rows.entries) number)) }
        ensures rows { AreRows self.new.rows.entries }
        ensures grows { Grows self.old.rows.entries self.new.rows.entries }
        ensures three { length self.new.rows.entries ≤ length self.old.rows.entries + 3 }
        ensures spare { spare self.old.rows ≤ spare self.new.rows + 3 }
    {
        let (shape, _) = self.row(number);
        if shape.form.may_be_marked() {
            self.add(Shape {
                form: shape.form,
                marks: shape.marks.and(marks),
            })
        } else {
            number
        }
    }

    // The number of the array that has another element in its place.
    fn replace_element(&mut self, array: u32, element: u32) -> u32
        requires rows { AreRows self.old.rows.entries }
        requires room { 3 ≤ spare self.old.rows }
        requires few { length self.old.rows.entries + 3 ≤ 2 ^ 30 }
        requires array { array < length self.old.rows.entries }
        requires element { element < length (types_of self.old.rows.entries) }
        ensures stands { slice_get (types_of self.new.rows.entries) result ≡ Some (over_element (type_numbered (types_of self.old.rows.entries) array) (type_numbered (types_of self.old.rows.entries) element)) }
        ensures rows { AreRows self.new.rows.entries }
        ensures grows { Grows self.old.rows.entries self.new.rows.entries }
        ensures three { length self.new.rows.entries ≤ length self.old.rows.entries + 3 }
        ensures spare { spare self.old.rows ≤ spare self.new.rows + 3 }
    {
        let (shape, _) = self.row(array);
        self.add(Shape {
            form: shape.form.with_element(element),
            ..shape
        })
    }

    /// The number of the type with these levels, with these qualifiers and flags besides.
    pub fn mark_levels(&mut self, levels: Levels, marks: Marks) -> u32
        requires rows { AreRows self.old.rows.entries }
        requires levels { AreLevels self.old.rows.entries levels }
        requires room { 3 * length levels.arrays.items + 3 ≤ spare self.old.rows }
        requires few { length self.old.rows.entries + 3 * length levels.arrays.items + 3 ≤ 2 ^ 30 }
        ensures stands { slice_get (types_of self.new.rows.entries) result ≡ Some (marked (qualifiers_in marks) (flags_in marks) (type_numbered (types_of self.old.rows.entries) levels.whole)) }
        ensures rows { AreRows self.new.rows.entries }
        ensures grows { Grows self.old.rows.entries self.new.rows.entries }
        ensures more { length self.new.rows.entries ≤ length self.old.rows.entries + 3 * length levels.arrays.items + 3 }
        ensures spare { spare self.old.rows ≤ spare self.new.rows + 3 * length levels.arrays.items + 3 }
    {
        let Levels {
            mut arrays,
            inner,
            ..
        } = levels;
        let mut number = self.mark_single(inner, marks);
        while let Some(array) = arrays.pop() {
            number = self.replace_element(array, number);
        }
        number
    }
}
