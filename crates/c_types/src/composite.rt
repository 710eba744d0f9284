// The one type of two declarations (C11 6.2.7 p3).
ghost use Rattle.std.specs.Prelude.{◌≡◌, ◌<◌, IfOk, IfSome, OnErr, length, option_map};
ghost use Rattle.meaning_types.specs.Composite.{completed, composite};
ghost use Rattle.c_types.specs.Forms.{only_length};
ghost use Rattle.c_types.specs.Rows.{AreRows, Grows, array_if_same, type_numbered, types_of};

use crate::form::{Form, Shape};
use crate::rows::Rows;
use std::alloc::AllocError;

impl Rows {
    /// The one type of two: of types that are the same the first, and of two arrays of the same element, one
    /// without a length, the first with that length.
    pub fn make_composite(&mut self, number: u32, other: u32) -> Result<Option<u32>, AllocError>
        requires rows { AreRows self.old.rows.entries }
        requires first { number < length (types_of self.old.rows.entries) }
        requires second { other < length (types_of self.old.rows.entries) }
        ensures composite { IfOk result (λ found. option_map (type_numbered (types_of self.new.rows.entries)) found ≡ composite (type_numbered (types_of self.old.rows.entries) number) (type_numbered (types_of self.old.rows.entries) other)) }
        ensures known { IfOk result (λ found. IfSome found (λ one. one < length (types_of self.new.rows.entries))) }
        ensures rows { AreRows self.new.rows.entries }
        ensures grows { Grows self.old.rows.entries self.new.rows.entries }
        ensures err { OnErr result (self.new.rows.entries ≡ self.old.rows.entries) }
    {
        if self.same(number, other) {
            return Ok(Some(number));
        }
        self.make_completed(number, other)
    }

    // The same, where they aren't.
    fn make_completed(&mut self, number: u32, other: u32) -> Result<Option<u32>, AllocError>
        requires rows { AreRows self.old.rows.entries }
        requires first { number < length (types_of self.old.rows.entries) }
        requires second { other < length (types_of self.old.rows.entries) }
        ensures composite { IfOk result (λ found. option_map (type_numbered (types_of self.new.rows.entries)) found ≡ completed (type_numbered (types_of self.old.rows.entries) number) (type_numbered (types_of self.old.rows.entries) other)) }
        ensures known { IfOk result (λ found. IfSome found (λ one. one < length (types_of self.new.rows.entries))) }
        ensures rows { AreRows self.new.rows.entries }
        ensures grows { Grows self.old.rows.entries self.new.rows.entries }
        ensures err { OnErr result (self.new.rows.entries ≡ self.old.rows.entries) }
    {
        let Some((element, own)) = self.row(number).0.form.array() else {
            return Ok(None);
        };
        let Some((another, length)) = self.row(other).0.form.array() else {
            return Ok(None);
        };
        self.make_array_if_same(element, another, only_known(own, length))
    }

    // The array of an element with this length, if there is one, and the other element is the same.
    fn make_array_if_same(
        &mut self,
        element: u32,
        another: u32,
        count: Option<u64>,
    ) -> Result<Option<u32>, AllocError>
        requires rows { AreRows self.old.rows.entries }
        requires first { element < length (types_of self.old.rows.entries) }
        requires second { another < length (types_of self.old.rows.entries) }
        ensures found { IfOk result (λ found. option_map (type_numbered (types_of self.new.rows.entries)) found ≡ array_if_same (type_numbered (types_of self.old.rows.entries) element) (type_numbered (types_of self.old.rows.entries) another) count) }
        ensures known { IfOk result (λ found. IfSome found (λ one. one < length (types_of self.new.rows.entries))) }
        ensures rows { AreRows self.new.rows.entries }
        ensures grows { Grows self.old.rows.entries self.new.rows.entries }
        ensures err { OnErr result (self.new.rows.entries ≡ self.old.rows.entries) }
    {
        let Some(count) = count else {
            return Ok(None);
        };
        if !self.same(element, another) {
            return Ok(None);
        }
        let array = self.make(Shape::unmarked(Form::Array(element, count)))?;
        Ok(Some(array))
    }
}

// The length that is known, if the other one isn't.
fn only_known(length: Option<u64>, other: Option<u64>) -> Option<u64>
    ensures { result ≡ only_length length other }
{
    match length {
        None => other,
        Some(count) => match other {
            None => Some(count),
            Some(_) => None,
        },
    }
}
