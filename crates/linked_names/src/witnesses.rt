// The few declarations of a name that tell which is the first that disagrees with another type (C11 6.2.7 p3).
//
// Two types agree where they have one form and are the same, or one of them is an open array and the other isn't. So of
// those that have another form than the first declaration one is enough, and so are two of the open arrays that aren't
// the same, and two of the others.
ghost use Rattle.std.specs.Prelude.{◌≡◌, ◌<◌, ◌-◌, ◌^◌, IfOk};
ghost use Rattle.c_types.specs.Table.{IsTypeId};
ghost use Rattle.linked_names.specs.Contexts.{placed_unlike};
ghost use Rattle.linked_names.specs.Witnesses.{AreWitnessIds, no_witnesses, unlike_witness, witnesses_with};

use crate::forms::{have_one_form, is_open_array};
use crate::group::Group;
use crate::placed::{Placed, earlier};
use c_types::Types;
use sparse_model::TypeId;
use std::alloc::AllocError;

/// The first declarations of a name, of each kind that matters.
#[derive(Clone, Copy)]
pub(crate) struct Witnesses {
    /// The type of the first of all.
    pub first: TypeId,
    /// How many there are.
    pub count: u32,
    /// The first of another form.
    pub foreign: Option<Placed>,
    /// The arrays without a length.
    pub open_arrays: Group,
    /// All others of the form of the first.
    pub others: Group,
}

impl Witnesses {
    /// None yet, where a declaration of this type is to be the first.
    pub(crate) fn new(first: TypeId) -> Witnesses
        ensures { result ≡ no_witnesses first }
    {
        Witnesses {
            first,
            count: 0,
            foreign: None,
            open_arrays: Group::new(),
            others: Group::new(),
        }
    }

    /// The first that disagrees with a type.
    pub(crate) fn first_unlike(self, types: &Types, of: TypeId) -> Option<TypeId>
        requires ids { AreWitnessIds types.now self }
        requires known { IsTypeId types.now of }
        ensures { result ≡ unlike_witness types.now self of }
    {
        if !have_one_form(types, self.first, of) {
            return Some(self.first);
        }
        let group = if is_open_array(types, of) {
            self.open_arrays
        } else {
            self.others
        };
        let found = earlier(self.foreign, group.first_unlike(types, of))?;
        Some(found.of)
    }

    /// The same declaration with its place.
    pub(crate) fn placed_unlike(self, types: &Types, of: TypeId) -> Option<Placed>
        requires ids { AreWitnessIds types.now self }
        requires known { IsTypeId types.now of }
        ensures { result ≡ placed_unlike types.now self of }
    {
        if !have_one_form(types, self.first, of) {
            return Some(Placed {
                place: 0,
                of: self.first,
            });
        }
        let group = if is_open_array(types, of) {
            self.open_arrays
        } else {
            self.others
        };
        earlier(self.foreign, group.first_unlike(types, of))
    }

    /// The witnesses with a declaration more. More than 2^32 - 1 are want of memory.
    pub(crate) fn with(self, types: &Types, of: TypeId) -> Result<Witnesses, AllocError>
        requires ids { AreWitnessIds types.now self }
        requires known { IsTypeId types.now of }
        ensures { IfOk result (λ witnesses. witnesses ≡ witnesses_with types.now self of) }
    {
        if self.count == u32::MAX {
            return Err(AllocError);
        }
        Ok(self.joined(types, of))
    }

    // The same, where there are fewer.
    fn joined(self, types: &Types, of: TypeId) -> Witnesses
        requires ids { AreWitnessIds types.now self }
        requires known { IsTypeId types.now of }
        requires few { self.count < 2 ^ 32 - 1 }
        ensures { result ≡ witnesses_with types.now self of }
    {
        let next = Placed {
            place: self.count,
            of,
        };
        let count = self.count + 1;
        if !have_one_form(types, self.first, of) {
            let foreign = self.foreign.or(Some(next));
            return Witnesses {
                count,
                foreign,
                ..self
            };
        }
        if is_open_array(types, of) {
            let open_arrays = self.open_arrays.with(types, next);
            return Witnesses {
                count,
                open_arrays,
                ..self
            };
        }
        let others = self.others.with(types, next);
        Witnesses {
            count,
            others,
            ..self
        }
    }
}
