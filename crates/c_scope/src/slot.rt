// What stands in the list of entries and marks: the entries of a scope that is left arrive, and their bindings leave,
// to be bound again later. What is visible isn't known here.
ghost use Rattle.std.specs.Prelude.{◌≡◌, IfOk, map};
ghost use Rattle.c_scope.specs.Seen.{entry_of};
ghost use Rattle.c_scope.specs.Slots.{entries_in};

use region_alloc::Handle;
use sparse_model::NameId;
use std::alloc::{AllocError, Global};
use vocabulary::{Bound, NameSpace};

/// A name that is bound, and what declared it.
#[derive(Clone, Copy, Debug, PartialEq, Eq)]
pub struct Binding {
    // The two short fields stand last, so that a slot has no gaps.
    pub name: NameId,
    pub handle: Handle,
    pub space: NameSpace,
    pub bound: Bound,
}

/// An entry or a mark, each with what is put back where it goes.
#[derive(Clone, Copy)]
pub(crate) enum Slot {
    /// A scope was opened. Before, so many slots stood up to the last mark, with it.
    Mark(u32),
    /// A name was bound. It hides the entry at this place.
    Name(Binding, Option<u32>),
}

const _: () = prove!(size_of::<Slot>() <= 24);

/// The entries among slots, in their order.
pub(crate) fn bindings_of(alloc: Global, slots: &[Slot]) -> Result<Vec<Binding>, AllocError>
    ensures { IfOk result (λ bindings. map entry_of bindings.items ≡ entries_in slots.now) }
{
    let mut bindings = Vec::with_capacity(alloc, slots.len())?;
    for slot in slots {
        if let Slot::Name(binding, _) = slot {
            bindings.push(*binding)?;
        }
    }
    Ok(bindings)
}
