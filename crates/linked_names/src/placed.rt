// A declaration among those of its name.
ghost use Rattle.std.specs.Prelude.{◌≡◌};
ghost use Rattle.linked_names.specs.Witnesses.{earlier_of};

use sparse_model::TypeId;

/// The type of a declaration, and how many of the name stand before it.
#[derive(Clone, Copy)]
pub(crate) struct Placed {
    pub place: u32,
    pub of: TypeId,
}

/// The earlier of two that may be there.
pub(crate) fn earlier(one: Option<Placed>, other: Option<Placed>) -> Option<Placed>
    ensures { result ≡ earlier_of one other }
{
    match (one, other) {
        (Some(first), Some(second)) => {
            if first.place <= second.place {
                Some(first)
            } else {
                Some(second)
            }
        }
        (Some(first), None) => Some(first),
        (None, second) => second,
    }
}
