// The contexts of a declaration, as far as declarations are compared by them.
ghost use Rattle.std.specs.Prelude.{◌≡◌};
ghost use Rattle.linked_names.specs.Contexts.{are_other_sums};

/// The sums of the counts with which a function is entered and left, over its contexts.
#[derive(Clone, Copy, Debug, PartialEq, Eq)]
pub struct ContextSums {
    pub enters: u64,
    pub leaves: u64,
}

/// Whether one of the sums differs.
pub(crate) fn are_other_sums(one: ContextSums, other: ContextSums) -> bool
    ensures { result ≡ are_other_sums one other }
{
    !(one.enters == other.enters && one.leaves == other.leaves)
}
