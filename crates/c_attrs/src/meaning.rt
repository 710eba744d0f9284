// What an item may mean. How it is read isn't known here.
use crate::attribute::Attribute;

/// Which arguments are bad.
#[derive(Clone, Copy, Debug, PartialEq, Eq)]
pub(crate) enum Bad {
    Space,
    Context,
    Align,
}

/// The meaning of an item, or what is bad in it.
#[derive(Clone, Copy, Debug, PartialEq, Eq)]
pub(crate) enum Meaning {
    Means(Attribute),
    Nothing,
    Bad(Bad),
    /// Its form is that of a context, and a number in it is beyond the limit of a step.
    PassesLimit,
}
