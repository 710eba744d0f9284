// What a context attribute says of a function. How it is written, and the paths that keep it, aren't known here.
use crate::seq::Seq;

/// A count of contexts at a function's borders: that with which it is entered, and that with which it is left.
#[derive(Clone, Copy, Debug, PartialEq, Eq)]
pub struct ContextEntry {
    pub enters: i64,
    pub leaves: i64,
}

/// Contexts in the order in which they are written.
pub type ContextList = Seq<ContextEntry>;
