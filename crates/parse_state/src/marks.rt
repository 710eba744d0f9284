// What was noted, and is told later. When it is told isn't known here.
use c_scope::Binding;
use vocabulary::{ErrorKind, LimitKind};

/// A limit, and the terminal that passed it, counted from 0.
#[derive(Clone, Copy, Debug, PartialEq, Eq)]
pub struct PassedLimit {
    pub limit: LimitKind,
    pub terminal: u32,
}

/// An error that is told when the next terminal is taken, and the index of the token at which it stands.
#[derive(Clone, Copy, Debug, PartialEq, Eq)]
pub struct HeldError {
    pub kind: ErrorKind,
    pub token: u32,
}

/// The parameter list of a declaration at file scope, which was closed: the token at which it begins, and what it bound.
#[derive(Drop)]
pub(crate) struct ClosedParameters {
    pub token: u32,
    pub bindings: Vec<Binding>,
}
