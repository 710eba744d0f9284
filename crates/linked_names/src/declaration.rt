// Declarations of which something is kept.
use crate::sums::ContextSums;
use sparse_model::{NameId, TypeId};

/// A declaration of a name with linkage (C11 6.2.2), and its type.
#[derive(Clone, Copy)]
pub struct Linked {
    pub name: NameId,
    pub of: TypeId,
}

/// The same with the sums of its contexts, if it carries some, and the handle of the node that declares it.
#[derive(Clone, Copy)]
pub struct Declared {
    pub node: u32,
    pub name: NameId,
    pub of: TypeId,
    pub contexts: Option<ContextSums>,
}

/// A declaration of a typedef name (C11 6.7.8), the handle of the scope in which it stands, and its type.
#[derive(Clone, Copy)]
pub struct Typedef {
    pub scope: u32,
    pub name: NameId,
    pub of: TypeId,
}
