// What is known of specifiers and declarators.
use sparse_model::{NameId, TypeId};

/// What the storage class of specifiers says (C11 6.7.1).
#[derive(Clone, Copy, Debug, PartialEq, Eq, Hash)]
pub struct Storage {
    pub is_typedef: bool,
    pub is_extern: bool,
    pub is_static: bool,
    pub is_register: bool,
}

/// What is known of specifiers (6.7).
#[derive(Clone, Copy, Debug, PartialEq, Eq, Hash)]
pub struct SpecifiedFact {
    pub of: TypeId,
    pub storage: Storage,
}

/// What a declarator declares (6.7.6).
#[derive(Clone, Copy, Debug, PartialEq, Eq, Hash)]
pub struct DeclaredFact {
    pub name: NameId,
    pub of: TypeId,
    pub is_typedef: bool,
    /// All declarations of the name with linkage are of one object or function (6.2.2 p2).
    pub has_linkage: bool,
    /// It is there as long as the program runs (6.2.4 p3).
    pub is_static: bool,
    pub is_register: bool,
}
