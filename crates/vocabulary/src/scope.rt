// What a name can be bound to, and in which name space.

/// The name spaces of identifiers that scopes keep apart (C11 6.2.3). Members have a name space in each
/// structure or union, which is no matter of scopes.
#[derive(Clone, Copy, Debug, PartialEq, Eq, Hash)]
pub enum NameSpace {
    /// Identifiers in declarators, and enumerators.
    Ordinary,
    /// Tags of structures, unions and enumerations.
    Tags,
    /// Labels.
    Labels,
}

/// What a name is bound to, as far as the names of one scope have to agree (C11 6.7 p3).
#[derive(Clone, Copy, Debug, PartialEq, Eq)]
pub enum Bound {
    /// A typedef name, 6.7.8.
    Typedef,
    /// An enumeration constant, 6.7.2.2 p3.
    Enumerator,
    /// An object or a function that is one with all declarations of its name, 6.2.2 p2.
    Linked,
    /// An object or a function that is another one with each declaration, 6.2.2 p2.
    Unlinked,
    /// A structure, a union or an enumeration, 6.7.2.3.
    Tag,
    /// A statement, 6.8.1.
    Label,
}
