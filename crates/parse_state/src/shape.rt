// How a node is made of values, by how far each stands below the top of the stack. Which action makes it isn't known here.
use vocabulary::{NodeKind, Role};

/// What parts are made of.
#[derive(Clone, Copy, Debug, PartialEq, Eq)]
pub enum Source {
    /// The tree so far below the top, in this role.
    OneTree(Role, usize),
    /// The trees of the list so far below the top, in their roles.
    AllTrees(usize),
}

/// A node that is made of the last values of the stack.
#[derive(Clone, Copy, Debug, PartialEq, Eq)]
pub struct Shape<'s> {
    /// How many values it is made of.
    pub takes: usize,
    pub kind: NodeKind,
    /// The index of the token at which it stands.
    pub token: u32,
    /// How far below the top the word stands whose spelling is its name.
    pub name: Option<usize>,
    pub number: u64,
    /// Where its parts come from, in their order: each tree and each list among the values is one of them, the deepest first.
    pub sources: &'s [Source],
}
