// What a node stands in.
use c_tree::Handle;

/// What a node wants of a part.
#[derive(Clone, Copy, Debug, PartialEq, Eq)]
pub enum Want {
    /// Its value: a place is loaded (C11 6.3.2.1 p2).
    ForValue,
    /// The place that it designates, to store to it (6.5.16 p3).
    ForStore,
    /// That place alone, or what the parentheses around it stand for (6.5.3.2 p3, 6.5.1 p5).
    ForPlace,
    /// What it does: it is a statement, or a body.
    ForEffect,
    /// Nothing of the kind: it declares, or is written only.
    ForNothing,
}

/// Who is around a node.
#[derive(Clone, Copy, Debug, PartialEq, Eq)]
pub struct Around {
    /// The definition of the function in whose body it stands.
    pub function: Option<Handle>,
    /// The node that opened its scope: the unit, a body, a `for`, a parameter list (6.2.1 p4).
    pub scope: Handle,
}

/// What a node stands in.
#[derive(Clone, Copy, Debug, PartialEq, Eq)]
pub struct Surrounding {
    /// The node above. The unit has itself.
    pub parent: Handle,
    /// The place among the parts of the node above, counted from 0.
    pub place: u32,
    pub want: Want,
    /// Neither it nor a node above it is a part of a type, or is only looked at.
    pub is_evaluated: bool,
    pub around: Around,
}
