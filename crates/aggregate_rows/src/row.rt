// What a row says: what is known, the constraint that is broken, and where an object is too large.
use expression_rows::Broken;
use node_facts::NodeFact;

/// The row of the specifier of a structure or a union, by which no rule fails.
#[derive(Clone, Copy)]
pub struct AggregateRow {
    /// The type that it names: nothing where it breaks a constraint.
    pub fact: NodeFact,
    /// What is broken at its tag.
    pub broken: Option<Broken>,
    /// The token of the keyword, if an object of this type is too large.
    pub passed: Option<u32>,
}
