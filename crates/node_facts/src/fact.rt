// What is known of a node.
use crate::declared::{DeclaredFact, SpecifiedFact};
use crate::expression::ExpressionFact;
use sparse_model::TypeId;

/// What is known of a node: all that the nodes above it, and those behind it, may ask of it.
#[derive(Clone, Copy, Debug, PartialEq, Eq)]
pub enum NodeFact {
    /// It breaks a constraint, or something is unknown that is asked of a part, or there is nothing to know.
    Unknown,
    Expression(ExpressionFact),
    Specified(SpecifiedFact),
    Declared(DeclaredFact),
    /// A type that is named, or that of a parameter.
    NamedType(TypeId),
}
