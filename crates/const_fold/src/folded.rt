// What folding a node answers.
use sparse_model::IntConst;

/// The constant of an expression, or that it is no integer constant.
#[derive(Clone, Copy, Debug, PartialEq, Eq)]
pub enum Folded {
    /// Its kind, and its number modulo 2^64.
    Value(IntConst),
    NotConstant,
}
