// How a node comes by its constant.
ghost use Rattle.std.specs.Prelude.{◌≡◌};
ghost use Rattle.meaning_constants.specs.Nodes.{fold_of};
ghost use Rattle.const_fold.specs.Seen.{way_seen};

use sparse_model::{IntKind, NodeKind};
use vocabulary::Operator;

/// How a node comes by its constant.
#[derive(Clone, Copy, Debug, PartialEq, Eq)]
pub enum Way {
    /// It has none.
    Nothing,
    /// It is a literal of this kind.
    Literal(IntKind),
    /// From the enumerator that it names.
    Named,
    /// From its only part.
    Own,
    Unary(Operator),
    Binary(Operator),
    And,
    Or,
    Conditional,
    Cast,
    Size,
    Align,
    Offset,
}

/// The one of each kind of node.
pub fn way_of(kind: NodeKind) -> Way
    ensures { way_seen result ≡ fold_of kind }
{
    match kind {
        NodeKind::Name => Way::Named,
        NodeKind::IntegerConstant(kind) => Way::Literal(kind),
        NodeKind::CharacterConstant(kind) => Way::Literal(kind),
        NodeKind::Parenthesized => Way::Own,
        NodeKind::UnaryPlus => Way::Unary(Operator::UnaryPlus),
        NodeKind::Negation => Way::Unary(Operator::Negation),
        NodeKind::Complement => Way::Unary(Operator::Complement),
        NodeKind::LogicalNot => Way::Unary(Operator::LogicalNot),
        NodeKind::Multiplication => Way::Binary(Operator::Multiplication),
        NodeKind::Division => Way::Binary(Operator::Division),
        NodeKind::Remainder => Way::Binary(Operator::Remainder),
        NodeKind::Addition => Way::Binary(Operator::Addition),
        NodeKind::Subtraction => Way::Binary(Operator::Subtraction),
        NodeKind::LeftShift => Way::Binary(Operator::LeftShift),
        NodeKind::RightShift => Way::Binary(Operator::RightShift),
        NodeKind::Less => Way::Binary(Operator::Less),
        NodeKind::Greater => Way::Binary(Operator::Greater),
        NodeKind::LessOrEqual => Way::Binary(Operator::LessOrEqual),
        NodeKind::GreaterOrEqual => Way::Binary(Operator::GreaterOrEqual),
        NodeKind::Equal => Way::Binary(Operator::Equal),
        NodeKind::NotEqual => Way::Binary(Operator::NotEqual),
        NodeKind::BitwiseAnd => Way::Binary(Operator::BitwiseAnd),
        NodeKind::BitwiseExclusiveOr => Way::Binary(Operator::BitwiseExclusiveOr),
        NodeKind::BitwiseOr => Way::Binary(Operator::BitwiseOr),
        NodeKind::LogicalAnd => Way::And,
        NodeKind::LogicalOr => Way::Or,
        NodeKind::Conditional => Way::Conditional,
        NodeKind::Cast => Way::Cast,
        NodeKind::SizeofExpression => Way::Size,
        NodeKind::SizeofType => Way::Size,
        NodeKind::AlignofType => Way::Align,
        NodeKind::BuiltinOffsetof => Way::Offset,
        _ => Way::Nothing,
    }
}
