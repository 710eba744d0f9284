// What an operator does with its operands, by the kind of its node.
ghost use Rattle.std.specs.Prelude.{◌≡◌};
ghost use Rattle.meaning_typing.specs.Operations as meaning;
ghost use Rattle.node_surroundings.specs.Seen.{operation_seen};

use sparse_model::NodeKind;
use vocabulary::Operator;

/// What an operator does with its operands (C11 6.5.2.4, 6.5.3 to 6.5.17): what is wanted of them and what is known of the
/// whole go by it.
#[derive(Clone, Copy, Debug, PartialEq, Eq)]
pub enum Operation {
    /// `++` or `--` behind a place.
    StepBehind(Operator),
    /// `++` or `--` before a place.
    StepBefore(Operator),
    /// Unary `+`, `-` or `~`.
    Unary(Operator),
    /// `!`.
    Not,
    /// The size or the alignment of a type, or of what an expression designates.
    Size,
    /// A cast.
    Cast,
    /// Two operands that make a value.
    Binary(Operator),
    /// `&&` or `||`.
    Logical(Operator),
    /// `?:`, with or without its middle operand.
    Conditional,
    /// An assignment that computes what it stores.
    Compound(Operator),
    /// `,`.
    Comma,
    /// `__builtin_expect`.
    Expect,
    /// A body in parentheses.
    Statements,
    /// None of these.
    Nothing,
}

/// What the operator does that a node of this kind is.
pub fn operation_of(kind: NodeKind) -> Operation
    ensures { operation_seen result ≡ meaning.operation_of kind }
{
    match kind {
        NodeKind::StatementExpression => Operation::Statements,
        NodeKind::PostIncrement => Operation::StepBehind(Operator::PostIncrement),
        NodeKind::PostDecrement => Operation::StepBehind(Operator::PostDecrement),
        NodeKind::BuiltinExpect => Operation::Expect,
        NodeKind::PreIncrement => Operation::StepBefore(Operator::PreIncrement),
        NodeKind::PreDecrement => Operation::StepBefore(Operator::PreDecrement),
        NodeKind::UnaryPlus => Operation::Unary(Operator::UnaryPlus),
        NodeKind::Negation => Operation::Unary(Operator::Negation),
        NodeKind::Complement => Operation::Unary(Operator::Complement),
        NodeKind::LogicalNot => Operation::Not,
        NodeKind::SizeofExpression => Operation::Size,
        NodeKind::SizeofType => Operation::Size,
        NodeKind::AlignofType => Operation::Size,
        NodeKind::Cast => Operation::Cast,
        NodeKind::Multiplication => Operation::Binary(Operator::Multiplication),
        NodeKind::Division => Operation::Binary(Operator::Division),
        NodeKind::Remainder => Operation::Binary(Operator::Remainder),
        NodeKind::Addition => Operation::Binary(Operator::Addition),
        NodeKind::Subtraction => Operation::Binary(Operator::Subtraction),
        NodeKind::LeftShift => Operation::Binary(Operator::LeftShift),
        NodeKind::RightShift => Operation::Binary(Operator::RightShift),
        NodeKind::Less => Operation::Binary(Operator::Less),
        NodeKind::Greater => Operation::Binary(Operator::Greater),
        NodeKind::LessOrEqual => Operation::Binary(Operator::LessOrEqual),
        NodeKind::GreaterOrEqual => Operation::Binary(Operator::GreaterOrEqual),
        NodeKind::Equal => Operation::Binary(Operator::Equal),
        NodeKind::NotEqual => Operation::Binary(Operator::NotEqual),
        NodeKind::BitwiseAnd => Operation::Binary(Operator::BitwiseAnd),
        NodeKind::BitwiseExclusiveOr => Operation::Binary(Operator::BitwiseExclusiveOr),
        NodeKind::BitwiseOr => Operation::Binary(Operator::BitwiseOr),
        NodeKind::LogicalAnd => Operation::Logical(Operator::LogicalAnd),
        NodeKind::LogicalOr => Operation::Logical(Operator::LogicalOr),
        NodeKind::Conditional => Operation::Conditional,
        NodeKind::MultiplicationAssignment => {
            Operation::Compound(Operator::MultiplicationAssignment)
        }
        NodeKind::DivisionAssignment => Operation::Compound(Operator::DivisionAssignment),
        NodeKind::RemainderAssignment => Operation::Compound(Operator::RemainderAssignment),
        NodeKind::AdditionAssignment => Operation::Compound(Operator::AdditionAssignment),
        NodeKind::SubtractionAssignment => Operation::Compound(Operator::SubtractionAssignment),
        NodeKind::LeftShiftAssignment => Operation::Compound(Operator::LeftShiftAssignment),
        NodeKind::RightShiftAssignment => Operation::Compound(Operator::RightShiftAssignment),
        NodeKind::BitwiseAndAssignment => Operation::Compound(Operator::BitwiseAndAssignment),
        NodeKind::BitwiseExclusiveOrAssignment => {
            Operation::Compound(Operator::BitwiseExclusiveOrAssignment)
        }
        NodeKind::BitwiseOrAssignment => Operation::Compound(Operator::BitwiseOrAssignment),
        NodeKind::Comma => Operation::Comma,
        _ => Operation::Nothing,
    }
}
