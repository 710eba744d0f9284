// Operators that ask something of the values of their operands.

/// An operator of C11 6.5 that takes values of arithmetic types, or hands one on. It is named as the kind of node
/// that it makes.
///
/// An operator with one operand is unary; of `?:` the two arms are the operands, and its condition is an operand of
/// `LogicalNot`, as that of a statement is. A simple assignment and a cast convert, and stand apart.
#[derive(Clone, Copy, Debug, PartialEq, Eq)]
pub enum Operator {
    /// The index of `[ ]`, 6.5.2.1.
    Subscript,
    /// `++` behind its operand, 6.5.2.4.
    PostIncrement,
    /// `--` behind its operand, 6.5.2.4.
    PostDecrement,
    /// `++` before its operand, 6.5.3.1.
    PreIncrement,
    /// `--` before its operand, 6.5.3.1.
    PreDecrement,
    /// Unary `+`, 6.5.3.3 p2.
    UnaryPlus,
    /// Unary `-`, 6.5.3.3 p3.
    Negation,
    /// `~`, 6.5.3.3 p4.
    Complement,
    /// `!`, 6.5.3.3 p5, and a condition.
    LogicalNot,
    /// `*`, 6.5.5 p4.
    Multiplication,
    /// `/`, 6.5.5 p5.
    Division,
    /// `%`, 6.5.5 p5.
    Remainder,
    /// `+`, 6.5.6 p5.
    Addition,
    /// `-`, 6.5.6 p6.
    Subtraction,
    /// `<<`, 6.5.7 p4.
    LeftShift,
    /// `>>`, 6.5.7 p5.
    RightShift,
    /// `<`, 6.5.8.
    Less,
    /// `>`, 6.5.8.
    Greater,
    /// `<=`, 6.5.8.
    LessOrEqual,
    /// `>=`, 6.5.8.
    GreaterOrEqual,
    /// `==`, 6.5.9.
    Equal,
    /// `!=`, 6.5.9.
    NotEqual,
    /// `&`, 6.5.10.
    BitwiseAnd,
    /// `^`, 6.5.11.
    BitwiseExclusiveOr,
    /// `|`, 6.5.12.
    BitwiseOr,
    /// `&&`, 6.5.13.
    LogicalAnd,
    /// `||`, 6.5.14.
    LogicalOr,
    /// `?:`, 6.5.15.
    Conditional,
    /// `*=`, 6.5.16.2.
    MultiplicationAssignment,
    /// `/=`, 6.5.16.2.
    DivisionAssignment,
    /// `%=`, 6.5.16.2.
    RemainderAssignment,
    /// `+=`, 6.5.16.2.
    AdditionAssignment,
    /// `-=`, 6.5.16.2.
    SubtractionAssignment,
    /// `<<=`, 6.5.16.2.
    LeftShiftAssignment,
    /// `>>=`, 6.5.16.2.
    RightShiftAssignment,
    /// `&=`, 6.5.16.2.
    BitwiseAndAssignment,
    /// `^=`, 6.5.16.2.
    BitwiseExclusiveOrAssignment,
    /// `|=`, 6.5.16.2.
    BitwiseOrAssignment,
    /// `,`, 6.5.17.
    Comma,
}
