// Rows of expressions and assignments (C11 6.5.15 to 6.5.17).
use crate::production::Production;
use vocabulary::Action::{Append, BeginList, MakeBinary, MakeConditional};
use vocabulary::NodeKind;
use vocabulary::ProductionItem::{Do, Nonterminal, Passed, Token};
use vocabulary::Role::Evaluated;
use vocabulary::Symbol::{
    AssignmentExpression, AssignmentTail, CommaTail, ConditionalExpression, ConditionalTail,
    Expression, LogicalOrExpression, MiddleOperand,
};
use vocabulary::TokenClass::{
    AndAssign, Assign, Colon, Comma, MinusAssign, OrAssign, PercentAssign, PlusAssign, Question,
    ShiftLeftAssign, ShiftRightAssign, SlashAssign, StarAssign, XorAssign,
};

/// An expression (6.5.17).
#[rattlefmt::skip]
pub(crate) static EXPRESSION: [Production; 1] = [
    Production { symbol: Expression, items: &[Nonterminal(AssignmentExpression), Nonterminal(CommaTail)] },
];

/// `,` and another operand, any number of times.
#[rattlefmt::skip]
pub(crate) static COMMA_TAIL: [Production; 2] = [
    Production { symbol: CommaTail, items: &[
        Token(Comma), Nonterminal(AssignmentExpression), Do(MakeBinary(NodeKind::Comma, Evaluated)),
        Nonterminal(CommaTail),
    ] },
    Production { symbol: CommaTail, items: &[] },
];

/// An assignment expression (6.5.16).
#[rattlefmt::skip]
pub(crate) static ASSIGNMENT_EXPRESSION: [Production; 1] = [
    Production { symbol: AssignmentExpression, items: &[
        Nonterminal(ConditionalExpression), Nonterminal(AssignmentTail),
    ] },
];

/// An assignment operator and its right side, or nothing.
#[rattlefmt::skip]
pub(crate) static ASSIGNMENT_TAIL: [Production; 12] = [
    Production { symbol: AssignmentTail, items: &[
        Token(Assign), Nonterminal(AssignmentExpression), Do(MakeBinary(NodeKind::Assignment, Evaluated)),
    ] },
    Production { symbol: AssignmentTail, items: &[
        Token(StarAssign), Nonterminal(AssignmentExpression),
        Do(MakeBinary(NodeKind::MultiplicationAssignment, Evaluated)),
    ] },
    Production { symbol: AssignmentTail, items: &[
        Token(SlashAssign), Nonterminal(AssignmentExpression),
        Do(MakeBinary(NodeKind::DivisionAssignment, Evaluated)),
    ] },
    Production { symbol: AssignmentTail, items: &[
        Token(PercentAssign), Nonterminal(AssignmentExpression),
        Do(MakeBinary(NodeKind::RemainderAssignment, Evaluated)),
    ] },
    Production { symbol: AssignmentTail, items: &[
        Token(PlusAssign), Nonterminal(AssignmentExpression),
        Do(MakeBinary(NodeKind::AdditionAssignment, Evaluated)),
    ] },
    Production { symbol: AssignmentTail, items: &[
        Token(MinusAssign), Nonterminal(AssignmentExpression),
        Do(MakeBinary(NodeKind::SubtractionAssignment, Evaluated)),
    ] },
    Production { symbol: AssignmentTail, items: &[
        Token(ShiftLeftAssign), Nonterminal(AssignmentExpression),
        Do(MakeBinary(NodeKind::LeftShiftAssignment, Evaluated)),
    ] },
    Production { symbol: AssignmentTail, items: &[
        Token(ShiftRightAssign), Nonterminal(AssignmentExpression),
        Do(MakeBinary(NodeKind::RightShiftAssignment, Evaluated)),
    ] },
    Production { symbol: AssignmentTail, items: &[
        Token(AndAssign), Nonterminal(AssignmentExpression),
        Do(MakeBinary(NodeKind::BitwiseAndAssignment, Evaluated)),
    ] },
    Production { symbol: AssignmentTail, items: &[
        Token(XorAssign), Nonterminal(AssignmentExpression),
        Do(MakeBinary(NodeKind::BitwiseExclusiveOrAssignment, Evaluated)),
    ] },
    Production { symbol: AssignmentTail, items: &[
        Token(OrAssign), Nonterminal(AssignmentExpression),
        Do(MakeBinary(NodeKind::BitwiseOrAssignment, Evaluated)),
    ] },
    Production { symbol: AssignmentTail, items: &[] },
];

/// A conditional expression (6.5.15).
#[rattlefmt::skip]
pub(crate) static CONDITIONAL_EXPRESSION: [Production; 1] = [
    Production { symbol: ConditionalExpression, items: &[
        Nonterminal(LogicalOrExpression), Nonterminal(ConditionalTail),
    ] },
];

/// `?`, `:` and their operands, or nothing.
#[rattlefmt::skip]
pub(crate) static CONDITIONAL_TAIL: [Production; 2] = [
    Production { symbol: ConditionalTail, items: &[
        Token(Question), Do(BeginList), Nonterminal(MiddleOperand), Passed(Colon),
        Nonterminal(ConditionalExpression), Do(MakeConditional),
    ] },
    Production { symbol: ConditionalTail, items: &[] },
];

/// The operand between `?` and `:`, which may be left out.
#[rattlefmt::skip]
pub(crate) static MIDDLE_OPERAND: [Production; 2] = [
    Production { symbol: MiddleOperand, items: &[] },
    Production { symbol: MiddleOperand, items: &[Nonterminal(Expression), Do(Append(Evaluated))] },
];
