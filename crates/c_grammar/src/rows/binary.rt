// Rows of binary operators (C11 6.5.5 to 6.5.14).
use crate::production::Production;
use vocabulary::Action::MakeBinary;
use vocabulary::NodeKind;
use vocabulary::ProductionItem::{Do, Nonterminal, Token};
use vocabulary::Role::{Condition, Evaluated};
use vocabulary::Symbol::{
    AdditiveExpression, AdditiveTail, AndExpression, AndTail, CastExpression, EqualityExpression,
    EqualityTail, ExclusiveOrExpression, ExclusiveOrTail, InclusiveOrExpression, InclusiveOrTail,
    LogicalAndExpression, LogicalAndTail, LogicalOrExpression, LogicalOrTail,
    MultiplicativeExpression, MultiplicativeTail, RelationalExpression, RelationalTail,
    ShiftExpression, ShiftTail,
};
use vocabulary::TokenClass::{
    Ampersand, AndAnd, Bar, Caret, EqualEqual, Greater, GreaterEqual, Less, LessEqual, Minus,
    NotEqual, OrOr, Percent, Plus, ShiftLeft, ShiftRight, Slash, Star,
};

/// An expression of `||` (6.5.14).
#[rattlefmt::skip]
pub(crate) static LOGICAL_OR_EXPRESSION: [Production; 1] = [
    Production { symbol: LogicalOrExpression, items: &[
        Nonterminal(LogicalAndExpression), Nonterminal(LogicalOrTail),
    ] },
];

/// Its operators, each with its right operand, or nothing.
#[rattlefmt::skip]
pub(crate) static LOGICAL_OR_TAIL: [Production; 2] = [
    Production { symbol: LogicalOrTail, items: &[
        Token(OrOr), Nonterminal(LogicalAndExpression), Do(MakeBinary(NodeKind::LogicalOr, Condition)),
        Nonterminal(LogicalOrTail),
    ] },
    Production { symbol: LogicalOrTail, items: &[] },
];

/// An expression of `&&` (6.5.13).
#[rattlefmt::skip]
pub(crate) static LOGICAL_AND_EXPRESSION: [Production; 1] = [
    Production { symbol: LogicalAndExpression, items: &[
        Nonterminal(InclusiveOrExpression), Nonterminal(LogicalAndTail),
    ] },
];

/// Its operators, each with its right operand, or nothing.
#[rattlefmt::skip]
pub(crate) static LOGICAL_AND_TAIL: [Production; 2] = [
    Production { symbol: LogicalAndTail, items: &[
        Token(AndAnd), Nonterminal(InclusiveOrExpression), Do(MakeBinary(NodeKind::LogicalAnd, Condition)),
        Nonterminal(LogicalAndTail),
    ] },
    Production { symbol: LogicalAndTail, items: &[] },
];

/// An expression of `|` (6.5.12).
#[rattlefmt::skip]
pub(crate) static INCLUSIVE_OR_EXPRESSION: [Production; 1] = [
    Production { symbol: InclusiveOrExpression, items: &[
        Nonterminal(ExclusiveOrExpression), Nonterminal(InclusiveOrTail),
    ] },
];

/// Its operators, each with its right operand, or nothing.
#[rattlefmt::skip]
pub(crate) static INCLUSIVE_OR_TAIL: [Production; 2] = [
    Production { symbol: InclusiveOrTail, items: &[
        Token(Bar), Nonterminal(ExclusiveOrExpression), Do(MakeBinary(NodeKind::BitwiseOr, Evaluated)),
        Nonterminal(InclusiveOrTail),
    ] },
    Production { symbol: InclusiveOrTail, items: &[] },
];

/// An expression of `^` (6.5.11).
#[rattlefmt::skip]
pub(crate) static EXCLUSIVE_OR_EXPRESSION: [Production; 1] = [
    Production { symbol: ExclusiveOrExpression, items: &[
        Nonterminal(AndExpression), Nonterminal(ExclusiveOrTail),
    ] },
];

/// Its operators, each with its right operand, or nothing.
#[rattlefmt::skip]
pub(crate) static EXCLUSIVE_OR_TAIL: [Production; 2] = [
    Production { symbol: ExclusiveOrTail, items: &[
        Token(Caret), Nonterminal(AndExpression), Do(MakeBinary(NodeKind::BitwiseExclusiveOr, Evaluated)),
        Nonterminal(ExclusiveOrTail),
    ] },
    Production { symbol: ExclusiveOrTail, items: &[] },
];

/// An expression of binary `&` (6.5.10).
#[rattlefmt::skip]
pub(crate) static AND_EXPRESSION: [Production; 1] = [
    Production { symbol: AndExpression, items: &[Nonterminal(EqualityExpression), Nonterminal(AndTail)] },
];

/// Its operators, each with its right operand, or nothing.
#[rattlefmt::skip]
pub(crate) static AND_TAIL: [Production; 2] = [
    Production { symbol: AndTail, items: &[
        Token(Ampersand), Nonterminal(EqualityExpression), Do(MakeBinary(NodeKind::BitwiseAnd, Evaluated)),
        Nonterminal(AndTail),
    ] },
    Production { symbol: AndTail, items: &[] },
];

/// An equality expression (6.5.9).
#[rattlefmt::skip]
pub(crate) static EQUALITY_EXPRESSION: [Production; 1] = [
    Production { symbol: EqualityExpression, items: &[
        Nonterminal(RelationalExpression), Nonterminal(EqualityTail),
    ] },
];

/// Its operators, each with its right operand, or nothing.
#[rattlefmt::skip]
pub(crate) static EQUALITY_TAIL: [Production; 3] = [
    Production { symbol: EqualityTail, items: &[
        Token(EqualEqual), Nonterminal(RelationalExpression), Do(MakeBinary(NodeKind::Equal, Evaluated)),
        Nonterminal(EqualityTail),
    ] },
    Production { symbol: EqualityTail, items: &[
        Token(NotEqual), Nonterminal(RelationalExpression), Do(MakeBinary(NodeKind::NotEqual, Evaluated)),
        Nonterminal(EqualityTail),
    ] },
    Production { symbol: EqualityTail, items: &[] },
];

/// A relational expression (6.5.8).
#[rattlefmt::skip]
pub(crate) static RELATIONAL_EXPRESSION: [Production; 1] = [
    Production { symbol: RelationalExpression, items: &[
        Nonterminal(ShiftExpression), Nonterminal(RelationalTail),
    ] },
];

/// Its operators, each with its right operand, or nothing.
#[rattlefmt::skip]
pub(crate) static RELATIONAL_TAIL: [Production; 5] = [
    Production { symbol: RelationalTail, items: &[
        Token(Less), Nonterminal(ShiftExpression), Do(MakeBinary(NodeKind::Less, Evaluated)),
        Nonterminal(RelationalTail),
    ] },
    Production { symbol: RelationalTail, items: &[
        Token(Greater), Nonterminal(ShiftExpression), Do(MakeBinary(NodeKind::Greater, Evaluated)),
        Nonterminal(RelationalTail),
    ] },
    Production { symbol: RelationalTail, items: &[
        Token(LessEqual), Nonterminal(ShiftExpression), Do(MakeBinary(NodeKind::LessOrEqual, Evaluated)),
        Nonterminal(RelationalTail),
    ] },
    Production { symbol: RelationalTail, items: &[
        Token(GreaterEqual), Nonterminal(ShiftExpression), Do(MakeBinary(NodeKind::GreaterOrEqual, Evaluated)),
        Nonterminal(RelationalTail),
    ] },
    Production { symbol: RelationalTail, items: &[] },
];

/// A shift expression (6.5.7).
#[rattlefmt::skip]
pub(crate) static SHIFT_EXPRESSION: [Production; 1] = [
    Production { symbol: ShiftExpression, items: &[Nonterminal(AdditiveExpression), Nonterminal(ShiftTail)] },
];

/// Its operators, each with its right operand, or nothing.
#[rattlefmt::skip]
pub(crate) static SHIFT_TAIL: [Production; 3] = [
    Production { symbol: ShiftTail, items: &[
        Token(ShiftLeft), Nonterminal(AdditiveExpression), Do(MakeBinary(NodeKind::LeftShift, Evaluated)),
        Nonterminal(ShiftTail),
    ] },
    Production { symbol: ShiftTail, items: &[
        Token(ShiftRight), Nonterminal(AdditiveExpression), Do(MakeBinary(NodeKind::RightShift, Evaluated)),
        Nonterminal(ShiftTail),
    ] },
    Production { symbol: ShiftTail, items: &[] },
];

/// An additive expression (6.5.6).
#[rattlefmt::skip]
pub(crate) static ADDITIVE_EXPRESSION: [Production; 1] = [
    Production { symbol: AdditiveExpression, items: &[
        Nonterminal(MultiplicativeExpression), Nonterminal(AdditiveTail),
    ] },
];

/// Its operators, each with its right operand, or nothing.
#[rattlefmt::skip]
pub(crate) static ADDITIVE_TAIL: [Production; 3] = [
    Production { symbol: AdditiveTail, items: &[
        Token(Plus), Nonterminal(MultiplicativeExpression), Do(MakeBinary(NodeKind::Addition, Evaluated)),
        Nonterminal(AdditiveTail),
    ] },
    Production { symbol: AdditiveTail, items: &[
        Token(Minus), Nonterminal(MultiplicativeExpression), Do(MakeBinary(NodeKind::Subtraction, Evaluated)),
        Nonterminal(AdditiveTail),
    ] },
    Production { symbol: AdditiveTail, items: &[] },
];

/// A multiplicative expression (6.5.5).
#[rattlefmt::skip]
pub(crate) static MULTIPLICATIVE_EXPRESSION: [Production; 1] = [
    Production { symbol: MultiplicativeExpression, items: &[
        Nonterminal(CastExpression), Nonterminal(MultiplicativeTail),
    ] },
];

/// Its operators, each with its right operand, or nothing.
#[rattlefmt::skip]
pub(crate) static MULTIPLICATIVE_TAIL: [Production; 4] = [
    Production { symbol: MultiplicativeTail, items: &[
        Token(Star), Nonterminal(CastExpression), Do(MakeBinary(NodeKind::Multiplication, Evaluated)),
        Nonterminal(MultiplicativeTail),
    ] },
    Production { symbol: MultiplicativeTail, items: &[
        Token(Slash), Nonterminal(CastExpression), Do(MakeBinary(NodeKind::Division, Evaluated)),
        Nonterminal(MultiplicativeTail),
    ] },
    Production { symbol: MultiplicativeTail, items: &[
        Token(Percent), Nonterminal(CastExpression), Do(MakeBinary(NodeKind::Remainder, Evaluated)),
        Nonterminal(MultiplicativeTail),
    ] },
    Production { symbol: MultiplicativeTail, items: &[] },
];
