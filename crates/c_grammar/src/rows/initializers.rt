// Rows of initializers and assertions (C11 6.7.9, 6.7.10).
use crate::production::Production;
use vocabulary::Action::{
    Append, BeginAtNext, BeginList, MakeInitializerItem, MakeNamed, MakeOver, MakeOverList,
    MakeOverTwo,
};
use vocabulary::NodeKind;
use vocabulary::ProductionItem::{DesignatorEnd, Do, Name, Nonterminal, Passed, Token};
use vocabulary::Role::{Evaluated, Unevaluated};
use vocabulary::Symbol::{
    AssignmentExpression, ConditionalExpression, Designator, FurtherDesignators,
    FurtherInitializerItems, Initializer, InitializerItem, InitializerItems, StaticAssertion,
    StringLiterals,
};
use vocabulary::TokenClass::{
    Assign, Comma, Dot, LeftBrace, LeftBracket, LeftParenthesis, RightBrace, RightParenthesis,
    Semicolon, StaticAssertKeyword,
};

/// An initializer (6.7.9).
#[rattlefmt::skip]
pub(crate) static INITIALIZER: [Production; 2] = [
    Production { symbol: Initializer, items: &[
        Token(LeftBrace), Do(BeginList), Nonterminal(InitializerItems), Passed(RightBrace),
        Do(MakeOverList(NodeKind::BracedInitializer)),
    ] },
    Production { symbol: Initializer, items: &[Nonterminal(AssignmentExpression)] },
];

/// The initializers between braces, or none.
#[rattlefmt::skip]
pub(crate) static INITIALIZER_ITEMS: [Production; 2] = [
    Production { symbol: InitializerItems, items: &[
        Nonterminal(InitializerItem), Do(Append(Evaluated)), Nonterminal(FurtherInitializerItems),
    ] },
    Production { symbol: InitializerItems, items: &[] },
];

/// The initializers behind a comma, or nothing; a last comma is allowed.
#[rattlefmt::skip]
pub(crate) static FURTHER_INITIALIZER_ITEMS: [Production; 2] = [
    Production { symbol: FurtherInitializerItems, items: &[Passed(Comma), Nonterminal(InitializerItems)] },
    Production { symbol: FurtherInitializerItems, items: &[] },
];

/// An initializer between braces, with its designators.
#[rattlefmt::skip]
pub(crate) static INITIALIZER_ITEM: [Production; 2] = [
    Production { symbol: InitializerItem, items: &[
        Do(BeginAtNext), Nonterminal(Designator), Nonterminal(FurtherDesignators), Passed(Assign),
        Nonterminal(Initializer), Do(MakeInitializerItem),
    ] },
    Production { symbol: InitializerItem, items: &[
        Do(BeginAtNext), Nonterminal(Initializer), Do(MakeInitializerItem),
    ] },
];

/// A designator: a member or an element (6.7.9).
#[rattlefmt::skip]
pub(crate) static DESIGNATOR: [Production; 2] = [
    Production { symbol: Designator, items: &[
        Token(Dot), Name, Do(MakeNamed(NodeKind::MemberDesignator)), Do(Append(Unevaluated)),
    ] },
    Production { symbol: Designator, items: &[
        Token(LeftBracket), Nonterminal(ConditionalExpression), DesignatorEnd,
        Do(MakeOver(NodeKind::IndexDesignator, Unevaluated)), Do(Append(Unevaluated)),
    ] },
];

/// Further designators, or none.
#[rattlefmt::skip]
pub(crate) static FURTHER_DESIGNATORS: [Production; 2] = [
    Production { symbol: FurtherDesignators, items: &[
        Nonterminal(Designator), Nonterminal(FurtherDesignators),
    ] },
    Production { symbol: FurtherDesignators, items: &[] },
];

/// `_Static_assert` (6.7.10).
#[rattlefmt::skip]
pub(crate) static STATIC_ASSERTION: [Production; 1] = [
    Production { symbol: StaticAssertion, items: &[
        Token(StaticAssertKeyword), Passed(LeftParenthesis), Nonterminal(ConditionalExpression), Passed(Comma),
        Nonterminal(StringLiterals), Passed(RightParenthesis), Passed(Semicolon),
        Do(MakeOverTwo(NodeKind::StaticAssertion, Unevaluated, Unevaluated)),
    ] },
];
