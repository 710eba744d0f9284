// Rows of attributes, `typeof` and type names (C11 6.7.7).
use crate::production::Production;
use vocabulary::Action::{
    Append, AppendAttribute, BeginAtNext, BeginList, MakeAttributeList, MakeOptionalDeclarator,
    MakeOver, MakeTypeName, MakeTypeNameSpecifiers, RequireType,
};
use vocabulary::NodeKind;
use vocabulary::ProductionItem::{AttributeWord, Do, Nonterminal, Passed, PassedAny, Token};
use vocabulary::Role::{TypePart, Unevaluated};
use vocabulary::Symbol::{
    AnyDeclarator, Attribute, AttributeArguments, AttributeList, AttributeLists, BalancedTokens,
    Expression, FurtherAttributes, Specifiers, TypeName, TypeofOperand, TypeofSpecifier,
};
use vocabulary::TokenClass::{
    AttributeKeyword, Comma, LeftParenthesis, RightParenthesis, TypeofKeyword,
};

/// Attribute lists, or none.
#[rattlefmt::skip]
pub(crate) static ATTRIBUTE_LISTS: [Production; 2] = [
    Production { symbol: AttributeLists, items: &[
        Nonterminal(AttributeList), Do(Append(TypePart)), Nonterminal(AttributeLists),
    ] },
    Production { symbol: AttributeLists, items: &[] },
];

/// `__attribute__` and its words between double parentheses.
#[rattlefmt::skip]
pub(crate) static ATTRIBUTE_LIST: [Production; 1] = [
    Production { symbol: AttributeList, items: &[
        Token(AttributeKeyword), Passed(LeftParenthesis), Passed(LeftParenthesis), Do(BeginList),
        Nonterminal(Attribute), Nonterminal(FurtherAttributes), Passed(RightParenthesis),
        Passed(RightParenthesis), Do(MakeAttributeList),
    ] },
];

/// The words of an attribute list behind a comma, or nothing.
#[rattlefmt::skip]
pub(crate) static FURTHER_ATTRIBUTES: [Production; 2] = [
    Production { symbol: FurtherAttributes, items: &[
        Passed(Comma), Nonterminal(Attribute), Nonterminal(FurtherAttributes),
    ] },
    Production { symbol: FurtherAttributes, items: &[] },
];

/// A word of an attribute list, or nothing.
#[rattlefmt::skip]
pub(crate) static ATTRIBUTE: [Production; 2] = [
    Production { symbol: Attribute, items: &[
        AttributeWord, Nonterminal(AttributeArguments), Do(AppendAttribute),
    ] },
    Production { symbol: Attribute, items: &[] },
];

/// The arguments of an attribute, or nothing.
#[rattlefmt::skip]
pub(crate) static ATTRIBUTE_ARGUMENTS: [Production; 2] = [
    Production { symbol: AttributeArguments, items: &[
        Passed(LeftParenthesis), Nonterminal(BalancedTokens), Passed(RightParenthesis),
    ] },
    Production { symbol: AttributeArguments, items: &[] },
];

/// Tokens in which parentheses are balanced, or none.
#[rattlefmt::skip]
pub(crate) static BALANCED_TOKENS: [Production; 3] = [
    Production { symbol: BalancedTokens, items: &[
        Passed(LeftParenthesis), Nonterminal(BalancedTokens), Passed(RightParenthesis),
        Nonterminal(BalancedTokens),
    ] },
    Production { symbol: BalancedTokens, items: &[PassedAny, Nonterminal(BalancedTokens)] },
    Production { symbol: BalancedTokens, items: &[] },
];

/// `typeof`.
#[rattlefmt::skip]
pub(crate) static TYPEOF_SPECIFIER: [Production; 1] = [
    Production { symbol: TypeofSpecifier, items: &[
        Token(TypeofKeyword), Passed(LeftParenthesis), Nonterminal(TypeofOperand), Passed(RightParenthesis),
    ] },
];

/// What stands in the parentheses of `typeof`: a type name or an expression.
#[rattlefmt::skip]
pub(crate) static TYPEOF_OPERAND: [Production; 2] = [
    Production { symbol: TypeofOperand, items: &[
        Nonterminal(TypeName), Do(MakeOver(NodeKind::TypeofType, TypePart)),
    ] },
    Production { symbol: TypeofOperand, items: &[
        Nonterminal(Expression), Do(MakeOver(NodeKind::TypeofExpression, Unevaluated)),
    ] },
];

/// A type name (6.7.7).
#[rattlefmt::skip]
pub(crate) static TYPE_NAME: [Production; 1] = [
    Production { symbol: TypeName, items: &[
        Do(BeginAtNext), Nonterminal(Specifiers), Do(MakeTypeNameSpecifiers), Do(RequireType),
        Nonterminal(AnyDeclarator), Do(MakeOptionalDeclarator), Do(MakeTypeName),
    ] },
];
