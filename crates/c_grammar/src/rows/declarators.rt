// Rows of declarators (C11 6.7.6).
use crate::production::Production;
use vocabulary::Action::{
    Append, BeginAtNext, BeginList, BindParameter, CloseParameters, CountParameter, JoinAnyParts,
    JoinParts, JoinSuffixes, MakeLeaf, MakeOptionalDeclarator, MakeOverList, MakeParameter,
    MakeParameterSpecifiers, MakeParenthesizedAttributes, OpenScope,
};
use vocabulary::NodeKind;
use vocabulary::ProductionItem::{Do, Name, Nonterminal, Passed, Token};
use vocabulary::Role::{TypePart, Unevaluated};
use vocabulary::Symbol::{
    AnyDeclarator, AnyDirectDeclarator, ArraySize, AssignmentExpression, AttributeList,
    AttributeLists, Declarator, DeclaratorSuffixes, DirectDeclarator, FurtherParameters, Parameter,
    ParameterOrEllipsis, Parameters, PointerQualifiers, Pointers, Specifiers, TypeQualifier,
};
use vocabulary::TokenClass::{
    Comma, Ellipsis, LeftBracket, LeftParenthesis, RightBracket, RightParenthesis, Star,
};

/// A declarator with a name (6.7.6).
#[rattlefmt::skip]
pub(crate) static DECLARATOR: [Production; 1] = [
    Production { symbol: Declarator, items: &[
        Do(BeginList), Nonterminal(Pointers), Nonterminal(DirectDeclarator), Do(JoinParts),
    ] },
];

/// The stars before a declarator, or none (6.7.6.1).
#[rattlefmt::skip]
pub(crate) static POINTERS: [Production; 2] = [
    Production { symbol: Pointers, items: &[
        Token(Star), Do(BeginList), Nonterminal(PointerQualifiers),
        Do(MakeOverList(NodeKind::PointerDeclarator)), Do(Append(TypePart)), Nonterminal(Pointers),
    ] },
    Production { symbol: Pointers, items: &[] },
];

/// Qualifiers and attributes behind a star, or none.
#[rattlefmt::skip]
pub(crate) static POINTER_QUALIFIERS: [Production; 3] = [
    Production { symbol: PointerQualifiers, items: &[
        Nonterminal(TypeQualifier), Do(Append(TypePart)), Nonterminal(PointerQualifiers),
    ] },
    Production { symbol: PointerQualifiers, items: &[
        Nonterminal(AttributeList), Do(Append(TypePart)), Nonterminal(PointerQualifiers),
    ] },
    Production { symbol: PointerQualifiers, items: &[] },
];

/// A declarator without its stars.
#[rattlefmt::skip]
pub(crate) static DIRECT_DECLARATOR: [Production; 2] = [
    Production { symbol: DirectDeclarator, items: &[
        Name, Do(BeginList), Do(BeginList), Nonterminal(DeclaratorSuffixes), Do(JoinSuffixes),
    ] },
    Production { symbol: DirectDeclarator, items: &[
        Token(LeftParenthesis), Do(BeginList), Nonterminal(AttributeLists), Do(MakeParenthesizedAttributes),
        Nonterminal(Declarator), Do(JoinParts), Passed(RightParenthesis), Do(BeginList),
        Nonterminal(DeclaratorSuffixes), Do(JoinSuffixes),
    ] },
];

/// Array sizes and parameter lists behind a declarator, or none (6.7.6.2, 6.7.6.3).
#[rattlefmt::skip]
pub(crate) static DECLARATOR_SUFFIXES: [Production; 3] = [
    Production { symbol: DeclaratorSuffixes, items: &[
        Token(LeftBracket), Do(BeginList), Nonterminal(ArraySize), Passed(RightBracket),
        Do(MakeOverList(NodeKind::ArrayDeclarator)), Do(Append(TypePart)), Nonterminal(DeclaratorSuffixes),
    ] },
    Production { symbol: DeclaratorSuffixes, items: &[
        Token(LeftParenthesis), Do(OpenScope), Do(BeginList), Nonterminal(Parameters),
        Passed(RightParenthesis), Do(CloseParameters), Do(MakeOverList(NodeKind::FunctionDeclarator)),
        Do(Append(TypePart)), Nonterminal(DeclaratorSuffixes),
    ] },
    Production { symbol: DeclaratorSuffixes, items: &[] },
];

/// The size of an array, or nothing.
#[rattlefmt::skip]
pub(crate) static ARRAY_SIZE: [Production; 2] = [
    Production { symbol: ArraySize, items: &[] },
    Production { symbol: ArraySize, items: &[Nonterminal(AssignmentExpression), Do(Append(Unevaluated))] },
];

/// The parameters of a function, or none.
#[rattlefmt::skip]
pub(crate) static PARAMETERS: [Production; 2] = [
    Production { symbol: Parameters, items: &[] },
    Production { symbol: Parameters, items: &[Nonterminal(Parameter), Nonterminal(FurtherParameters)] },
];

/// The parameters behind a comma, or nothing.
#[rattlefmt::skip]
pub(crate) static FURTHER_PARAMETERS: [Production; 2] = [
    Production { symbol: FurtherParameters, items: &[Passed(Comma), Nonterminal(ParameterOrEllipsis)] },
    Production { symbol: FurtherParameters, items: &[] },
];

/// What stands behind a comma in a parameter list.
#[rattlefmt::skip]
pub(crate) static PARAMETER_OR_ELLIPSIS: [Production; 2] = [
    Production { symbol: ParameterOrEllipsis, items: &[
        Token(Ellipsis), Do(MakeLeaf(NodeKind::Ellipsis)), Do(Append(TypePart)),
    ] },
    Production { symbol: ParameterOrEllipsis, items: &[
        Nonterminal(Parameter), Nonterminal(FurtherParameters),
    ] },
];

/// A parameter (6.7.6.3).
#[rattlefmt::skip]
pub(crate) static PARAMETER: [Production; 1] = [
    Production { symbol: Parameter, items: &[
        Do(CountParameter), Do(BeginAtNext), Nonterminal(Specifiers), Do(MakeParameterSpecifiers),
        Nonterminal(AnyDeclarator), Do(MakeOptionalDeclarator), Do(BindParameter), Nonterminal(AttributeLists),
        Do(MakeParameter), Do(Append(TypePart)),
    ] },
];

/// A declarator with or without a name (6.7.6, 6.7.7).
#[rattlefmt::skip]
pub(crate) static ANY_DECLARATOR: [Production; 1] = [
    Production { symbol: AnyDeclarator, items: &[
        Do(BeginAtNext), Nonterminal(Pointers), Nonterminal(AnyDirectDeclarator), Do(JoinAnyParts),
    ] },
];

/// Such a declarator without its stars.
#[rattlefmt::skip]
pub(crate) static ANY_DIRECT_DECLARATOR: [Production; 3] = [
    Production { symbol: AnyDirectDeclarator, items: &[
        Name, Do(BeginList), Do(BeginList), Nonterminal(DeclaratorSuffixes), Do(JoinSuffixes),
    ] },
    Production { symbol: AnyDirectDeclarator, items: &[
        Do(BeginAtNext), Do(BeginList), Nonterminal(DeclaratorSuffixes), Do(JoinSuffixes),
    ] },
    Production { symbol: AnyDirectDeclarator, items: &[
        Token(LeftParenthesis), Do(BeginList), Nonterminal(AttributeLists), Do(MakeParenthesizedAttributes),
        Nonterminal(AnyDeclarator), Do(JoinParts), Passed(RightParenthesis), Do(BeginList),
        Nonterminal(DeclaratorSuffixes), Do(JoinSuffixes),
    ] },
];
