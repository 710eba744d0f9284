// Rows of statements (C11 6.8).
use crate::production::Production;
use vocabulary::Action::{
    Append, BeginAtNext, BeginDeclarators, BeginList, BindDeclarator, CloseScope, DeclareTag,
    MakeBlockSpecifiers, MakeCompoundStatement, MakeContextStatement, MakeDeclaration,
    MakeDeclarator, MakeDoStatement, MakeForPart, MakeForStatement, MakeIfStatement,
    MakeLabelStatement, MakeLeaf, MakeLoneDeclaration, MakeNamed, MakeOver, MakeOverList,
    MakeOverTwo, NoteFunctionDeclarator, OpenBody, OpenScope, RequireType, RequireTypeOrAttributes,
};
use vocabulary::NodeKind;
use vocabulary::ProductionItem::{CaseColon, Do, LabelName, Name, Nonterminal, Passed, Token};
use vocabulary::Role::{Condition, Evaluated, TypePart, Unevaluated};
use vocabulary::Symbol::{
    AttributeList, AttributeLists, BalancedTokens, BlockItem, BlockItems, CompoundStatement,
    ConditionalExpression, Declaration, Declarator, Declarators, Expression, ForInitialization,
    FurtherDeclarators, OptionalElse, OptionalExpression, OptionalInitializer, Specifiers,
    Statement, StaticAssertion,
};
use vocabulary::TokenClass::{
    BreakKeyword, CaseKeyword, Colon, ContextKeyword, ContinueKeyword, DefaultKeyword, DoKeyword,
    ElseKeyword, ForKeyword, GotoKeyword, IfKeyword, LeftBrace, LeftParenthesis, ReturnKeyword,
    RightBrace, RightParenthesis, Semicolon, SwitchKeyword, WhileKeyword,
};

/// A compound statement, or the body of a function (6.8.2).
#[rattlefmt::skip]
pub(crate) static COMPOUND_STATEMENT: [Production; 1] = [
    Production { symbol: CompoundStatement, items: &[
        Token(LeftBrace), Do(OpenBody), Do(BeginList), Nonterminal(BlockItems), Token(RightBrace),
        Do(CloseScope), Do(MakeCompoundStatement),
    ] },
];

/// The declarations and statements of a body, or none.
#[rattlefmt::skip]
pub(crate) static BLOCK_ITEMS: [Production; 2] = [
    Production { symbol: BlockItems, items: &[
        Nonterminal(BlockItem), Do(Append(Evaluated)), Nonterminal(BlockItems),
    ] },
    Production { symbol: BlockItems, items: &[] },
];

/// A declaration or a statement of a body.
#[rattlefmt::skip]
pub(crate) static BLOCK_ITEM: [Production; 4] = [
    Production { symbol: BlockItem, items: &[Nonterminal(Statement)] },
    Production { symbol: BlockItem, items: &[Nonterminal(StaticAssertion)] },
    Production { symbol: BlockItem, items: &[Nonterminal(Declaration)] },
    Production { symbol: BlockItem, items: &[Nonterminal(Statement)] },
];

/// A declaration in a body or a `for` (6.7).
#[rattlefmt::skip]
pub(crate) static DECLARATION: [Production; 1] = [
    Production { symbol: Declaration, items: &[
        Do(BeginAtNext), Nonterminal(Specifiers), Do(MakeBlockSpecifiers), Nonterminal(Declarators),
    ] },
];

/// What stands behind the specifiers of a declaration in a body.
#[rattlefmt::skip]
pub(crate) static DECLARATORS: [Production; 2] = [
    Production { symbol: Declarators, items: &[
        Do(RequireTypeOrAttributes), Do(DeclareTag), Passed(Semicolon), Do(MakeLoneDeclaration),
    ] },
    Production { symbol: Declarators, items: &[
        Do(RequireType), Nonterminal(Declarator), Do(MakeDeclarator), Do(BindDeclarator), Do(BeginList),
        Nonterminal(AttributeLists), Do(NoteFunctionDeclarator), Do(BeginDeclarators),
        Nonterminal(OptionalInitializer), Nonterminal(FurtherDeclarators), Passed(Semicolon),
        Do(MakeDeclaration),
    ] },
];

/// A statement (6.8).
#[rattlefmt::skip]
pub(crate) static STATEMENT: [Production; 16] = [
    Production { symbol: Statement, items: &[
        Name, Passed(Colon), Nonterminal(Statement), Do(MakeLabelStatement),
    ] },
    Production { symbol: Statement, items: &[
        Token(CaseKeyword), Nonterminal(ConditionalExpression), CaseColon, Nonterminal(Statement),
        Do(MakeOverTwo(NodeKind::CaseStatement, Unevaluated, Evaluated)),
    ] },
    Production { symbol: Statement, items: &[
        Token(DefaultKeyword), Passed(Colon), Nonterminal(Statement),
        Do(MakeOver(NodeKind::DefaultStatement, Evaluated)),
    ] },
    Production { symbol: Statement, items: &[Nonterminal(CompoundStatement)] },
    Production { symbol: Statement, items: &[
        Token(IfKeyword), Passed(LeftParenthesis), Nonterminal(Expression), Passed(RightParenthesis),
        Do(BeginList), Nonterminal(Statement), Do(Append(Evaluated)), Nonterminal(OptionalElse),
        Do(MakeIfStatement),
    ] },
    Production { symbol: Statement, items: &[
        Token(SwitchKeyword), Passed(LeftParenthesis), Nonterminal(Expression), Passed(RightParenthesis),
        Nonterminal(Statement), Do(MakeOverTwo(NodeKind::SwitchStatement, Condition, Evaluated)),
    ] },
    Production { symbol: Statement, items: &[
        Token(WhileKeyword), Passed(LeftParenthesis), Nonterminal(Expression), Passed(RightParenthesis),
        Nonterminal(Statement), Do(MakeOverTwo(NodeKind::WhileStatement, Condition, Evaluated)),
    ] },
    Production { symbol: Statement, items: &[
        Token(DoKeyword), Nonterminal(Statement), Token(WhileKeyword), Passed(LeftParenthesis),
        Nonterminal(Expression), Passed(RightParenthesis), Passed(Semicolon), Do(MakeDoStatement),
    ] },
    Production { symbol: Statement, items: &[
        Token(ForKeyword), Do(OpenScope), Passed(LeftParenthesis), Nonterminal(ForInitialization),
        Do(BeginList), Nonterminal(OptionalExpression), Token(Semicolon), Do(MakeForPart), Do(BeginList),
        Nonterminal(OptionalExpression), Token(RightParenthesis), Do(MakeForPart), Nonterminal(Statement),
        Do(CloseScope), Do(MakeForStatement),
    ] },
    Production { symbol: Statement, items: &[
        Token(GotoKeyword), LabelName, Passed(Semicolon), Do(MakeNamed(NodeKind::GotoStatement)),
    ] },
    Production { symbol: Statement, items: &[
        Token(ContinueKeyword), Passed(Semicolon), Do(MakeLeaf(NodeKind::ContinueStatement)),
    ] },
    Production { symbol: Statement, items: &[
        Token(BreakKeyword), Passed(Semicolon), Do(MakeLeaf(NodeKind::BreakStatement)),
    ] },
    Production { symbol: Statement, items: &[
        Token(ReturnKeyword), Do(BeginList), Nonterminal(OptionalExpression), Passed(Semicolon),
        Do(MakeOverList(NodeKind::ReturnStatement)),
    ] },
    Production { symbol: Statement, items: &[
        Token(ContextKeyword), Passed(LeftParenthesis), Nonterminal(BalancedTokens), Passed(RightParenthesis),
        Passed(Semicolon), Do(MakeContextStatement),
    ] },
    Production { symbol: Statement, items: &[
        Do(BeginAtNext), Nonterminal(AttributeList), Do(Append(TypePart)), Nonterminal(AttributeLists),
        Passed(Semicolon), Do(MakeOverList(NodeKind::AttributeStatement)),
    ] },
    Production { symbol: Statement, items: &[
        Do(BeginAtNext), Nonterminal(OptionalExpression), Passed(Semicolon),
        Do(MakeOverList(NodeKind::ExpressionStatement)),
    ] },
];

/// `else` and a statement, or nothing.
#[rattlefmt::skip]
pub(crate) static OPTIONAL_ELSE: [Production; 2] = [
    Production { symbol: OptionalElse, items: &[
        Passed(ElseKeyword), Nonterminal(Statement), Do(Append(Evaluated)),
    ] },
    Production { symbol: OptionalElse, items: &[] },
];

/// What a `for` begins with, with its semicolon (6.8.5.3).
#[rattlefmt::skip]
pub(crate) static FOR_INITIALIZATION: [Production; 2] = [
    Production { symbol: ForInitialization, items: &[Nonterminal(Declaration)] },
    Production { symbol: ForInitialization, items: &[
        Do(BeginList), Nonterminal(OptionalExpression), Token(Semicolon), Do(MakeForPart),
    ] },
];

/// An expression, or nothing.
#[rattlefmt::skip]
pub(crate) static OPTIONAL_EXPRESSION: [Production; 2] = [
    Production { symbol: OptionalExpression, items: &[] },
    Production { symbol: OptionalExpression, items: &[Nonterminal(Expression), Do(Append(Evaluated))] },
];
