// Rows of units and declarations (C11 6.7, 6.9).
use crate::production::Production;
use vocabulary::Action::{
    Append, AppendDeclarator, AppendLeadingAttributes, AwaitBody, BeginAtNext, BeginDeclarators,
    BeginList, BindDeclarator, BindFurtherDeclarator, DeclareTag, MakeDeclaration, MakeDeclarator,
    MakeFileSpecifiers, MakeFunctionDefinition, MakeLeaf, MakeLoneDeclaration, MakeOver,
    NoteFunctionDeclarator, RequireType, RequireTypeOrAttributes,
};
use vocabulary::NodeKind;
use vocabulary::ProductionItem::{Do, Nonterminal, Passed, Token};
use vocabulary::Role::Evaluated;
use vocabulary::Symbol::{
    AttributeLists, BodyOrDeclarators, CompoundStatement, Declarator, ExternalDeclaration,
    ExternalDeclarations, ExternalDeclarators, FurtherDeclarators, Initializer,
    OptionalInitializer, Specifiers, StaticAssertion,
};
use vocabulary::TokenClass::{Assign, Comma, Semicolon};

/// The declarations and functions of a file (6.9), or none.
#[rattlefmt::skip]
pub(crate) static EXTERNAL_DECLARATIONS: [Production; 2] = [
    Production { symbol: ExternalDeclarations, items: &[
        Nonterminal(ExternalDeclaration), Do(Append(Evaluated)), Nonterminal(ExternalDeclarations),
    ] },
    Production { symbol: ExternalDeclarations, items: &[] },
];

/// A declaration or a function at file scope (6.9).
#[rattlefmt::skip]
pub(crate) static EXTERNAL_DECLARATION: [Production; 3] = [
    Production { symbol: ExternalDeclaration, items: &[
        Token(Semicolon), Do(MakeLeaf(NodeKind::EmptyDeclaration)),
    ] },
    Production { symbol: ExternalDeclaration, items: &[Nonterminal(StaticAssertion)] },
    Production { symbol: ExternalDeclaration, items: &[
        Do(BeginAtNext), Nonterminal(Specifiers), Do(MakeFileSpecifiers), Nonterminal(ExternalDeclarators),
    ] },
];

/// What stands behind the specifiers of an external declaration.
#[rattlefmt::skip]
pub(crate) static EXTERNAL_DECLARATORS: [Production; 2] = [
    Production { symbol: ExternalDeclarators, items: &[
        Do(RequireTypeOrAttributes), Do(DeclareTag), Passed(Semicolon), Do(MakeLoneDeclaration),
    ] },
    Production { symbol: ExternalDeclarators, items: &[
        Do(RequireType), Nonterminal(Declarator), Do(MakeDeclarator), Do(BindDeclarator), Do(BeginList),
        Nonterminal(AttributeLists), Nonterminal(BodyOrDeclarators),
    ] },
];

/// A body behind the first declarator, or the rest of the declaration.
#[rattlefmt::skip]
pub(crate) static BODY_OR_DECLARATORS: [Production; 2] = [
    Production { symbol: BodyOrDeclarators, items: &[
        Do(AwaitBody), Nonterminal(CompoundStatement), Do(MakeFunctionDefinition),
    ] },
    Production { symbol: BodyOrDeclarators, items: &[
        Do(BeginDeclarators), Nonterminal(OptionalInitializer), Nonterminal(FurtherDeclarators),
        Passed(Semicolon), Do(MakeDeclaration),
    ] },
];

/// `=` and what a declared object begins with (6.7.9), or nothing.
#[rattlefmt::skip]
pub(crate) static OPTIONAL_INITIALIZER: [Production; 2] = [
    Production { symbol: OptionalInitializer, items: &[
        Token(Assign), Nonterminal(Initializer), Do(MakeOver(NodeKind::Initializer, Evaluated)),
        Do(Append(Evaluated)),
    ] },
    Production { symbol: OptionalInitializer, items: &[] },
];

/// The other declarators of a declaration.
#[rattlefmt::skip]
pub(crate) static FURTHER_DECLARATORS: [Production; 2] = [
    Production { symbol: FurtherDeclarators, items: &[
        Passed(Comma), Do(BeginList), Nonterminal(AttributeLists), Do(AppendLeadingAttributes),
        Nonterminal(Declarator), Do(MakeDeclarator), Do(BindFurtherDeclarator), Do(BeginList),
        Nonterminal(AttributeLists), Do(NoteFunctionDeclarator), Do(AppendDeclarator),
        Nonterminal(OptionalInitializer), Nonterminal(FurtherDeclarators),
    ] },
    Production { symbol: FurtherDeclarators, items: &[] },
];
