// The symbols of the grammar.

/// What the grammar has productions for: each stands for lists of tokens.
///
/// They are the nonterminals of C11's grammar as far as they serve; where C11's go on at their own left end, a
/// symbol with `Tail`, `Further` or `Behind` in its name has what comes next.
#[derive(Clone, Copy, Debug, PartialEq, Eq)]
pub enum Symbol {
    // Units and declarations (C11 6.7, 6.9)
    /// The declarations and functions of a file (6.9), or none.
    ExternalDeclarations,
    /// A declaration or a function at file scope (6.9).
    ExternalDeclaration,
    /// What stands behind the specifiers of an external declaration.
    ExternalDeclarators,
    /// A body behind the first declarator, or the rest of the declaration.
    BodyOrDeclarators,
    /// `=` and what a declared object begins with (6.7.9), or nothing.
    OptionalInitializer,
    /// The other declarators of a declaration.
    FurtherDeclarators,

    // Specifiers (6.7.1 to 6.7.4)
    /// Specifiers up to the first that names a type (6.7 p1).
    Specifiers,
    /// Specifiers behind one that names a type, where a typedef name is a declarator.
    SpecifiersBehindType,
    /// A storage-class or function specifier (6.7.1, 6.7.4).
    StorageClassSpecifier,
    /// A type qualifier (6.7.3).
    TypeQualifier,
    /// A type specifier of one word (6.7.2).
    TypeWord,
    /// `struct` or `union` (6.7.2.1).
    StructOrUnionSpecifier,
    /// The tag of a `struct` or `union`, its members, or both.
    TagOrMembers,
    /// The members behind a tag, or nothing.
    MembersBehindTag,

    // Members and enumerators (6.7.2.1, 6.7.2.2)
    /// The declarations of members, or none.
    MemberDeclarations,
    /// A declaration of members (6.7.2.1).
    MemberDeclaration,
    /// The members of one declaration; an unnamed structure or union has none.
    MemberDeclarators,
    /// The members behind a comma, or nothing.
    FurtherMemberDeclarators,
    /// A member, or a bit-field without a name.
    MemberDeclarator,
    /// The width of a bit-field, or nothing.
    OptionalWidth,
    /// `enum` (6.7.2.2).
    EnumSpecifier,
    /// The tag of an `enum`, its enumerators, or both.
    TagOrEnumerators,
    /// The enumerators behind a tag, or nothing.
    EnumeratorsBehindTag,
    /// An enumerator (6.7.2.2).
    Enumerator,
    /// The value of an enumerator, or nothing.
    OptionalEnumeratorValue,
    /// The enumerators behind another, or nothing; a last comma is allowed.
    FurtherEnumerators,
    /// The enumerators behind a comma, or none.
    EnumeratorsBehindComma,

    // Attributes, `typeof` and type names
    /// Attribute lists, or none.
    AttributeLists,
    /// `__attribute__` and its words between double parentheses.
    AttributeList,
    /// The words of an attribute list behind a comma, or nothing.
    FurtherAttributes,
    /// A word of an attribute list, or nothing.
    Attribute,
    /// The arguments of an attribute, or nothing.
    AttributeArguments,
    /// Tokens in which parentheses are balanced, or none.
    BalancedTokens,
    /// `typeof`.
    TypeofSpecifier,
    /// What stands in the parentheses of `typeof`: a type name or an expression.
    TypeofOperand,
    /// A type name (6.7.7).
    TypeName,

    // Declarators (6.7.6, 6.7.7)
    /// A declarator with a name (6.7.6).
    Declarator,
    /// The stars before a declarator, or none (6.7.6.1).
    Pointers,
    /// Qualifiers and attributes behind a star, or none.
    PointerQualifiers,
    /// A declarator without its stars.
    DirectDeclarator,
    /// Array sizes and parameter lists behind a declarator, or none (6.7.6.2, 6.7.6.3).
    DeclaratorSuffixes,
    /// The size of an array, or nothing.
    ArraySize,
    /// The parameters of a function, or none.
    Parameters,
    /// The parameters behind a comma, or nothing.
    FurtherParameters,
    /// What stands behind a comma in a parameter list.
    ParameterOrEllipsis,
    /// A parameter (6.7.6.3).
    Parameter,
    /// A declarator with or without a name (6.7.6, 6.7.7).
    AnyDeclarator,
    /// Such a declarator without its stars.
    AnyDirectDeclarator,

    // Initializers and assertions (6.7.9, 6.7.10)
    /// An initializer (6.7.9).
    Initializer,
    /// The initializers between braces, or none.
    InitializerItems,
    /// The initializers behind a comma, or nothing; a last comma is allowed.
    FurtherInitializerItems,
    /// An initializer between braces, with its designators.
    InitializerItem,
    /// A designator: a member or an element (6.7.9).
    Designator,
    /// Further designators, or none.
    FurtherDesignators,
    /// `_Static_assert` (6.7.10).
    StaticAssertion,

    // Statements (6.8)
    /// A compound statement, or the body of a function (6.8.2).
    CompoundStatement,
    /// The declarations and statements of a body, or none.
    BlockItems,
    /// A declaration or a statement of a body.
    BlockItem,
    /// A declaration in a body or a `for` (6.7).
    Declaration,
    /// What stands behind the specifiers of a declaration in a body.
    Declarators,
    /// A statement (6.8).
    Statement,
    /// `else` and a statement, or nothing.
    OptionalElse,
    /// What a `for` begins with, with its semicolon (6.8.5.3).
    ForInitialization,
    /// An expression, or nothing.
    OptionalExpression,

    // Expressions (6.5)
    /// An expression (6.5.17).
    Expression,
    /// `,` and another operand, any number of times.
    CommaTail,
    /// An assignment expression (6.5.16).
    AssignmentExpression,
    /// An assignment operator and its right side, or nothing.
    AssignmentTail,
    /// A conditional expression (6.5.15).
    ConditionalExpression,
    /// `?`, `:` and their operands, or nothing.
    ConditionalTail,
    /// The operand between `?` and `:`, which may be left out.
    MiddleOperand,
    /// An expression of `||` (6.5.14).
    LogicalOrExpression,
    /// Its operators, each with its right operand, or nothing.
    LogicalOrTail,
    /// An expression of `&&` (6.5.13).
    LogicalAndExpression,
    /// Its operators, each with its right operand, or nothing.
    LogicalAndTail,
    /// An expression of `|` (6.5.12).
    InclusiveOrExpression,
    /// Its operators, each with its right operand, or nothing.
    InclusiveOrTail,
    /// An expression of `^` (6.5.11).
    ExclusiveOrExpression,
    /// Its operators, each with its right operand, or nothing.
    ExclusiveOrTail,
    /// An expression of binary `&` (6.5.10).
    AndExpression,
    /// Its operators, each with its right operand, or nothing.
    AndTail,
    /// An equality expression (6.5.9).
    EqualityExpression,
    /// Its operators, each with its right operand, or nothing.
    EqualityTail,
    /// A relational expression (6.5.8).
    RelationalExpression,
    /// Its operators, each with its right operand, or nothing.
    RelationalTail,
    /// A shift expression (6.5.7).
    ShiftExpression,
    /// Its operators, each with its right operand, or nothing.
    ShiftTail,
    /// An additive expression (6.5.6).
    AdditiveExpression,
    /// Its operators, each with its right operand, or nothing.
    AdditiveTail,
    /// A multiplicative expression (6.5.5).
    MultiplicativeExpression,
    /// Its operators, each with its right operand, or nothing.
    MultiplicativeTail,
    /// A cast expression (6.5.4).
    CastExpression,
    /// What stands behind a type in parentheses.
    CastOperand,
    /// Initializers between braces (6.7.9).
    BracedInitializer,
    /// A unary expression (6.5.3).
    UnaryExpression,
    /// A type in parentheses, or an expression (6.5.3.4).
    SizeofOperand,
    /// The braces that make a compound literal of the type, or nothing.
    SizeofTypeEnd,
    /// Postfix operators (6.5.2).
    PostfixTail,
    /// The arguments of a call, or none.
    Arguments,
    /// The arguments behind a comma, or nothing.
    FurtherArguments,
    /// A primary expression (6.5.1), or a builtin.
    PrimaryExpression,
    /// The designators behind the first member of `__builtin_offsetof`.
    OffsetofDesignators,
    /// What stands behind the parenthesis of an operand.
    ParenthesizedExpression,
    /// String literals one behind the other (6.4.5).
    StringLiterals,
    /// Further string literals, or none.
    FurtherStringLiterals,
}
