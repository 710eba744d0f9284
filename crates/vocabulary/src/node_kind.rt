// The kinds of nodes.
use crate::int_kind::IntKind;

/// What a node of the tree of a unit is: one kind for each form of the grammar that makes a node (C11 6.5
/// to 6.9, attributes, and what the kernel's code has besides).
///
/// In brackets: the token at which the node stands. Then its name and its number, where it has them, and its parts
/// in order, each with its role: e evaluated, c condition, t part of a type, u unevaluated. A role
/// depends on the kind above and on the place among its parts alone.
///
/// Some forms make no node. Parentheses around a declarator without attributes, and the two inner ones of an
/// attribute list, leave nothing behind; nor does an attribute that means nothing here, nor a declarator of a
/// parameter or a type name that has neither a name nor parts.
#[derive(Clone, Copy, Debug, PartialEq, Eq)]
pub enum NodeKind {
    // Declarations (6.7, 6.9)
    /// The declarations and the functions of a file in order, C11 6.9 (its first token): e each.
    TranslationUnit,
    /// A semicolon by itself, outside of functions or among members (the `;`).
    EmptyDeclaration,
    /// `_Static_assert`, 6.7.10 (the word): u the condition, u the string literal.
    StaticAssertion,
    /// Specifiers, then declarators, 6.7 (its first token): t `Specifiers`, then for each declarator t
    /// `LeadingAttributes` where it has some, e `Declarator`, t each `AttributeList` behind it, e `Initializer`
    /// where it has one.
    Declaration,
    /// Specifiers, a declarator and a body, 6.9.1 (its first token): t `Specifiers`, t `Declarator`, t each
    /// `AttributeList` behind it, e `CompoundStatement`.
    FunctionDefinition,
    /// The attribute lists before a declarator that isn't the first of its declaration (its first token): t each
    /// `AttributeList`.
    LeadingAttributes,

    // Specifiers (6.7.1 to 6.7.4)
    /// The specifiers of a declaration, a member, a parameter or a type name, attributes among them, in order,
    /// 6.7 p1 (its first token, or the one behind where it has none): t each.
    Specifiers,
    /// The word `typedef`, 6.7.1 (the word).
    TypedefSpecifier,
    /// The word `extern`, 6.7.1 (the word).
    ExternSpecifier,
    /// The word `static`, 6.7.1 (the word).
    StaticSpecifier,
    /// The word `auto`, 6.7.1 (the word).
    AutoSpecifier,
    /// The word `register`, 6.7.1 (the word).
    RegisterSpecifier,
    /// The word `inline`, 6.7.4 (the word).
    InlineSpecifier,
    /// The word `_Noreturn`, 6.7.4 (the word).
    NoreturnSpecifier,
    /// The word `const`, 6.7.3 (the word).
    ConstQualifier,
    /// The word `volatile`, 6.7.3 (the word).
    VolatileQualifier,
    /// The word `restrict`, 6.7.3 (the word).
    RestrictQualifier,
    /// The word `void`, 6.7.2 (the word).
    VoidSpecifier,
    /// The word `char`, 6.7.2 (the word).
    CharSpecifier,
    /// The word `short`, 6.7.2 (the word).
    ShortSpecifier,
    /// The word `int`, 6.7.2 (the word).
    IntSpecifier,
    /// The word `long`, 6.7.2 (the word).
    LongSpecifier,
    /// The word `signed`, 6.7.2 (the word).
    SignedSpecifier,
    /// The word `unsigned`, 6.7.2 (the word).
    UnsignedSpecifier,
    /// The word `_Bool`, 6.7.2 (the word).
    BoolSpecifier,
    /// The name of a type, 6.7.8 (the name): that name; the handle of the declarator that declares it.
    TypedefName,
    /// `struct`, 6.7.2.1 (the keyword): the tag; the index of the keyword that first names the tag in its scope,
    /// its own without a tag; t each `AttributeList` before the tag, t `MemberList` where it has a body.
    StructSpecifier,
    /// `union`, 6.7.2.1 (the keyword): as `StructSpecifier`.
    UnionSpecifier,
    /// `enum`, 6.7.2.2 (the keyword): the tag; the number as in `StructSpecifier`; t each `AttributeList` before the
    /// tag, t each `Enumerator` where it has a body, which has one at least.
    EnumSpecifier,
    /// `typeof` of a type (the word): t `TypeName`.
    TypeofType,
    /// `typeof` of an expression (the word): u the expression.
    TypeofExpression,

    // Members and enumerators (6.7.2.1, 6.7.2.2)
    /// The members of a structure or union between braces (the `{`): t each `MemberDeclaration`, `EmptyDeclaration`
    /// or `StaticAssertion`.
    MemberList,
    /// The declaration of members (its first token): t `Specifiers`, then for each member t `Declarator`, which has
    /// nothing where a bit-field has no name, u `BitFieldWidth` where it is a bit-field, t each `AttributeList` behind it.
    MemberDeclaration,
    /// The width of a bit-field (the `:`): u the expression.
    BitFieldWidth,
    /// An enumeration constant (the name): that name; 0 until declarations are judged, from then on 0 or the handle of
    /// what it hides and one; t each `AttributeList`, u its value where one is written.
    Enumerator,

    // Declarators and type names (6.7.6, 6.7.7)
    /// A declared name, and what it adds to the specified type, 6.7.6 (the name, or the declarator's first token where it
    /// has no name): that name; the number as in `Enumerator`; t each part, from the specified type outwards.
    Declarator,
    /// A pointer to the type so far, 6.7.6.1 (the `*`): t each qualifier and `AttributeList` behind the `*`.
    PointerDeclarator,
    /// An array of the type so far, 6.7.6.2 (the `[`): u the size where one is written.
    ArrayDeclarator,
    /// A function that returns the type so far, and its parameters, 6.7.6.3 (the `(`): t each `Parameter`, t
    /// `Ellipsis` where it takes more.
    FunctionDeclarator,
    /// Attribute lists behind the parenthesis of a declarator, for the type so far (the `(`): t each `AttributeList`.
    ParenthesizedAttributes,
    /// A parameter, 6.7.6 p1 (its first token, or the one behind where it has none): t `Specifiers`, t `Declarator` where
    /// it has a name or parts, t each `AttributeList`.
    Parameter,
    /// `...` at the end of the parameters, 6.7.6.3 p9 (the `...`).
    Ellipsis,
    /// The name of a type by its parts, 6.7.7 (its first token, or the one behind where it has none): t `Specifiers`, t
    /// `Declarator` where it has parts.
    TypeName,

    // Attributes
    /// `__attribute__` and its words in order (the keyword): the index of the token behind it; t each that means
    /// something here.
    AttributeList,
    /// `noderef` (the word).
    NoderefAttribute,
    /// `address_space(X)` (the word): X where it is an identifier; X where it is a number.
    AddressSpaceAttribute,
    /// `bitwise` (the word).
    BitwiseAttribute,
    /// `force` (the word).
    ForceAttribute,
    /// `packed` (the word).
    PackedAttribute,
    /// `aligned` (the word): its number, 16 where none is written.
    AlignedAttribute,
    /// `noreturn` (the word).
    NoreturnAttribute,
    /// `context` (the word): t two `IntegerConstant`s, the counts at the function's begin and at its end.
    ContextAttribute,

    // Initializers (6.7.9)
    /// What a declared object begins with (the `=`): e the expression or `BracedInitializer`.
    Initializer,
    /// Initializers between braces (the `{`): e each `InitializerItem`.
    BracedInitializer,
    /// One of them (its first token): u each designator, e the expression or `BracedInitializer`.
    InitializerItem,
    /// `.` and the name of a member (the `.`): that name.
    MemberDesignator,
    /// `[` and the index of an element (the `[`): u the index.
    IndexDesignator,

    // Statements (6.8)
    /// Declarations and statements between braces, 6.8.2 (the `{`): the index of its `}`, 0 in the first form; e each.
    CompoundStatement,
    /// A statement with a name, 6.8.1 (the name): that name; e the statement.
    LabelStatement,
    /// `case`, 6.8.1 (the keyword): u the label, e the statement.
    CaseStatement,
    /// `default`, 6.8.1 (the keyword): e the statement.
    DefaultStatement,
    /// An expression and a semicolon, 6.8.3 (its first token): e the expression where it has one.
    ExpressionStatement,
    /// Attribute lists and a semicolon (its first token): t each `AttributeList`.
    AttributeStatement,
    /// `if`, 6.8.4.1 (the keyword): c the condition, e the statement, e the one behind `else` where it has one.
    IfStatement,
    /// `switch`, 6.8.4.2 (the keyword): c the value, e the statement.
    SwitchStatement,
    /// `while`, 6.8.5.1 (the keyword): c the condition, e the statement.
    WhileStatement,
    /// `do`, 6.8.5.2 (the keyword): the index of its `while`; e the statement, c the condition.
    DoStatement,
    /// `for`, 6.8.5.3 (the keyword): e the first part, c the condition, e the last part, e the statement; a part that is
    /// left out is an `OmittedExpression`.
    ForStatement,
    /// An absent part of `for` (the `;` or `)` behind it).
    OmittedExpression,
    /// `goto`, 6.8.6.1 (the keyword): the name of the label.
    GotoStatement,
    /// `continue`, 6.8.6.2 (the keyword).
    ContinueStatement,
    /// `break`, 6.8.6.3 (the keyword).
    BreakStatement,
    /// `return`, 6.8.6.4 (the keyword): e the expression where it has one.
    ReturnStatement,
    /// `__context__` (the word): the change of the count, modulo 2^64.
    ContextStatement,

    // Primary and postfix expressions (6.5.1, 6.5.2)
    /// An identifier in an expression, 6.5.1 (the identifier): it; 0 until uses are bound, from then on the handle of
    /// its declarator or enumerator.
    Name,
    /// An integer constant of this kind, 6.4.4.1 (the constant): its bits.
    IntegerConstant(IntKind),
    /// A character constant of this kind, 6.4.4.4 (the constant): its bits.
    CharacterConstant(IntKind),
    /// String literals one behind the other, 6.4.5 (the first): their length in bytes with the last zero; e each
    /// `StringPiece`.
    StringLiteral,
    /// One string literal of them (the literal): its spelling.
    StringPiece,
    /// An expression in parentheses, 6.5.1 p5 (the `(`): e the expression.
    Parenthesized,
    /// A compound statement in parentheses, whose value is that of its last statement (the `(`): e `CompoundStatement`.
    StatementExpression,
    /// `[ ]`, 6.5.2.1 (the `[`): e the part before it, e the index.
    Subscript,
    /// A call, 6.5.2.2 (the `(`): e the function, e each argument.
    Call,
    /// `.`, 6.5.2.3 (the `.`): the member; e the structure or union.
    Member,
    /// `->`, 6.5.2.3 (the `->`): the member; e the pointer.
    PointerMember,
    /// `++` behind its operand, 6.5.2.4 (the `++`): e the operand.
    PostIncrement,
    /// `--` behind its operand, 6.5.2.4 (the `--`): e the operand.
    PostDecrement,
    /// A type in parentheses before a braced initializer, 6.5.2.5 (the `(`): t `TypeName`, e `BracedInitializer`.
    CompoundLiteral,
    /// `__builtin_expect` (the word): e the value, e what it is expected to be.
    BuiltinExpect,
    /// `__builtin_offsetof` (the word): the first member; t `TypeName`, u each designator behind that member.
    BuiltinOffsetof,

    // Unary expressions and casts (6.5.3, 6.5.4)
    /// `++` before its operand, 6.5.3.1 (the `++`): e the operand.
    PreIncrement,
    /// `--` before its operand, 6.5.3.1 (the `--`): e the operand.
    PreDecrement,
    /// Unary `&`, 6.5.3.2 p3 (the `&`): e the operand.
    Address,
    /// Unary `*`, 6.5.3.2 p4 (the `*`): e the operand.
    Indirection,
    /// Unary `+`, 6.5.3.3 p2 (the `+`): e the operand.
    UnaryPlus,
    /// Unary `-`, 6.5.3.3 p3 (the `-`): e the operand.
    Negation,
    /// `~`, 6.5.3.3 p4 (the `~`): e the operand.
    Complement,
    /// `!`, 6.5.3.3 p5 (the `!`): c the operand.
    LogicalNot,
    /// `sizeof` of an expression, 6.5.3.4 (the word): u the expression.
    SizeofExpression,
    /// `sizeof` of a type, 6.5.3.4 (the word): t `TypeName`.
    SizeofType,
    /// `_Alignof`, 6.5.3.4 (the word): t `TypeName`.
    AlignofType,
    /// A cast, 6.5.4 (the `(`): t `TypeName`, e the operand.
    Cast,

    // Binary operators (6.5.5 to 6.5.14), each at its operator: e the left operand, e the right one
    /// `*`, 6.5.5 p4.
    Multiplication,
    /// `/`, 6.5.5 p5.
    Division,
    /// `%`, 6.5.5 p5.
    Remainder,
    /// `+`, 6.5.6 p5.
    Addition,
    /// `-`, 6.5.6 p6.
    Subtraction,
    /// `<<`, 6.5.7 p4.
    LeftShift,
    /// `>>`, 6.5.7 p5.
    RightShift,
    /// `<`, 6.5.8.
    Less,
    /// `>`, 6.5.8.
    Greater,
    /// `<=`, 6.5.8.
    LessOrEqual,
    /// `>=`, 6.5.8.
    GreaterOrEqual,
    /// `==`, 6.5.9.
    Equal,
    /// `!=`, 6.5.9.
    NotEqual,
    /// `&`, 6.5.10.
    BitwiseAnd,
    /// `^`, 6.5.11.
    BitwiseExclusiveOr,
    /// `|`, 6.5.12.
    BitwiseOr,
    /// `&&`, 6.5.13: c both operands.
    LogicalAnd,
    /// `||`, 6.5.14: c both operands.
    LogicalOr,

    // `?:`, assignments and the comma (6.5.15 to 6.5.17), each at its operator
    /// `?:`, 6.5.15 (the `?`): c the first operand, e the second where it is written, e the third.
    Conditional,
    /// `=`, 6.5.16.1: e the place on its left, e the value on its right. So too all other assignments.
    Assignment,
    /// `*=`, 6.5.16.2.
    MultiplicationAssignment,
    /// `/=`, 6.5.16.2.
    DivisionAssignment,
    /// `%=`, 6.5.16.2.
    RemainderAssignment,
    /// `+=`, 6.5.16.2.
    AdditionAssignment,
    /// `-=`, 6.5.16.2.
    SubtractionAssignment,
    /// `<<=`, 6.5.16.2.
    LeftShiftAssignment,
    /// `>>=`, 6.5.16.2.
    RightShiftAssignment,
    /// `&=`, 6.5.16.2.
    BitwiseAndAssignment,
    /// `^=`, 6.5.16.2.
    BitwiseExclusiveOrAssignment,
    /// `|=`, 6.5.16.2.
    BitwiseOrAssignment,
    /// `,`, 6.5.17: e both operands.
    Comma,
}
