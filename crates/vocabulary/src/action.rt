// What is done between the parts of a production: by name alone. What each does is said where derivations are.
use crate::node_kind::NodeKind;
use crate::role::Role;

/// What a production does with what was read, directly behind the parts that it needs.
///
/// What was read stands on a stack of values of three sorts: words (tokens that were kept, or the place of
/// one), trees, and lists of trees, each with its role. An action takes values from the top and
/// leaves others there; the brackets say which, the top on the right.
#[derive(Clone, Copy, Debug, PartialEq, Eq)]
pub enum Action {
    // Lists, and places of tokens
    /// Begins a list (nothing; list).
    BeginList,
    /// Keeps the place of the token that comes next, and begins a list (nothing; word, list).
    BeginAtNext,
    /// Puts a tree at the end of a list, in this role (list, tree; list).
    Append(Role),

    // Nodes that need nothing but what they are made of
    /// A node of this kind at a word (word; tree).
    MakeLeaf(NodeKind),
    /// At the first word, with the name of the second (word, word; tree).
    MakeNamed(NodeKind),
    /// At the word, over one part in this role (word, tree; tree).
    MakeOver(NodeKind, Role),
    /// At the word, over two parts in these roles (word, tree, tree; tree).
    MakeOverTwo(NodeKind, Role, Role),
    /// At the word, over the parts of a list (word, list; tree).
    MakeOverList(NodeKind),
    /// At the word between its two parts, which have this role (tree, word, tree; tree).
    MakeBinary(NodeKind, Role),
    /// At the word behind its evaluated part (tree, word; tree).
    MakePostfix(NodeKind),
    /// At the word behind its evaluated part, with the name of the second word (tree, word, word; tree).
    MakeMember(NodeKind),

    // Units, declarations and functions
    /// `TranslationUnit` over a list (list; tree).
    MakeTranslationUnit,
    /// `Declaration` of specifiers alone (tree; tree).
    MakeLoneDeclaration,
    /// `Declaration` of specifiers and a list of declarators (tree, list; tree).
    MakeDeclaration,
    /// `FunctionDefinition` of specifiers, a declarator, a list of attributes and a body (tree, tree, list, tree; tree).
    MakeFunctionDefinition,
    /// The list of the declarators of a declaration, with the first and its attributes in it; it stands behind the
    /// specifiers (tree, tree, list; tree, list).
    BeginDeclarators,
    /// Puts a further declarator and the attributes behind it at the end of that list (list, tree, list; list).
    AppendDeclarator,
    /// Puts the attributes before a further declarator there, as `LeadingAttributes` where there are any (list, list; list).
    AppendLeadingAttributes,
    /// Binds the name of the first declarator behind its specifiers, or refuses it as redeclared (tree, tree; the same).
    BindDeclarator,
    /// Binds the name of a further one (tree, list, tree; the same).
    BindFurtherDeclarator,
    /// Notes in a body where a function's declarator and the attributes behind it end, since no body follows there
    /// (tree, list; the same).
    NoteFunctionDeclarator,
    /// Notes the declarator whose body comes (tree, tree, list; the same).
    AwaitBody,

    // Specifiers
    /// `Specifiers` of a declaration at file scope; a bad set of words is held till the next token is taken (word, list; tree).
    MakeFileSpecifiers,
    /// Of a declaration in a body or a `for` (word, list; tree).
    MakeBlockSpecifiers,
    /// Of a member (word, list; tree).
    MakeMemberSpecifiers,
    /// Of a parameter; no type is refused too (word, list; tree).
    MakeParameterSpecifiers,
    /// Of a type name (word, list; tree).
    MakeTypeNameSpecifiers,
    /// Specifiers that name no type are held till the next token is taken (tree; the same).
    RequireType,
    /// Specifiers that name no type are held till the next token is taken, unless they are attributes alone (tree; the same).
    RequireTypeOrAttributes,
    /// Binds the tag of a declaration that is nothing but `struct` or `union` and a tag in the innermost scope (tree; the same).
    DeclareTag,
    /// `TypedefName`, with the declarator of the type that it is bound to (word; tree).
    UseTypedefName,
    /// Of a `struct`, `union` or `enum` that has a body behind its tag: binds the tag in the innermost scope, and gives the
    /// keyword that first names it there (word, list, word; word, list, word, word).
    DefineTag,
    /// Of one that has no body: finds the tag, binds it where no scope has it, and gives the keyword that first names it
    /// (word, list, word; word, list, word, word).
    UseTag,
    /// Of one that has no tag: an empty tag, and its own keyword (word, list; word, list, word, word).
    WithoutTag,
    /// `StructSpecifier`, `UnionSpecifier` or `EnumSpecifier` of its keyword, its attributes, its tag, the keyword that first
    /// names it, and its body (word, list, word, word, list; tree).
    MakeTagged(NodeKind),
    /// `MemberDeclaration` of specifiers and a list of members (tree, list; tree).
    MakeMemberDeclaration,
    /// `Enumerator` of a name, attributes and a value (word, list; tree).
    MakeEnumerator,
    /// Binds the name of an enumerator, or refuses it as redeclared (tree; the same).
    BindEnumerator,

    // Attributes
    /// `AttributeList` of those of its words that mean something, or refuses the first bad one (word, list; tree).
    MakeAttributeList,
    /// Puts an attribute at the end of the list, where it is well formed and means something (list, word; list).
    AppendAttribute,

    // Declarators and type names
    /// Puts parts before those of a declarator (list, word, list; word, list).
    JoinParts,
    /// The same, and where the declarator has no name it stands at this word (word, list, word, list; word, list).
    JoinAnyParts,
    /// Puts array sizes and parameter lists, the last first, before the parts of the declarator that they stand behind
    /// (word, list, list; word, list).
    JoinSuffixes,
    /// A list of `ParenthesizedAttributes` over these, or of nothing where there are none (word, list; list).
    MakeParenthesizedAttributes,
    /// `Declarator` of its name and its parts (word, list; tree).
    MakeDeclarator,
    /// A list of `Declarator`, or of nothing where it has neither a name nor parts (word, list; list).
    MakeOptionalDeclarator,
    /// `TypeName` of specifiers and a declarator; a name in it is refused (tree, list; tree).
    MakeTypeName,
    /// Notes the limit where a list of parameters or arguments is full before another one comes (list; the same).
    CountParameter,
    /// Binds the name of a parameter, or refuses it as redeclared (tree, list; the same).
    BindParameter,
    /// `Parameter` of specifiers, and a list of its declarator and attributes (tree, list; tree).
    MakeParameter,
    /// Closes the scope of a parameter list, and keeps its names by the parenthesis where a body may have them again
    /// (word, list; the same).
    CloseParameters,

    // Scopes
    /// Opens a scope.
    OpenScope,
    /// Closes the innermost scope.
    CloseScope,
    /// Opens the scope of a body: that of the parameters again where a function's declarator awaits it, or else one without
    /// names (word; the same).
    OpenBody,

    // Initializers and statements
    /// `InitializerItem` of its place, its designators and its initializer (word, list, tree; tree).
    MakeInitializerItem,
    /// `CompoundStatement` between two words (word, list, word; tree).
    MakeCompoundStatement,
    /// `LabelStatement` of a name and a statement (word, tree; tree).
    MakeLabelStatement,
    /// `IfStatement` of its condition and a list of its statements (word, tree, list; tree).
    MakeIfStatement,
    /// `DoStatement` of a statement, the word `while` and a condition (word, tree, word, tree; tree).
    MakeDoStatement,
    /// The expression in a list, or `OmittedExpression` at the word where it is empty (list, word; tree).
    MakeForPart,
    /// `ForStatement` of its three parts and a statement (word, tree, tree, tree, tree; tree).
    MakeForStatement,
    /// `ContextStatement`, or refuses what stands in its parentheses (word; tree).
    MakeContextStatement,

    // Expressions
    /// `Conditional` of a condition, a list of what stands behind it, and the last operand (tree, word, list, tree; tree).
    MakeConditional,
    /// `SizeofType` at the first word, whose type stands behind the second (word, word, tree; tree).
    MakeSizeofType,
    /// `Call` of a function and a list of arguments (tree, word, list; tree).
    MakeCall,
    /// `Name`, or refuses one that isn't declared (word; tree).
    UseName,
    /// `IntegerConstant`, or refuses it (word; tree).
    MakeIntegerConstant,
    /// `CharacterConstant`, or refuses it (word; tree).
    MakeCharacterConstant,
    /// `StringPiece` (word; tree).
    MakeStringPiece,
    /// `StringLiteral` over its pieces, or refuses the first bad one (word, list; tree).
    MakeStringLiteral,
    /// `BuiltinOffsetof` of a type, the first member and a list of designators (word, tree, word, list; tree).
    MakeBuiltinOffsetof,
}
