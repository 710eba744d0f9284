// What begins with tokens of these classes: a class arrives, and whether it does leaves. No row is known here.
ghost use Rattle.std.specs.Prelude.{◌≡◌, ◌∷◌, ◌++◌, []};
ghost use Rattle.meaning_grammar.specs.Classes.{is_among};
ghost use Rattle.meaning_grammar.specs.ClassLists.{any_declarator_start, attribute_words, declarator_start, expression_start, keyword_type_start, names, other_statement_start, type_start};
ghost use Rattle.meaning_grammar.specs.Looks.{Begins, Either, Then, ThenNot, look_holds};
ghost use Rattle.vocabulary.specs.declared.token_class.TokenClass.TheVariants as classes;

use vocabulary::TokenClass;

/// A declaration or a type name can begin with it.
pub(crate) fn begins_type(class: TokenClass) -> bool
    ensures { result ≡ is_among type_start class }
{
    match class {
        TokenClass::TypedefKeyword
        | TokenClass::ExternKeyword
        | TokenClass::StaticKeyword
        | TokenClass::AutoKeyword
        | TokenClass::RegisterKeyword
        | TokenClass::InlineKeyword
        | TokenClass::NoreturnKeyword
        | TokenClass::ConstKeyword
        | TokenClass::VolatileKeyword
        | TokenClass::RestrictKeyword
        | TokenClass::VoidKeyword
        | TokenClass::CharKeyword
        | TokenClass::ShortKeyword
        | TokenClass::IntKeyword
        | TokenClass::LongKeyword
        | TokenClass::SignedKeyword
        | TokenClass::UnsignedKeyword
        | TokenClass::BoolKeyword
        | TokenClass::StructKeyword
        | TokenClass::UnionKeyword => true,
        TokenClass::EnumKeyword
        | TokenClass::TypeofKeyword
        | TokenClass::TypedefName
        | TokenClass::AttributeKeyword => true,
        _ => false,
    }
}

/// A name, whatever it is bound to.
pub fn is_name(class: TokenClass) -> bool
    ensures { result ≡ is_among names class }
{
    matches!(class, TokenClass::Identifier | TokenClass::TypedefName)
}

/// The word of an attribute.
pub fn is_attribute_word(class: TokenClass) -> bool
    ensures { result ≡ is_among attribute_words class }
{
    match class {
        TokenClass::Identifier
        | TokenClass::TypedefName
        | TokenClass::OtherKeyword
        | TokenClass::TypedefKeyword
        | TokenClass::ExternKeyword
        | TokenClass::StaticKeyword
        | TokenClass::AutoKeyword
        | TokenClass::RegisterKeyword
        | TokenClass::InlineKeyword
        | TokenClass::NoreturnKeyword
        | TokenClass::ConstKeyword
        | TokenClass::VolatileKeyword
        | TokenClass::RestrictKeyword
        | TokenClass::VoidKeyword
        | TokenClass::CharKeyword
        | TokenClass::ShortKeyword
        | TokenClass::IntKeyword
        | TokenClass::LongKeyword
        | TokenClass::SignedKeyword
        | TokenClass::UnsignedKeyword => true,
        TokenClass::BoolKeyword
        | TokenClass::StructKeyword
        | TokenClass::UnionKeyword
        | TokenClass::EnumKeyword
        | TokenClass::TypeofKeyword
        | TokenClass::AttributeKeyword
        | TokenClass::StaticAssertKeyword
        | TokenClass::CaseKeyword
        | TokenClass::DefaultKeyword
        | TokenClass::IfKeyword
        | TokenClass::ElseKeyword
        | TokenClass::SwitchKeyword
        | TokenClass::WhileKeyword
        | TokenClass::DoKeyword
        | TokenClass::ForKeyword
        | TokenClass::GotoKeyword
        | TokenClass::ContinueKeyword
        | TokenClass::BreakKeyword
        | TokenClass::ReturnKeyword
        | TokenClass::ContextKeyword => true,
        TokenClass::SizeofKeyword
        | TokenClass::AlignofKeyword
        | TokenClass::BuiltinExpectKeyword
        | TokenClass::BuiltinOffsetofKeyword => true,
        _ => false,
    }
}

/// An expression can begin with it.
pub fn begins_expression(class: TokenClass) -> bool
    ensures { result ≡ is_among expression_start class }
{
    matches!(
        class,
        TokenClass::Identifier
            | TokenClass::LeftParenthesis
            | TokenClass::Number
            | TokenClass::Character
            | TokenClass::String
            | TokenClass::Ampersand
            | TokenClass::Star
            | TokenClass::Plus
            | TokenClass::Minus
            | TokenClass::Tilde
            | TokenClass::Exclamation
            | TokenClass::PlusPlus
            | TokenClass::MinusMinus
            | TokenClass::SizeofKeyword
            | TokenClass::AlignofKeyword
            | TokenClass::BuiltinExpectKeyword
            | TokenClass::BuiltinOffsetofKeyword
    )
}

/// A declarator can begin with it.
pub(crate) fn begins_declarator(class: TokenClass) -> bool
    ensures { result ≡ is_among declarator_start class }
{
    matches!(
        class,
        TokenClass::Star
            | TokenClass::LeftParenthesis
            | TokenClass::Identifier
            | TokenClass::TypedefName
    )
}

/// A parameter or a type name can begin with it, or stand before it without a token.
pub(crate) fn begins_parameter(class: TokenClass) -> bool
    ensures { result ≡ is_among (type_start ++ any_declarator_start ++ classes.RightParenthesis ∷ classes.Comma ∷ []) class }
{
    match class {
        TokenClass::TypedefKeyword
        | TokenClass::ExternKeyword
        | TokenClass::StaticKeyword
        | TokenClass::AutoKeyword
        | TokenClass::RegisterKeyword
        | TokenClass::InlineKeyword
        | TokenClass::NoreturnKeyword
        | TokenClass::ConstKeyword
        | TokenClass::VolatileKeyword
        | TokenClass::RestrictKeyword
        | TokenClass::VoidKeyword
        | TokenClass::CharKeyword
        | TokenClass::ShortKeyword
        | TokenClass::IntKeyword
        | TokenClass::LongKeyword
        | TokenClass::SignedKeyword
        | TokenClass::UnsignedKeyword
        | TokenClass::BoolKeyword
        | TokenClass::StructKeyword
        | TokenClass::UnionKeyword => true,
        TokenClass::EnumKeyword
        | TokenClass::TypeofKeyword
        | TokenClass::TypedefName
        | TokenClass::AttributeKeyword
        | TokenClass::LeftBracket
        | TokenClass::Star
        | TokenClass::LeftParenthesis
        | TokenClass::Identifier
        | TokenClass::RightParenthesis
        | TokenClass::Comma => true,
        _ => false,
    }
}

/// A declaration or a function at file scope can begin with it.
pub(crate) fn begins_external_declaration(class: TokenClass) -> bool
    ensures { result ≡ is_among (classes.Semicolon ∷ classes.StaticAssertKeyword ∷ type_start ++ declarator_start) class }
{
    match class {
        TokenClass::Semicolon
        | TokenClass::StaticAssertKeyword
        | TokenClass::TypedefKeyword
        | TokenClass::ExternKeyword
        | TokenClass::StaticKeyword
        | TokenClass::AutoKeyword
        | TokenClass::RegisterKeyword
        | TokenClass::InlineKeyword
        | TokenClass::NoreturnKeyword
        | TokenClass::ConstKeyword
        | TokenClass::VolatileKeyword
        | TokenClass::RestrictKeyword
        | TokenClass::VoidKeyword
        | TokenClass::CharKeyword
        | TokenClass::ShortKeyword
        | TokenClass::IntKeyword
        | TokenClass::LongKeyword
        | TokenClass::SignedKeyword
        | TokenClass::UnsignedKeyword
        | TokenClass::BoolKeyword => true,
        TokenClass::StructKeyword
        | TokenClass::UnionKeyword
        | TokenClass::EnumKeyword
        | TokenClass::TypeofKeyword
        | TokenClass::TypedefName
        | TokenClass::AttributeKeyword
        | TokenClass::Star
        | TokenClass::LeftParenthesis
        | TokenClass::Identifier => true,
        _ => false,
    }
}

/// A declaration of members can begin with it.
pub(crate) fn begins_member_declaration(class: TokenClass) -> bool
    ensures { result ≡ is_among (classes.Semicolon ∷ classes.StaticAssertKeyword ∷ classes.Colon ∷ type_start ++ declarator_start) class }
{
    match class {
        TokenClass::Semicolon
        | TokenClass::StaticAssertKeyword
        | TokenClass::Colon
        | TokenClass::TypedefKeyword
        | TokenClass::ExternKeyword
        | TokenClass::StaticKeyword
        | TokenClass::AutoKeyword
        | TokenClass::RegisterKeyword
        | TokenClass::InlineKeyword
        | TokenClass::NoreturnKeyword
        | TokenClass::ConstKeyword
        | TokenClass::VolatileKeyword
        | TokenClass::RestrictKeyword
        | TokenClass::VoidKeyword
        | TokenClass::CharKeyword
        | TokenClass::ShortKeyword
        | TokenClass::IntKeyword
        | TokenClass::LongKeyword
        | TokenClass::SignedKeyword
        | TokenClass::UnsignedKeyword => true,
        TokenClass::BoolKeyword
        | TokenClass::StructKeyword
        | TokenClass::UnionKeyword
        | TokenClass::EnumKeyword
        | TokenClass::TypeofKeyword
        | TokenClass::TypedefName
        | TokenClass::AttributeKeyword
        | TokenClass::Star
        | TokenClass::LeftParenthesis
        | TokenClass::Identifier => true,
        _ => false,
    }
}

/// A declaration or a statement can begin with it.
pub(crate) fn begins_block_item(class: TokenClass) -> bool
    ensures { result ≡ is_among (classes.StaticAssertKeyword ∷ type_start ++ classes.Identifier ∷ other_statement_start) class }
{
    match class {
        TokenClass::LeftBracket
        | TokenClass::RightBracket
        | TokenClass::RightParenthesis
        | TokenClass::RightBrace
        | TokenClass::Dot
        | TokenClass::Arrow
        | TokenClass::Slash
        | TokenClass::Percent
        | TokenClass::ShiftLeft
        | TokenClass::ShiftRight
        | TokenClass::Less
        | TokenClass::Greater
        | TokenClass::LessEqual
        | TokenClass::GreaterEqual
        | TokenClass::EqualEqual
        | TokenClass::NotEqual
        | TokenClass::Caret
        | TokenClass::Bar
        | TokenClass::AndAnd
        | TokenClass::OrOr => false,
        TokenClass::Question
        | TokenClass::Colon
        | TokenClass::Ellipsis
        | TokenClass::Assign
        | TokenClass::StarAssign
        | TokenClass::SlashAssign
        | TokenClass::PercentAssign
        | TokenClass::PlusAssign
        | TokenClass::MinusAssign
        | TokenClass::ShiftLeftAssign
        | TokenClass::ShiftRightAssign
        | TokenClass::AndAssign
        | TokenClass::XorAssign
        | TokenClass::OrAssign
        | TokenClass::Comma
        | TokenClass::ElseKeyword
        | TokenClass::RefusedString
        | TokenClass::OtherKeyword
        | TokenClass::OtherToken
        | TokenClass::End => false,
        _ => true,
    }
}

/// It is `{`.
pub(crate) fn is_left_brace(class: TokenClass) -> bool
    ensures { result ≡ is_among (classes.LeftBrace ∷ []) class }
{
    matches!(class, TokenClass::LeftBrace)
}

/// It is `}`.
pub(crate) fn is_right_brace(class: TokenClass) -> bool
    ensures { result ≡ is_among (classes.RightBrace ∷ []) class }
{
    matches!(class, TokenClass::RightBrace)
}

/// It is `]`.
pub(crate) fn is_right_bracket(class: TokenClass) -> bool
    ensures { result ≡ is_among (classes.RightBracket ∷ []) class }
{
    matches!(class, TokenClass::RightBracket)
}

/// It is `)`.
pub(crate) fn is_right_parenthesis(class: TokenClass) -> bool
    ensures { result ≡ is_among (classes.RightParenthesis ∷ []) class }
{
    matches!(class, TokenClass::RightParenthesis)
}

/// It is `:`.
pub(crate) fn is_colon(class: TokenClass) -> bool
    ensures { result ≡ is_among (classes.Colon ∷ []) class }
{
    matches!(class, TokenClass::Colon)
}

/// A static assertion begins with it.
pub(crate) fn begins_assertion(class: TokenClass) -> bool
    ensures { result ≡ is_among (classes.StaticAssertKeyword ∷ []) class }
{
    matches!(class, TokenClass::StaticAssertKeyword)
}

/// A name and a colon: a label.
pub(crate) fn begins_label(next: TokenClass, behind: TokenClass) -> bool
    ensures { result ≡ look_holds (Either (Then classes.Identifier (classes.Colon ∷ [])) (Then classes.TypedefName (classes.Colon ∷ []))) next behind }
{
    match next {
        TokenClass::Identifier | TokenClass::TypedefName => matches!(behind, TokenClass::Colon),
        _ => false,
    }
}

/// A declaration begins with it, and no label.
pub(crate) fn begins_declaration(next: TokenClass, behind: TokenClass) -> bool
    ensures { result ≡ look_holds (Either (Begins (keyword_type_start ++ classes.AttributeKeyword ∷ [])) (ThenNot classes.TypedefName (classes.Colon ∷ []))) next behind }
{
    match next {
        TokenClass::TypedefName => !matches!(behind, TokenClass::Colon),
        TokenClass::TypedefKeyword
        | TokenClass::ExternKeyword
        | TokenClass::StaticKeyword
        | TokenClass::AutoKeyword
        | TokenClass::RegisterKeyword
        | TokenClass::InlineKeyword
        | TokenClass::NoreturnKeyword
        | TokenClass::ConstKeyword
        | TokenClass::VolatileKeyword
        | TokenClass::RestrictKeyword
        | TokenClass::VoidKeyword
        | TokenClass::CharKeyword
        | TokenClass::ShortKeyword
        | TokenClass::IntKeyword
        | TokenClass::LongKeyword
        | TokenClass::SignedKeyword
        | TokenClass::UnsignedKeyword
        | TokenClass::BoolKeyword
        | TokenClass::StructKeyword
        | TokenClass::UnionKeyword => true,
        TokenClass::EnumKeyword | TokenClass::TypeofKeyword | TokenClass::AttributeKeyword => true,
        _ => false,
    }
}

/// A statement begins with it that is no label.
pub(crate) fn begins_other_statement(next: TokenClass, behind: TokenClass) -> bool
    ensures { result ≡ look_holds (Either (Begins other_statement_start) (ThenNot classes.Identifier (classes.Colon ∷ []))) next behind }
{
    match next {
        TokenClass::Identifier => !matches!(behind, TokenClass::Colon),
        TokenClass::LeftBrace
        | TokenClass::CaseKeyword
        | TokenClass::DefaultKeyword
        | TokenClass::IfKeyword
        | TokenClass::SwitchKeyword
        | TokenClass::WhileKeyword
        | TokenClass::DoKeyword
        | TokenClass::ForKeyword
        | TokenClass::GotoKeyword
        | TokenClass::ContinueKeyword
        | TokenClass::BreakKeyword
        | TokenClass::ReturnKeyword
        | TokenClass::ContextKeyword
        | TokenClass::Semicolon
        | TokenClass::LeftParenthesis
        | TokenClass::Number
        | TokenClass::Character
        | TokenClass::String
        | TokenClass::Ampersand
        | TokenClass::Star => true,
        TokenClass::Plus
        | TokenClass::Minus
        | TokenClass::Tilde
        | TokenClass::Exclamation
        | TokenClass::PlusPlus
        | TokenClass::MinusMinus
        | TokenClass::SizeofKeyword
        | TokenClass::AlignofKeyword
        | TokenClass::BuiltinExpectKeyword
        | TokenClass::BuiltinOffsetofKeyword => true,
        _ => false,
    }
}
