// What is asked of an item alone: an item arrives, and leaves as a number or as an answer of yes or no. What was read isn't
// known here.
ghost use Rattle.std.specs.Prelude.{◌≡◌, ◌≤◌, ◌∷◌, [], length};
ghost use Rattle.meaning_grammar.specs.Classes.{class_number, is_same};
ghost use Rattle.meaning_grammar.specs.Items.{is_passed_over, takes};
ghost use Rattle.meaning_derivation.specs.Derivation.{symbols};
ghost use Rattle.meaning_derivation.specs.Taking.{keeps};

use c_grammar::{is_attribute_word, is_name};
use vocabulary::{ProductionItem, TokenClass};

// How many symbols of the grammar it is: actions and the end aren't counted.
fn symbol_count(item: ProductionItem) -> usize
    ensures count { result ≡ symbols (item ∷ []) }
    ensures few { result ≤ 1 }
{
    match item {
        ProductionItem::Do(_) | ProductionItem::Passed(TokenClass::End) => 0,
        _ => 1,
    }
}

/// How many symbols of the grammar are among the items.
pub(crate) fn count_symbols(items: &[ProductionItem]) -> usize
    ensures count { result ≡ symbols items.now }
    ensures few { result ≤ length items.now }
{
    let mut count = 0;
    for item in items {
        count += symbol_count(*item);
    }
    count
}

// The number of a class in their order.
fn class_number(class: TokenClass) -> u8
    ensures { result ≡ class_number class }
{
    match class {
        TokenClass::LeftBracket => 0,
        TokenClass::RightBracket => 1,
        TokenClass::LeftParenthesis => 2,
        TokenClass::RightParenthesis => 3,
        TokenClass::LeftBrace => 4,
        TokenClass::RightBrace => 5,
        TokenClass::Dot => 6,
        TokenClass::Arrow => 7,
        TokenClass::PlusPlus => 8,
        TokenClass::MinusMinus => 9,
        TokenClass::Ampersand => 10,
        TokenClass::Star => 11,
        TokenClass::Plus => 12,
        TokenClass::Minus => 13,
        TokenClass::Tilde => 14,
        TokenClass::Exclamation => 15,
        TokenClass::Slash => 16,
        TokenClass::Percent => 17,
        TokenClass::ShiftLeft => 18,
        TokenClass::ShiftRight => 19,
        TokenClass::Less => 20,
        TokenClass::Greater => 21,
        TokenClass::LessEqual => 22,
        TokenClass::GreaterEqual => 23,
        TokenClass::EqualEqual => 24,
        TokenClass::NotEqual => 25,
        TokenClass::Caret => 26,
        TokenClass::Bar => 27,
        TokenClass::AndAnd => 28,
        TokenClass::OrOr => 29,
        TokenClass::Question => 30,
        TokenClass::Colon => 31,
        TokenClass::Semicolon => 32,
        TokenClass::Ellipsis => 33,
        TokenClass::Assign => 34,
        TokenClass::StarAssign => 35,
        TokenClass::SlashAssign => 36,
        TokenClass::PercentAssign => 37,
        TokenClass::PlusAssign => 38,
        TokenClass::MinusAssign => 39,
        TokenClass::ShiftLeftAssign => 40,
        TokenClass::ShiftRightAssign => 41,
        TokenClass::AndAssign => 42,
        TokenClass::XorAssign => 43,
        TokenClass::OrAssign => 44,
        TokenClass::Comma => 45,
        TokenClass::TypedefKeyword => 46,
        TokenClass::ExternKeyword => 47,
        TokenClass::StaticKeyword => 48,
        TokenClass::AutoKeyword => 49,
        TokenClass::RegisterKeyword => 50,
        TokenClass::InlineKeyword => 51,
        TokenClass::NoreturnKeyword => 52,
        TokenClass::ConstKeyword => 53,
        TokenClass::VolatileKeyword => 54,
        TokenClass::RestrictKeyword => 55,
        TokenClass::VoidKeyword => 56,
        TokenClass::CharKeyword => 57,
        TokenClass::ShortKeyword => 58,
        TokenClass::IntKeyword => 59,
        TokenClass::LongKeyword => 60,
        TokenClass::SignedKeyword => 61,
        TokenClass::UnsignedKeyword => 62,
        TokenClass::BoolKeyword => 63,
        TokenClass::StructKeyword => 64,
        TokenClass::UnionKeyword => 65,
        TokenClass::EnumKeyword => 66,
        TokenClass::TypeofKeyword => 67,
        TokenClass::AttributeKeyword => 68,
        TokenClass::StaticAssertKeyword => 69,
        TokenClass::CaseKeyword => 70,
        TokenClass::DefaultKeyword => 71,
        TokenClass::IfKeyword => 72,
        TokenClass::ElseKeyword => 73,
        TokenClass::SwitchKeyword => 74,
        TokenClass::WhileKeyword => 75,
        TokenClass::DoKeyword => 76,
        TokenClass::ForKeyword => 77,
        TokenClass::GotoKeyword => 78,
        TokenClass::ContinueKeyword => 79,
        TokenClass::BreakKeyword => 80,
        TokenClass::ReturnKeyword => 81,
        TokenClass::ContextKeyword => 82,
        TokenClass::SizeofKeyword => 83,
        TokenClass::AlignofKeyword => 84,
        TokenClass::BuiltinExpectKeyword => 85,
        TokenClass::BuiltinOffsetofKeyword => 86,
        TokenClass::Identifier => 87,
        TokenClass::TypedefName => 88,
        TokenClass::Number => 89,
        TokenClass::Character => 90,
        TokenClass::String => 91,
        TokenClass::RefusedString => 92,
        TokenClass::OtherKeyword => 93,
        TokenClass::OtherToken => 94,
        TokenClass::End => 95,
    }
}

/// Two classes are one.
pub(crate) fn is_same(first: TokenClass, second: TokenClass) -> bool
    ensures { result ≡ is_same first second }
{
    class_number(first) == class_number(second)
}

// Between balanced parentheses each token is passed over but a parenthesis and the end.
fn is_passed_over(class: TokenClass) -> bool
    ensures { result ≡ is_passed_over class }
{
    !matches!(
        class,
        TokenClass::LeftParenthesis | TokenClass::RightParenthesis | TokenClass::End
    )
}

/// The item takes a token of this class.
pub(crate) fn takes(item: ProductionItem, class: TokenClass) -> bool
    ensures { result ≡ takes item class }
{
    match item {
        ProductionItem::Token(wanted) => is_same(wanted, class),
        ProductionItem::Passed(wanted) => is_same(wanted, class),
        ProductionItem::PassedAny => is_passed_over(class),
        ProductionItem::Name => is_name(class),
        ProductionItem::LabelName => is_name(class),
        ProductionItem::AttributeWord => is_attribute_word(class),
        ProductionItem::CaseColon => is_same(TokenClass::Colon, class),
        ProductionItem::DesignatorEnd => is_same(TokenClass::RightBracket, class),
        ProductionItem::Nonterminal(_) => false,
        ProductionItem::Do(_) => false,
    }
}

/// The item keeps the token that it takes.
pub(crate) fn keeps(item: ProductionItem) -> bool
    ensures { result ≡ keeps item }
{
    match item {
        ProductionItem::Token(_) => true,
        ProductionItem::Name => true,
        ProductionItem::LabelName => true,
        ProductionItem::AttributeWord => true,
        _ => false,
    }
}
