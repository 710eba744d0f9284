// The words that are more than names (C11 6.4.1), with those of GNU C and of the kernel: data alone, which `spellings.rt`
// looks through.
use vocabulary::{ErrorKind, TokenClass};

/// A word, its class, and the error that it is where it isn't supported.
#[derive(Clone, Copy)]
pub(crate) struct WordRow {
    pub(crate) spelling: &'static [u8],
    pub(crate) class: TokenClass,
    pub(crate) refusal: Option<ErrorKind>,
}

// The words that begin with an underscore.
#[rattlefmt::skip]
pub(crate) static UNDERSCORED: [WordRow; 35] = [
    WordRow { spelling: b"__inline", class: TokenClass::InlineKeyword, refusal: None },
    WordRow { spelling: b"__inline__", class: TokenClass::InlineKeyword, refusal: None },
    WordRow { spelling: b"_Noreturn", class: TokenClass::NoreturnKeyword, refusal: None },
    WordRow { spelling: b"__const", class: TokenClass::ConstKeyword, refusal: None },
    WordRow { spelling: b"__const__", class: TokenClass::ConstKeyword, refusal: None },
    WordRow { spelling: b"__volatile", class: TokenClass::VolatileKeyword, refusal: None },
    WordRow { spelling: b"__volatile__", class: TokenClass::VolatileKeyword, refusal: None },
    WordRow { spelling: b"__restrict", class: TokenClass::RestrictKeyword, refusal: None },
    WordRow { spelling: b"__restrict__", class: TokenClass::RestrictKeyword, refusal: None },
    WordRow { spelling: b"__signed", class: TokenClass::SignedKeyword, refusal: None },
    WordRow { spelling: b"__signed__", class: TokenClass::SignedKeyword, refusal: None },
    WordRow { spelling: b"_Bool", class: TokenClass::BoolKeyword, refusal: None },
    WordRow { spelling: b"__typeof", class: TokenClass::TypeofKeyword, refusal: None },
    WordRow { spelling: b"__typeof__", class: TokenClass::TypeofKeyword, refusal: None },
    WordRow { spelling: b"__attribute__", class: TokenClass::AttributeKeyword, refusal: None },
    WordRow { spelling: b"__attribute", class: TokenClass::AttributeKeyword, refusal: None },
    WordRow { spelling: b"_Static_assert", class: TokenClass::StaticAssertKeyword, refusal: None },
    WordRow { spelling: b"__context__", class: TokenClass::ContextKeyword, refusal: None },
    WordRow { spelling: b"_Alignof", class: TokenClass::AlignofKeyword, refusal: None },
    WordRow { spelling: b"__alignof", class: TokenClass::AlignofKeyword, refusal: None },
    WordRow { spelling: b"__alignof__", class: TokenClass::AlignofKeyword, refusal: None },
    WordRow { spelling: b"__builtin_expect", class: TokenClass::BuiltinExpectKeyword, refusal: None },
    WordRow { spelling: b"__builtin_offsetof", class: TokenClass::BuiltinOffsetofKeyword, refusal: None },
    WordRow { spelling: b"_Imaginary", class: TokenClass::OtherKeyword, refusal: None },
    WordRow { spelling: b"__asm", class: TokenClass::OtherToken, refusal: Some(ErrorKind::InlineAssembly) },
    WordRow { spelling: b"__asm__", class: TokenClass::OtherToken, refusal: Some(ErrorKind::InlineAssembly) },
    WordRow { spelling: b"_Generic", class: TokenClass::OtherToken, refusal: Some(ErrorKind::GenericSelection) },
    WordRow { spelling: b"_Atomic", class: TokenClass::OtherToken, refusal: Some(ErrorKind::AtomicType) },
    WordRow { spelling: b"_Complex", class: TokenClass::OtherToken, refusal: Some(ErrorKind::ComplexType) },
    WordRow { spelling: b"_Thread_local", class: TokenClass::OtherToken, refusal: Some(ErrorKind::ThreadLocal) },
    WordRow { spelling: b"__int128", class: TokenClass::OtherToken, refusal: Some(ErrorKind::Int128) },
    WordRow { spelling: b"__label__", class: TokenClass::OtherToken, refusal: Some(ErrorKind::LocalLabel) },
    WordRow { spelling: b"__auto_type", class: TokenClass::OtherToken, refusal: Some(ErrorKind::AutoType) },
    WordRow { spelling: b"_Alignas", class: TokenClass::OtherToken, refusal: Some(ErrorKind::Alignas) },
    WordRow { spelling: b"_Pragma", class: TokenClass::OtherToken, refusal: Some(ErrorKind::PragmaOperator) },
];

// The words from `a` to `d`.
#[rattlefmt::skip]
pub(crate) static UP_TO_D: [WordRow; 10] = [
    WordRow { spelling: b"auto", class: TokenClass::AutoKeyword, refusal: None },
    WordRow { spelling: b"const", class: TokenClass::ConstKeyword, refusal: None },
    WordRow { spelling: b"char", class: TokenClass::CharKeyword, refusal: None },
    WordRow { spelling: b"case", class: TokenClass::CaseKeyword, refusal: None },
    WordRow { spelling: b"default", class: TokenClass::DefaultKeyword, refusal: None },
    WordRow { spelling: b"do", class: TokenClass::DoKeyword, refusal: None },
    WordRow { spelling: b"continue", class: TokenClass::ContinueKeyword, refusal: None },
    WordRow { spelling: b"break", class: TokenClass::BreakKeyword, refusal: None },
    WordRow { spelling: b"double", class: TokenClass::OtherToken, refusal: Some(ErrorKind::FloatingType) },
    WordRow { spelling: b"asm", class: TokenClass::OtherToken, refusal: Some(ErrorKind::InlineAssembly) },
];

// The words from `e` to `r`.
#[rattlefmt::skip]
pub(crate) static UP_TO_R: [WordRow; 13] = [
    WordRow { spelling: b"extern", class: TokenClass::ExternKeyword, refusal: None },
    WordRow { spelling: b"register", class: TokenClass::RegisterKeyword, refusal: None },
    WordRow { spelling: b"inline", class: TokenClass::InlineKeyword, refusal: None },
    WordRow { spelling: b"restrict", class: TokenClass::RestrictKeyword, refusal: None },
    WordRow { spelling: b"int", class: TokenClass::IntKeyword, refusal: None },
    WordRow { spelling: b"long", class: TokenClass::LongKeyword, refusal: None },
    WordRow { spelling: b"enum", class: TokenClass::EnumKeyword, refusal: None },
    WordRow { spelling: b"if", class: TokenClass::IfKeyword, refusal: None },
    WordRow { spelling: b"else", class: TokenClass::ElseKeyword, refusal: None },
    WordRow { spelling: b"for", class: TokenClass::ForKeyword, refusal: None },
    WordRow { spelling: b"goto", class: TokenClass::GotoKeyword, refusal: None },
    WordRow { spelling: b"return", class: TokenClass::ReturnKeyword, refusal: None },
    WordRow { spelling: b"float", class: TokenClass::OtherToken, refusal: Some(ErrorKind::FloatingType) },
];

// The words behind `r`.
#[rattlefmt::skip]
pub(crate) static BEHIND_R: [WordRow; 13] = [
    WordRow { spelling: b"typedef", class: TokenClass::TypedefKeyword, refusal: None },
    WordRow { spelling: b"static", class: TokenClass::StaticKeyword, refusal: None },
    WordRow { spelling: b"volatile", class: TokenClass::VolatileKeyword, refusal: None },
    WordRow { spelling: b"void", class: TokenClass::VoidKeyword, refusal: None },
    WordRow { spelling: b"short", class: TokenClass::ShortKeyword, refusal: None },
    WordRow { spelling: b"signed", class: TokenClass::SignedKeyword, refusal: None },
    WordRow { spelling: b"unsigned", class: TokenClass::UnsignedKeyword, refusal: None },
    WordRow { spelling: b"struct", class: TokenClass::StructKeyword, refusal: None },
    WordRow { spelling: b"union", class: TokenClass::UnionKeyword, refusal: None },
    WordRow { spelling: b"typeof", class: TokenClass::TypeofKeyword, refusal: None },
    WordRow { spelling: b"switch", class: TokenClass::SwitchKeyword, refusal: None },
    WordRow { spelling: b"while", class: TokenClass::WhileKeyword, refusal: None },
    WordRow { spelling: b"sizeof", class: TokenClass::SizeofKeyword, refusal: None },
];
