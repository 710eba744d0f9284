// The words of commands on nodes.
use crate::words::with_number;
use sparse_model::{IntKind, NodeKind};

/// What goes on many times.
#[derive(Clone, Copy)]
pub enum Chain {
    Sums,
    Ands,
    Arms,
    Parentheses,
    Enumerators,
}

/// What a word does.
#[derive(Clone, Copy)]
pub enum Verb {
    /// It tells the type of the next nodes: the first one that was made of a kind, or by its number.
    Of(IntKind),
    OfNumber,
    Fouled,
    Width,
    /// Its own word is the name that the next node holds.
    Member,
    /// It makes a node of so many of the last ones.
    Leaf(NodeKind),
    Object,
    Literal,
    Character,
    One(NodeKind),
    Two(NodeKind),
    Three(NodeKind),
    Enumerator,
    Show,
    Go(Chain),
}

/// The words, each as far as a number stands behind it.
const VERBS: [(&[u8], Verb); 69] = [
    (b"bool", Verb::Of(IntKind::Bool)),
    (b"char", Verb::Of(IntKind::Char)),
    (b"signed_char", Verb::Of(IntKind::SChar)),
    (b"unsigned_char", Verb::Of(IntKind::UChar)),
    (b"short", Verb::Of(IntKind::Short)),
    (b"unsigned_short", Verb::Of(IntKind::UShort)),
    (b"int", Verb::Of(IntKind::Int)),
    (b"unsigned", Verb::Of(IntKind::UInt)),
    (b"long", Verb::Of(IntKind::Long)),
    (b"unsigned_long", Verb::Of(IntKind::ULong)),
    (b"long_long", Verb::Of(IntKind::LLong)),
    (b"unsigned_long_long", Verb::Of(IntKind::ULLong)),
    (b"of", Verb::OfNumber),
    (b"fouled", Verb::Fouled),
    (b"width", Verb::Width),
    (b"member", Verb::Member),
    (b"literal", Verb::Literal),
    (b"character", Verb::Character),
    (b"object", Verb::Object),
    (b"string", Verb::Leaf(NodeKind::StringLiteral)),
    (b"type_name", Verb::Leaf(NodeKind::TypeName)),
    (b"named", Verb::Leaf(NodeKind::Name)),
    (b"paren", Verb::One(NodeKind::Parenthesized)),
    (b"positive", Verb::One(NodeKind::UnaryPlus)),
    (b"negative", Verb::One(NodeKind::Negation)),
    (b"complement", Verb::One(NodeKind::Complement)),
    (b"not", Verb::One(NodeKind::LogicalNot)),
    (b"sizeof", Verb::One(NodeKind::SizeofExpression)),
    (b"sizeof_type", Verb::One(NodeKind::SizeofType)),
    (b"alignof", Verb::One(NodeKind::AlignofType)),
    (b"dot", Verb::Leaf(NodeKind::MemberDesignator)),
    (b"index", Verb::One(NodeKind::IndexDesignator)),
    (b"offsetof", Verb::One(NodeKind::BuiltinOffsetof)),
    (b"offsetof_behind", Verb::Two(NodeKind::BuiltinOffsetof)),
    (b"offsetof_further", Verb::Three(NodeKind::BuiltinOffsetof)),
    (b"call", Verb::One(NodeKind::Call)),
    (b"statement", Verb::One(NodeKind::StatementExpression)),
    (b"address", Verb::One(NodeKind::Address)),
    (b"mul", Verb::Two(NodeKind::Multiplication)),
    (b"div", Verb::Two(NodeKind::Division)),
    (b"rem", Verb::Two(NodeKind::Remainder)),
    (b"add", Verb::Two(NodeKind::Addition)),
    (b"sub", Verb::Two(NodeKind::Subtraction)),
    (b"shl", Verb::Two(NodeKind::LeftShift)),
    (b"shr", Verb::Two(NodeKind::RightShift)),
    (b"less", Verb::Two(NodeKind::Less)),
    (b"greater", Verb::Two(NodeKind::Greater)),
    (b"at_most", Verb::Two(NodeKind::LessOrEqual)),
    (b"at_least", Verb::Two(NodeKind::GreaterOrEqual)),
    (b"equal", Verb::Two(NodeKind::Equal)),
    (b"differ", Verb::Two(NodeKind::NotEqual)),
    (b"bit_and", Verb::Two(NodeKind::BitwiseAnd)),
    (b"bit_xor", Verb::Two(NodeKind::BitwiseExclusiveOr)),
    (b"bit_or", Verb::Two(NodeKind::BitwiseOr)),
    (b"and", Verb::Two(NodeKind::LogicalAnd)),
    (b"or", Verb::Two(NodeKind::LogicalOr)),
    (b"elvis", Verb::Two(NodeKind::Conditional)),
    (b"cast", Verb::Two(NodeKind::Cast)),
    (b"comma", Verb::Two(NodeKind::Comma)),
    (b"expect", Verb::Two(NodeKind::BuiltinExpect)),
    (b"assign", Verb::Two(NodeKind::Assignment)),
    (b"choose", Verb::Three(NodeKind::Conditional)),
    (b"enumerator", Verb::Enumerator),
    (b"show", Verb::Show),
    (b"sums", Verb::Go(Chain::Sums)),
    (b"ands", Verb::Go(Chain::Ands)),
    (b"arms", Verb::Go(Chain::Arms)),
    (b"parentheses", Verb::Go(Chain::Parentheses)),
    (b"enumerators", Verb::Go(Chain::Enumerators)),
];

/// What a word does, and the number behind its last underscore, or 0.
pub fn verb_of(word: &[u8]) -> Option<(Verb, u64)> {
    if let Some(verb) = spelled(word) {
        return Some((verb, 0));
    }
    let (stem, number) = with_number(word)?;
    Some((spelled(stem)?, number))
}

fn spelled(word: &[u8]) -> Option<Verb> {
    for (text, verb) in VERBS {
        if word == text {
            return Some(verb);
        }
    }
    None
}
