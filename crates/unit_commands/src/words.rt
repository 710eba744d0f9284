// How roles and kinds are spelled.
ghost use Rattle.std.specs.Prelude.{◌≡◌, ◌++◌, OnOk};
ghost use Rattle.unit_commands.specs.Words.{int_kind_name, kind_name, kind_text, role_text};

use std::alloc::AllocError;
use vocabulary::{IntKind, NodeKind};

/// What a part is, by its tag, and a space.
pub fn role_text(tag: u8) -> &'static [u8]
    ensures { result.now ≡ role_text tag }
{
    match tag {
        0 => b"evaluated ",
        1 => b"condition ",
        2 => b"type ",
        _ => b"unevaluated ",
    }
}

/// Appends a kind.
pub fn write_kind(text: &mut Vec<u8>, kind: NodeKind) -> Result<(), AllocError>
    ensures { OnOk result (text.new.items ≡ text.old.items ++ kind_text kind) }
{
    text.extend_from_slice(kind_name(kind))?;
    match kind {
        NodeKind::IntegerConstant(of) | NodeKind::CharacterConstant(of) => {
            text.push(b' ')?;
            text.extend_from_slice(int_kind_name(of))
        }
        _ => Ok(()),
    }
}

fn int_kind_name(kind: IntKind) -> &'static [u8]
    ensures { result.now ≡ int_kind_name kind }
{
    match kind {
        IntKind::Bool => b"Bool",
        IntKind::Char => b"Char",
        IntKind::SChar => b"SChar",
        IntKind::UChar => b"UChar",
        IntKind::Short => b"Short",
        IntKind::UShort => b"UShort",
        IntKind::Int => b"Int",
        IntKind::UInt => b"UInt",
        IntKind::Long => b"Long",
        IntKind::ULong => b"ULong",
        IntKind::LLong => b"LLong",
        IntKind::ULLong => b"ULLong",
    }
}

// The name of a kind, without that of its integers.
fn kind_name(kind: NodeKind) -> &'static [u8]
    ensures { result.now ≡ kind_name kind }
{
    match kind {
        NodeKind::TranslationUnit => b"TranslationUnit",
        NodeKind::EmptyDeclaration => b"EmptyDeclaration",
        NodeKind::StaticAssertion => b"StaticAssertion",
        NodeKind::Declaration => b"Declaration",
        NodeKind::FunctionDefinition => b"FunctionDefinition",
        NodeKind::LeadingAttributes => b"LeadingAttributes",
        NodeKind::Specifiers => b"Specifiers",
        NodeKind::TypedefSpecifier => b"TypedefSpecifier",
        NodeKind::ExternSpecifier => b"ExternSpecifier",
        NodeKind::StaticSpecifier => b"StaticSpecifier",
        NodeKind::AutoSpecifier => b"AutoSpecifier",
        NodeKind::RegisterSpecifier => b"RegisterSpecifier",
        NodeKind::InlineSpecifier => b"InlineSpecifier",
        NodeKind::NoreturnSpecifier => b"NoreturnSpecifier",
        NodeKind::ConstQualifier => b"ConstQualifier",
        NodeKind::VolatileQualifier => b"VolatileQualifier",
        NodeKind::RestrictQualifier => b"RestrictQualifier",
        NodeKind::VoidSpecifier => b"VoidSpecifier",
        NodeKind::CharSpecifier => b"CharSpecifier",
        NodeKind::ShortSpecifier => b"ShortSpecifier",
        NodeKind::IntSpecifier => b"IntSpecifier",
        NodeKind::LongSpecifier => b"LongSpecifier",
        NodeKind::SignedSpecifier => b"SignedSpecifier",
        NodeKind::UnsignedSpecifier => b"UnsignedSpecifier",
        NodeKind::BoolSpecifier => b"BoolSpecifier",
        NodeKind::TypedefName => b"TypedefName",
        NodeKind::StructSpecifier => b"StructSpecifier",
        NodeKind::UnionSpecifier => b"UnionSpecifier",
        NodeKind::EnumSpecifier => b"EnumSpecifier",
        NodeKind::TypeofType => b"TypeofType",
        NodeKind::TypeofExpression => b"TypeofExpression",
        NodeKind::MemberList => b"MemberList",
        NodeKind::MemberDeclaration => b"MemberDeclaration",
        NodeKind::BitFieldWidth => b"BitFieldWidth",
        NodeKind::Enumerator => b"Enumerator",
        NodeKind::Declarator => b"Declarator",
        NodeKind::PointerDeclarator => b"PointerDeclarator",
        NodeKind::ArrayDeclarator => b"ArrayDeclarator",
        NodeKind::FunctionDeclarator => b"FunctionDeclarator",
        NodeKind::ParenthesizedAttributes => b"ParenthesizedAttributes",
        NodeKind::Parameter => b"Parameter",
        NodeKind::Ellipsis => b"Ellipsis",
        NodeKind::TypeName => b"TypeName",
        NodeKind::AttributeList => b"AttributeList",
        NodeKind::NoderefAttribute => b"NoderefAttribute",
        NodeKind::AddressSpaceAttribute => b"AddressSpaceAttribute",
        NodeKind::BitwiseAttribute => b"BitwiseAttribute",
        NodeKind::ForceAttribute => b"ForceAttribute",
        NodeKind::PackedAttribute => b"PackedAttribute",
        NodeKind::AlignedAttribute => b"AlignedAttribute",
        NodeKind::NoreturnAttribute => b"NoreturnAttribute",
        NodeKind::ContextAttribute => b"ContextAttribute",
        NodeKind::Initializer => b"Initializer",
        NodeKind::BracedInitializer => b"BracedInitializer",
        NodeKind::InitializerItem => b"InitializerItem",
        NodeKind::MemberDesignator => b"MemberDesignator",
        NodeKind::IndexDesignator => b"IndexDesignator",
        NodeKind::CompoundStatement => b"CompoundStatement",
        NodeKind::LabelStatement => b"LabelStatement",
        NodeKind::CaseStatement => b"CaseStatement",
        NodeKind::DefaultStatement => b"DefaultStatement",
        NodeKind::ExpressionStatement => b"ExpressionStatement",
        NodeKind::AttributeStatement => b"AttributeStatement",
        NodeKind::IfStatement => b"IfStatement",
        NodeKind::SwitchStatement => b"SwitchStatement",
        NodeKind::WhileStatement => b"WhileStatement",
        NodeKind::DoStatement => b"DoStatement",
        NodeKind::ForStatement => b"ForStatement",
        NodeKind::OmittedExpression => b"OmittedExpression",
        NodeKind::GotoStatement => b"GotoStatement",
        NodeKind::ContinueStatement => b"ContinueStatement",
        NodeKind::BreakStatement => b"BreakStatement",
        NodeKind::ReturnStatement => b"ReturnStatement",
        NodeKind::ContextStatement => b"ContextStatement",
        NodeKind::Name => b"Name",
        NodeKind::IntegerConstant(_) => b"IntegerConstant",
        NodeKind::CharacterConstant(_) => b"CharacterConstant",
        NodeKind::StringLiteral => b"StringLiteral",
        NodeKind::StringPiece => b"StringPiece",
        NodeKind::Parenthesized => b"Parenthesized",
        NodeKind::StatementExpression => b"StatementExpression",
        NodeKind::Subscript => b"Subscript",
        NodeKind::Call => b"Call",
        NodeKind::Member => b"Member",
        NodeKind::PointerMember => b"PointerMember",
        NodeKind::PostIncrement => b"PostIncrement",
        NodeKind::PostDecrement => b"PostDecrement",
        NodeKind::CompoundLiteral => b"CompoundLiteral",
        NodeKind::BuiltinExpect => b"BuiltinExpect",
        NodeKind::BuiltinOffsetof => b"BuiltinOffsetof",
        NodeKind::PreIncrement => b"PreIncrement",
        NodeKind::PreDecrement => b"PreDecrement",
        NodeKind::Address => b"Address",
        NodeKind::Indirection => b"Indirection",
        NodeKind::UnaryPlus => b"UnaryPlus",
        NodeKind::Negation => b"Negation",
        NodeKind::Complement => b"Complement",
        NodeKind::LogicalNot => b"LogicalNot",
        NodeKind::SizeofExpression => b"SizeofExpression",
        NodeKind::SizeofType => b"SizeofType",
        NodeKind::AlignofType => b"AlignofType",
        NodeKind::Cast => b"Cast",
        NodeKind::Multiplication => b"Multiplication",
        NodeKind::Division => b"Division",
        NodeKind::Remainder => b"Remainder",
        NodeKind::Addition => b"Addition",
        NodeKind::Subtraction => b"Subtraction",
        NodeKind::LeftShift => b"LeftShift",
        NodeKind::RightShift => b"RightShift",
        NodeKind::Less => b"Less",
        NodeKind::Greater => b"Greater",
        NodeKind::LessOrEqual => b"LessOrEqual",
        NodeKind::GreaterOrEqual => b"GreaterOrEqual",
        NodeKind::Equal => b"Equal",
        NodeKind::NotEqual => b"NotEqual",
        NodeKind::BitwiseAnd => b"BitwiseAnd",
        NodeKind::BitwiseExclusiveOr => b"BitwiseExclusiveOr",
        NodeKind::BitwiseOr => b"BitwiseOr",
        NodeKind::LogicalAnd => b"LogicalAnd",
        NodeKind::LogicalOr => b"LogicalOr",
        NodeKind::Conditional => b"Conditional",
        NodeKind::Assignment => b"Assignment",
        NodeKind::MultiplicationAssignment => b"MultiplicationAssignment",
        NodeKind::DivisionAssignment => b"DivisionAssignment",
        NodeKind::RemainderAssignment => b"RemainderAssignment",
        NodeKind::AdditionAssignment => b"AdditionAssignment",
        NodeKind::SubtractionAssignment => b"SubtractionAssignment",
        NodeKind::LeftShiftAssignment => b"LeftShiftAssignment",
        NodeKind::RightShiftAssignment => b"RightShiftAssignment",
        NodeKind::BitwiseAndAssignment => b"BitwiseAndAssignment",
        NodeKind::BitwiseExclusiveOrAssignment => b"BitwiseExclusiveOrAssignment",
        NodeKind::BitwiseOrAssignment => b"BitwiseOrAssignment",
        NodeKind::Comma => b"Comma",
    }
}
