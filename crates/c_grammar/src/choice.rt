// The choice of a row: a symbol and the classes of the next two tokens arrive, and the items of a row leave, or none. What was
// read isn't known here.
ghost use Rattle.std.specs.Prelude.{◌≡◌, ◌≤◌, IfSome, length, option_map};
ghost use Rattle.meaning_grammar.specs.Choice.{choice};
ghost use Rattle.meaning_grammar.specs.Sorts.{KeepsSorts};
ghost use Rattle.meaning_grammar.specs.Weights.{Falls};
ghost use Rattle.c_grammar.specs.Seen.{behind_of, next_of};

mod binary;
mod declarations;
mod declarators;
mod expressions;
mod initializers;
mod members;
mod operands;
mod specifiers;
mod statements;
mod types;

use vocabulary::{ProductionItem, Symbol, TokenClass};

// The row of a symbol that is taken before tokens of these two classes.
fn choose_between(
    symbol: Symbol,
    next: TokenClass,
    behind: TokenClass,
) -> Option<&'static [ProductionItem]>
    ensures { choice symbol next behind ≡ option_map (λ items. items.now) result }
{
    match symbol {
        Symbol::ExternalDeclarations => declarations::choose_external_declarations(next),
        Symbol::ExternalDeclaration => declarations::choose_external_declaration(next),
        Symbol::ExternalDeclarators => declarations::choose_external_declarators(next),
        Symbol::BodyOrDeclarators => declarations::choose_body_or_declarators(next),
        Symbol::OptionalInitializer => declarations::choose_optional_initializer(next),
        Symbol::FurtherDeclarators => declarations::choose_further_declarators(next),
        Symbol::Specifiers => specifiers::choose_specifiers(next),
        Symbol::SpecifiersBehindType => specifiers::choose_specifiers_behind_type(next),
        Symbol::StorageClassSpecifier => specifiers::choose_storage_class_specifier(next),
        Symbol::TypeQualifier => specifiers::choose_type_qualifier(next),
        Symbol::TypeWord => specifiers::choose_type_word(next),
        Symbol::StructOrUnionSpecifier => specifiers::choose_struct_or_union_specifier(next),
        Symbol::TagOrMembers => specifiers::choose_tag_or_members(next),
        Symbol::MembersBehindTag => specifiers::choose_members_behind_tag(next),
        Symbol::MemberDeclarations => members::choose_member_declarations(next),
        Symbol::MemberDeclaration => members::choose_member_declaration(next),
        Symbol::MemberDeclarators => members::choose_member_declarators(next),
        Symbol::FurtherMemberDeclarators => members::choose_further_member_declarators(next),
        Symbol::MemberDeclarator => members::choose_member_declarator(next),
        Symbol::OptionalWidth => members::choose_optional_width(next),
        Symbol::EnumSpecifier => members::choose_enum_specifier(next),
        Symbol::TagOrEnumerators => members::choose_tag_or_enumerators(next),
        Symbol::EnumeratorsBehindTag => members::choose_enumerators_behind_tag(next),
        Symbol::Enumerator => members::choose_enumerator(next),
        Symbol::OptionalEnumeratorValue => members::choose_optional_enumerator_value(next),
        Symbol::FurtherEnumerators => members::choose_further_enumerators(next),
        Symbol::EnumeratorsBehindComma => members::choose_enumerators_behind_comma(next),
        Symbol::AttributeLists => types::choose_attribute_lists(next),
        Symbol::AttributeList => types::choose_attribute_list(next),
        Symbol::FurtherAttributes => types::choose_further_attributes(next),
        Symbol::Attribute => types::choose_attribute(next),
        Symbol::AttributeArguments => types::choose_attribute_arguments(next),
        Symbol::BalancedTokens => types::choose_balanced_tokens(next),
        Symbol::TypeofSpecifier => types::choose_typeof_specifier(next),
        Symbol::TypeofOperand => types::choose_typeof_operand(next),
        Symbol::TypeName => types::choose_type_name(next),
        Symbol::Declarator => declarators::choose_declarator(next),
        Symbol::Pointers => declarators::choose_pointers(next),
        Symbol::PointerQualifiers => declarators::choose_pointer_qualifiers(next),
        Symbol::DirectDeclarator => declarators::choose_direct_declarator(next),
        Symbol::DeclaratorSuffixes => declarators::choose_declarator_suffixes(next),
        Symbol::ArraySize => declarators::choose_array_size(next),
        Symbol::Parameters => declarators::choose_parameters(next),
        Symbol::FurtherParameters => declarators::choose_further_parameters(next),
        Symbol::ParameterOrEllipsis => declarators::choose_parameter_or_ellipsis(next),
        Symbol::Parameter => declarators::choose_parameter(next),
        Symbol::AnyDeclarator => declarators::choose_any_declarator(next),
        Symbol::AnyDirectDeclarator => declarators::choose_any_direct_declarator(next, behind),
        Symbol::Initializer => initializers::choose_initializer(next),
        Symbol::InitializerItems => initializers::choose_initializer_items(next),
        Symbol::FurtherInitializerItems => initializers::choose_further_initializer_items(next),
        Symbol::InitializerItem => initializers::choose_initializer_item(next),
        Symbol::Designator => initializers::choose_designator(next),
        Symbol::FurtherDesignators => initializers::choose_further_designators(next),
        Symbol::StaticAssertion => initializers::choose_static_assertion(next),
        Symbol::CompoundStatement => statements::choose_compound_statement(next),
        Symbol::BlockItems => statements::choose_block_items(next),
        Symbol::BlockItem => statements::choose_block_item(next, behind),
        Symbol::Declaration => statements::choose_declaration(next),
        Symbol::Declarators => statements::choose_declarators(next),
        Symbol::Statement => statements::choose_statement(next, behind),
        Symbol::OptionalElse => statements::choose_optional_else(next),
        Symbol::ForInitialization => statements::choose_for_initialization(next),
        Symbol::OptionalExpression => statements::choose_optional_expression(next),
        Symbol::Expression => expressions::choose_expression(next),
        Symbol::CommaTail => expressions::choose_comma_tail(next),
        Symbol::AssignmentExpression => expressions::choose_assignment_expression(next),
        Symbol::AssignmentTail => expressions::choose_assignment_tail(next),
        Symbol::ConditionalExpression => expressions::choose_conditional_expression(next),
        Symbol::ConditionalTail => expressions::choose_conditional_tail(next),
        Symbol::MiddleOperand => expressions::choose_middle_operand(next),
        Symbol::LogicalOrExpression => binary::choose_logical_or_expression(next),
        Symbol::LogicalOrTail => binary::choose_logical_or_tail(next),
        Symbol::LogicalAndExpression => binary::choose_logical_and_expression(next),
        Symbol::LogicalAndTail => binary::choose_logical_and_tail(next),
        Symbol::InclusiveOrExpression => binary::choose_inclusive_or_expression(next),
        Symbol::InclusiveOrTail => binary::choose_inclusive_or_tail(next),
        Symbol::ExclusiveOrExpression => binary::choose_exclusive_or_expression(next),
        Symbol::ExclusiveOrTail => binary::choose_exclusive_or_tail(next),
        Symbol::AndExpression => binary::choose_and_expression(next),
        Symbol::AndTail => binary::choose_and_tail(next),
        Symbol::EqualityExpression => binary::choose_equality_expression(next),
        Symbol::EqualityTail => binary::choose_equality_tail(next),
        Symbol::RelationalExpression => binary::choose_relational_expression(next),
        Symbol::RelationalTail => binary::choose_relational_tail(next),
        Symbol::ShiftExpression => binary::choose_shift_expression(next),
        Symbol::ShiftTail => binary::choose_shift_tail(next),
        Symbol::AdditiveExpression => binary::choose_additive_expression(next),
        Symbol::AdditiveTail => binary::choose_additive_tail(next),
        Symbol::MultiplicativeExpression => binary::choose_multiplicative_expression(next),
        Symbol::MultiplicativeTail => binary::choose_multiplicative_tail(next),
        Symbol::CastExpression => operands::choose_cast_expression(next, behind),
        Symbol::CastOperand => operands::choose_cast_operand(next),
        Symbol::BracedInitializer => operands::choose_braced_initializer(next),
        Symbol::UnaryExpression => operands::choose_unary_expression(next),
        Symbol::SizeofOperand => operands::choose_sizeof_operand(next, behind),
        Symbol::SizeofTypeEnd => operands::choose_sizeof_type_end(next),
        Symbol::PostfixTail => operands::choose_postfix_tail(next),
        Symbol::Arguments => operands::choose_arguments(next),
        Symbol::FurtherArguments => operands::choose_further_arguments(next),
        Symbol::PrimaryExpression => operands::choose_primary_expression(next),
        Symbol::OffsetofDesignators => operands::choose_offsetof_designators(next),
        Symbol::ParenthesizedExpression => operands::choose_parenthesized_expression(next),
        Symbol::StringLiterals => operands::choose_string_literals(next),
        Symbol::FurtherStringLiterals => operands::choose_further_string_literals(next),
    }
}

/// The items of the row that is taken for a symbol, by the classes of the token that comes next and of the one behind it.
///
/// None where the symbol has no row for them, so that nothing goes on there. It takes no memory.
pub fn choose(symbol: Symbol, look: [TokenClass; 2]) -> Option<&'static [ProductionItem]>
    ensures chosen { choice symbol (next_of look) (behind_of look) ≡ option_map (λ items. items.now) result }
    // What the items do in place of the symbol: its weight falls, its values are of the sorts that it says, and they are few.
    ensures falls { IfSome result (λ items. Falls symbol items.now) }
    ensures sorted { IfSome result (λ items. KeepsSorts symbol items.now) }
    ensures short { IfSome result (λ items. length items.now ≤ 15) }
{
    choose_between(symbol, look[0], look[1])
}
