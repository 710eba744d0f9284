// What comes of each action, in the order of the grammar: an action arrives with what was read so far, which leaves as the
// action makes it, or else why it is refused. Which row the action stands in isn't known here.
ghost use Rattle.std.specs.Prelude.{◌≡◌, false, IfErr, IsSome, OnOk};
ghost use Rattle.vocabulary.specs.declared.production_item.ProductionItem.TheVariants.{Do};
ghost use Rattle.meaning_grammar.specs.Sorts.{effect};
ghost use Rattle.meaning_derivation.specs.Values.{sorts_of};
ghost use Rattle.meaning_derivation.specs.State.{Goes};
ghost use Rattle.meaning_derivation.specs.Actions.{act as outcome_of};
ghost use Rattle.parse_state.specs.Groups.{is_expression_action};
ghost use Rattle.parse_state.specs.Seen.{state_of};
ghost use Rattle.parse_state.specs.Steps.{IsToldBy};

use crate::attributes::{
    append_attribute, append_leading_attributes, make_attribute_list, make_parenthesized_attributes,
};
use crate::binding::{bind_declarator, bind_enumerator, bind_parameter};
use crate::declarators::{
    join_any_parts, join_parts, join_suffixes, make_optional_declarator, make_type_name,
};
use crate::functions::{
    append_declarator, await_body, begin_declarators, close_parameters, note_function_declarator,
    open_body,
};
use crate::names::{use_typedef_name, without_tag};
use crate::nodes::make_node;
use crate::specifiers::{
    make_block_specifiers, make_file_specifiers, make_member_specifiers, make_parameter_specifiers,
    make_type_name_specifiers, require_type, require_type_or_attributes,
};
use crate::tags::{declare_tag, define_tag, use_tag};
use parse_state::{ActionFault, ParseState};
use vocabulary::Action;

/// Does what an action says, on values of the sorts that it takes. Where memory runs out nothing is said of what is left.
pub fn act(state: &mut ParseState<'_>, action: Action) -> Result<(), ActionFault>
    requires finds { IsSome (effect (Do action) (sorts_of (state_of state.old).values)) }
    requires own { is_expression_action action ≡ false }
    ensures goes { OnOk result (outcome_of action (state_of state.old) ≡ Goes (state_of state.new)) }
    ensures told { IfErr result (IsToldBy (outcome_of action (state_of state.old))) }
    ensures names { state.new.names ≡ state.old.names }
{
    match action {
        Action::BeginDeclarators => begin_declarators(state),
        Action::AppendDeclarator => append_declarator(state),
        Action::AppendLeadingAttributes => append_leading_attributes(state),
        Action::BindDeclarator => bind_declarator(state, 1),
        Action::BindFurtherDeclarator => bind_declarator(state, 2),
        Action::NoteFunctionDeclarator => {
            note_function_declarator(state);
            Ok(())
        }
        Action::AwaitBody => {
            await_body(state);
            Ok(())
        }
        Action::MakeFileSpecifiers => make_file_specifiers(state),
        Action::MakeBlockSpecifiers => make_block_specifiers(state),
        Action::MakeMemberSpecifiers => make_member_specifiers(state),
        Action::MakeParameterSpecifiers => make_parameter_specifiers(state),
        Action::MakeTypeNameSpecifiers => make_type_name_specifiers(state),
        Action::RequireType => {
            require_type(state);
            Ok(())
        }
        Action::RequireTypeOrAttributes => {
            require_type_or_attributes(state);
            Ok(())
        }
        Action::DeclareTag => declare_tag(state),
        Action::UseTypedefName => use_typedef_name(state),
        Action::DefineTag => define_tag(state),
        Action::UseTag => use_tag(state),
        Action::WithoutTag => without_tag(state),
        Action::BindEnumerator => bind_enumerator(state),
        Action::MakeAttributeList => make_attribute_list(state),
        Action::AppendAttribute => append_attribute(state),
        Action::JoinParts => join_parts(state),
        Action::JoinAnyParts => join_any_parts(state),
        Action::JoinSuffixes => join_suffixes(state),
        Action::MakeParenthesizedAttributes => make_parenthesized_attributes(state),
        Action::MakeOptionalDeclarator => make_optional_declarator(state),
        Action::MakeTypeName => make_type_name(state),
        Action::BindParameter => bind_parameter(state),
        Action::CloseParameters => close_parameters(state),
        Action::OpenBody => open_body(state),
        _ => make_node(state, action),
    }
}
