// What comes of each action, in the order of the grammar: an action arrives with what was read so far, which leaves as the
// action makes it, or else why it is refused. Which row the action stands in isn't known here.
ghost use Rattle.std.specs.Prelude.{◌≡◌, true, IfErr, IsSome, OnOk};
ghost use Rattle.vocabulary.specs.declared.production_item.ProductionItem.TheVariants.{Do};
ghost use Rattle.meaning_grammar.specs.Sorts.{effect};
ghost use Rattle.meaning_derivation.specs.Values.{sorts_of};
ghost use Rattle.meaning_derivation.specs.State.{Goes};
ghost use Rattle.meaning_derivation.specs.Actions.{act as outcome_of};
ghost use Rattle.parse_state.specs.Groups.{is_expression_action as is_of_expressions};
ghost use Rattle.parse_state.specs.Seen.{state_of};
ghost use Rattle.parse_state.specs.Steps.{IsToldBy};

use crate::contexts::make_context_statement;
use crate::lists::{append, begin_at_next, begin_list, count_parameter, open_scope};
use crate::literals::{make_character_constant, make_integer_constant, make_string_literal};
use crate::names::{make_for_part, use_name};
use crate::nodes::make_node;
use parse_state::{ActionFault, ParseState};
use vocabulary::Action;

/// Whether this crate does what the action says; `c_decl` does each other one.
pub fn is_expression_action(action: Action) -> bool
    ensures { result ≡ is_of_expressions action }
{
    match action {
        Action::BeginList => true,
        Action::BeginAtNext => true,
        Action::Append(_) => true,
        Action::MakeLeaf(_) => true,
        Action::MakeNamed(_) => true,
        Action::MakeOver(_, _) => true,
        Action::MakeOverTwo(_, _, _) => true,
        Action::MakeOverList(_) => true,
        Action::MakeBinary(_, _) => true,
        Action::MakePostfix(_) => true,
        Action::MakeMember(_) => true,
        Action::CountParameter => true,
        Action::OpenScope => true,
        Action::CloseScope => true,
        Action::MakeInitializerItem => true,
        Action::MakeCompoundStatement => true,
        Action::MakeLabelStatement => true,
        Action::MakeIfStatement => true,
        Action::MakeDoStatement => true,
        Action::MakeForPart => true,
        Action::MakeForStatement => true,
        Action::MakeContextStatement => true,
        Action::MakeConditional => true,
        Action::MakeSizeofType => true,
        Action::MakeCall => true,
        Action::UseName => true,
        Action::MakeIntegerConstant => true,
        Action::MakeCharacterConstant => true,
        Action::MakeStringPiece => true,
        Action::MakeStringLiteral => true,
        Action::MakeBuiltinOffsetof => true,
        _ => false,
    }
}

/// Does what an action says, on values of the sorts that it takes. Where memory runs out nothing is said of what is left.
pub fn act(state: &mut ParseState<'_>, action: Action) -> Result<(), ActionFault>
    requires finds { IsSome (effect (Do action) (sorts_of (state_of state.old).values)) }
    requires own { is_of_expressions action ≡ true }
    ensures goes { OnOk result (outcome_of action (state_of state.old) ≡ Goes (state_of state.new)) }
    ensures told { IfErr result (IsToldBy (outcome_of action (state_of state.old))) }
    ensures names { state.new.names ≡ state.old.names }
{
    match action {
        Action::BeginList => begin_list(state),
        Action::BeginAtNext => begin_at_next(state),
        Action::Append(role) => append(state, role),
        Action::CountParameter => {
            count_parameter(state);
            Ok(())
        }
        Action::OpenScope => open_scope(state),
        Action::CloseScope => {
            state.leave_scope();
            Ok(())
        }
        Action::UseName => use_name(state),
        Action::MakeIntegerConstant => make_integer_constant(state),
        Action::MakeCharacterConstant => make_character_constant(state),
        Action::MakeForPart => make_for_part(state),
        Action::MakeContextStatement => make_context_statement(state),
        Action::MakeStringLiteral => make_string_literal(state),
        _ => make_node(state, action),
    }
}
