// What the actions do with what was read: an action arrives with it, and it leaves as the action makes it, or else why it is
// refused. What each does is known in one of two crates, and not here.
ghost use Rattle.std.specs.Prelude.{◌≡◌, IfErr, IsSome, OnOk};
ghost use Rattle.vocabulary.specs.declared.production_item.ProductionItem.TheVariants.{Do};
ghost use Rattle.meaning_grammar.specs.Sorts.{effect};
ghost use Rattle.meaning_derivation.specs.Values.{sorts_of};
ghost use Rattle.meaning_derivation.specs.State.{Goes};
ghost use Rattle.meaning_derivation.specs.Actions.{act as outcome_of};
ghost use Rattle.parse_state.specs.Seen.{state_of};
ghost use Rattle.parse_state.specs.Steps.{IsToldBy};

use c_expr::is_expression_action;
use parse_state::{ActionFault, ParseState};
use vocabulary::Action;

/// Does what an action says, on values of the sorts that it takes.
pub(crate) fn act(state: &mut ParseState<'_>, action: Action) -> Result<(), ActionFault>
    requires finds { IsSome (effect (Do action) (sorts_of (state_of state.old).values)) }
    ensures goes { OnOk result (outcome_of action (state_of state.old) ≡ Goes (state_of state.new)) }
    ensures told { IfErr result (IsToldBy (outcome_of action (state_of state.old))) }
    ensures names { state.new.names ≡ state.old.names }
{
    if is_expression_action(action) {
        c_expr::act(state, action)
    } else {
        c_decl::act(state, action)
    }
}
