// Context statements, each with its change: the tokens between their parentheses arrive, and a node leaves, or why there is no
// change. Whose context it is isn't known here.
ghost use Rattle.std.specs.Prelude.{◌≡◌, IfErr, IsSome, OnOk};
ghost use Rattle.vocabulary.specs.declared.action.Action.TheVariants.{MakeContextStatement};
ghost use Rattle.vocabulary.specs.declared.production_item.ProductionItem.TheVariants.{Do};
ghost use Rattle.meaning_grammar.specs.Sorts.{effect};
ghost use Rattle.meaning_derivation.specs.Values.{sorts_of};
ghost use Rattle.meaning_derivation.specs.State.{Goes};
ghost use Rattle.meaning_derivation.specs.Contexts.{change_bits};
ghost use Rattle.meaning_derivation.specs.Actions.{act};
ghost use Rattle.parse_state.specs.Seen.{state_of};
ghost use Rattle.parse_state.specs.Steps.{IsToldBy};

use c_attrs::{ChangeFault, context_change, in_parentheses};
use parse_state::{ActionFault, ParseState, Shape};
use vocabulary::{ErrorKind, LimitKind, NodeKind};

/// A context statement, whose number is its change modulo 2^64. What is none is told at its word, and so is a change beyond
/// the limit of a step.
pub fn make_context_statement(state: &mut ParseState<'_>) -> Result<(), ActionFault>
    requires finds { IsSome (effect (Do MakeContextStatement) (sorts_of (state_of state.old).values)) }
    ensures goes { OnOk result (act MakeContextStatement (state_of state.old) ≡ Goes (state_of state.new)) }
    ensures told { IfErr result (IsToldBy (act MakeContextStatement (state_of state.old))) }
    ensures names { state.new.names ≡ state.old.names }
{
    let token = state.token(0);
    let change = match context_change(state.names(), in_parentheses(state.tokens_behind(0))) {
        Ok(change) => change,
        Err(ChangeFault::Bad) => return Err(ActionFault::Refused(ErrorKind::BadAttribute, token)),
        Err(ChangeFault::StepLimit) => return Err(ActionFault::Limit(
            LimitKind::ContextStep,
            token,
        )),
    };
    state.make(&Shape {
        takes: 1,
        kind: NodeKind::ContextStatement,
        token,
        name: None,
        number: change_bits(change),
        sources: &[],
    })
}

// A change as the number of a node.
fn change_bits(change: i64) -> u64
    ensures { result ≡ change_bits change }
{
    i128::from(change).rem_euclid(18446744073709551616) as u64
}
