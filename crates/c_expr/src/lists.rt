// Lists that begin and grow, and the scopes of blocks. A value arrives, and a list that ends with it leaves. What stands in a
// list isn't known here.
ghost use Rattle.std.specs.Prelude.{◌≡◌, IfErr, IsSome, OnOk};
ghost use Rattle.vocabulary.specs.declared.action.Action.TheVariants.{Append, BeginAtNext, BeginList, CloseScope, CountParameter, OpenScope};
ghost use Rattle.vocabulary.specs.declared.production_item.ProductionItem.TheVariants.{Do};
ghost use Rattle.meaning_grammar.specs.Sorts.{effect};
ghost use Rattle.meaning_derivation.specs.Values.{sorts_of};
ghost use Rattle.meaning_derivation.specs.State.{Goes};
ghost use Rattle.meaning_derivation.specs.Actions.{act};
ghost use Rattle.parse_state.specs.Seen.{state_of};
ghost use Rattle.parse_state.specs.Steps.{IsToldBy};

use parse_state::{ActionFault, ParseState, Source};
use vocabulary::{LimitKind, Role};

// How many parameters or arguments a list may have.
const MOST_PARAMETERS: u32 = 255;

/// An empty list.
pub fn begin_list(state: &mut ParseState<'_>) -> Result<(), ActionFault>
    ensures goes { OnOk result (act BeginList (state_of state.old) ≡ Goes (state_of state.new)) }
    ensures told { IfErr result (IsToldBy (act BeginList (state_of state.old))) }
    ensures names { state.new.names ≡ state.old.names }
{
    state.push_list()?;
    Ok(())
}

/// The place of the next token, and an empty list.
pub fn begin_at_next(state: &mut ParseState<'_>) -> Result<(), ActionFault>
    ensures goes { OnOk result (act BeginAtNext (state_of state.old) ≡ Goes (state_of state.new)) }
    ensures told { IfErr result (IsToldBy (act BeginAtNext (state_of state.old))) }
    ensures names { state.new.names ≡ state.old.names }
{
    let token = state.next_token();
    state.push_place(token)?;
    state.push_list()?;
    Ok(())
}

/// A tree at the end of a list.
pub fn append(state: &mut ParseState<'_>, role: Role) -> Result<(), ActionFault>
    requires finds { IsSome (effect (Do (Append role)) (sorts_of (state_of state.old).values)) }
    ensures goes { OnOk result (act (Append role) (state_of state.old) ≡ Goes (state_of state.new)) }
    ensures told { IfErr result (IsToldBy (act (Append role) (state_of state.old))) }
    ensures names { state.new.names ≡ state.old.names }
{
    state.collect(2, &[Source::AllTrees(1), Source::OneTree(role, 0)])?;
    Ok(())
}

/// Notes the limit of parameters and arguments where a list is full.
pub fn count_parameter(state: &mut ParseState<'_>)
    ensures goes { act CountParameter (state_of state.old) ≡ Goes (state_of state.new) }
    ensures names { state.new.names ≡ state.old.names }
{
    if state.part_count(0) >= MOST_PARAMETERS {
        state.note_limit(LimitKind::Parameters);
    }
}

/// The scope of a block.
pub fn open_scope(state: &mut ParseState<'_>) -> Result<(), ActionFault>
    ensures goes { OnOk result (act OpenScope (state_of state.old) ≡ Goes (state_of state.new)) }
    ensures told { IfErr result (IsToldBy (act OpenScope (state_of state.old))) }
    ensures names { state.new.names ≡ state.old.names }
{
    state.enter_scope()?;
    Ok(())
}
