// Names in expressions (C11 6.5.1 p2), and the parts of a `for` (6.8.5.3). A name arrives, and a node with what declares it
// leaves, or that nothing does. Its type isn't known here.
ghost use Rattle.std.specs.Prelude.{◌≡◌, IfErr, IsSome, OnOk};
ghost use Rattle.vocabulary.specs.declared.action.Action.TheVariants.{MakeForPart, UseName};
ghost use Rattle.vocabulary.specs.declared.production_item.ProductionItem.TheVariants.{Do};
ghost use Rattle.meaning_grammar.specs.Sorts.{effect};
ghost use Rattle.meaning_derivation.specs.Values.{sorts_of};
ghost use Rattle.meaning_derivation.specs.State.{Goes};
ghost use Rattle.meaning_derivation.specs.Actions.{act};
ghost use Rattle.parse_state.specs.Seen.{state_of};
ghost use Rattle.parse_state.specs.Steps.{IsToldBy};

use parse_state::{ActionFault, ParseState, Place, Row, Shape, Source};
use vocabulary::{ErrorKind, NameSpace, NodeKind};

/// A name that is declared, with the handle of the declarator or enumerator that declares it.
pub fn use_name(state: &mut ParseState<'_>) -> Result<(), ActionFault>
    requires finds { IsSome (effect (Do UseName) (sorts_of (state_of state.old).values)) }
    ensures goes { OnOk result (act UseName (state_of state.old) ≡ Goes (state_of state.new)) }
    ensures told { IfErr result (IsToldBy (act UseName (state_of state.old))) }
    ensures names { state.new.names ≡ state.old.names }
{
    let token = state.token(0);
    match state.find(NameSpace::Ordinary, 0) {
        None => Err(ActionFault::Refused(ErrorKind::NotDeclared, token)),
        Some((declaration, _, _)) => state.make(&Shape {
            takes: 1,
            kind: NodeKind::Name,
            token,
            name: Some(0),
            number: u64::from(declaration),
            sources: &[],
        }),
    }
}

/// A part of a `for`, or what is left out at the word behind it (6.8.5.3).
pub fn make_for_part(state: &mut ParseState<'_>) -> Result<(), ActionFault>
    requires finds { IsSome (effect (Do MakeForPart) (sorts_of (state_of state.old).values)) }
    ensures goes { OnOk result (act MakeForPart (state_of state.old) ≡ Goes (state_of state.new)) }
    ensures told { IfErr result (IsToldBy (act MakeForPart (state_of state.old))) }
    ensures names { state.new.names ≡ state.old.names }
{
    if state.keep_only_tree(1)? {
        return Ok(());
    }
    state.make_row(&Row {
        takes: 2,
        kind: NodeKind::OmittedExpression,
        place: Place::AtWord(0),
        name: None,
        number: None,
        sources: &[Source::AllTrees(1)],
    })
}
