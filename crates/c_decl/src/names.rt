// Names of types (C11 6.7.8), and specifiers without a tag (6.7.2.1). A word arrives, and a node with what declares it leaves,
// or a value without a name. Which type it is isn't known here.
ghost use Rattle.std.specs.Prelude.{◌≡◌, IfErr, IsSome, OnOk};
ghost use Rattle.vocabulary.specs.declared.action.Action.TheVariants.{UseTypedefName, WithoutTag};
ghost use Rattle.vocabulary.specs.declared.production_item.ProductionItem.TheVariants.{Do};
ghost use Rattle.meaning_grammar.specs.Sorts.{effect};
ghost use Rattle.meaning_derivation.specs.Values.{sorts_of};
ghost use Rattle.meaning_derivation.specs.State.{Goes};
ghost use Rattle.meaning_derivation.specs.Actions.{act};
ghost use Rattle.parse_state.specs.Seen.{state_of};
ghost use Rattle.parse_state.specs.Steps.{IsToldBy};

use parse_state::{ActionFault, ParseState, Shape};
use vocabulary::{ErrorKind, NameSpace, NodeKind};

/// The name of a type, with the handle of the declarator that declares it.
pub fn use_typedef_name(state: &mut ParseState<'_>) -> Result<(), ActionFault>
    requires finds { IsSome (effect (Do UseTypedefName) (sorts_of (state_of state.old).values)) }
    ensures goes { OnOk result (act UseTypedefName (state_of state.old) ≡ Goes (state_of state.new)) }
    ensures told { IfErr result (IsToldBy (act UseTypedefName (state_of state.old))) }
    ensures names { state.new.names ≡ state.old.names }
{
    let token = state.token(0);
    match state.find(NameSpace::Ordinary, 0) {
        None => Err(ActionFault::Refused(ErrorKind::NotDeclared, token)),
        Some((declaration, _, _)) => state.make(&Shape {
            takes: 1,
            kind: NodeKind::TypedefName,
            token,
            name: Some(0),
            number: u64::from(declaration),
            sources: &[],
        }),
    }
}

/// No tag, and the keyword of the specifier itself.
pub fn without_tag(state: &mut ParseState<'_>) -> Result<(), ActionFault>
    ensures goes { OnOk result (act WithoutTag (state_of state.old) ≡ Goes (state_of state.new)) }
    ensures told { IfErr result (IsToldBy (act WithoutTag (state_of state.old))) }
    ensures names { state.new.names ≡ state.old.names }
{
    let keyword = state.token(1);
    state.push_place(keyword)?;
    state.push_place(keyword)?;
    Ok(())
}
