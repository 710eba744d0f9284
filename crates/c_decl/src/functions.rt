// Functions and their bodies (C11 6.9.1), and declarators in a row (6.7). Specifiers and a declarator arrive; a list of
// declarators leaves, and the scope of a body is open. What stands in the body isn't known here.
ghost use Rattle.std.specs.Prelude.{◌≡◌, IfErr, IsSome, OnOk};
ghost use Rattle.vocabulary.specs.declared.action.Action.TheVariants.{AppendDeclarator, AwaitBody, BeginDeclarators, CloseParameters, NoteFunctionDeclarator, OpenBody};
ghost use Rattle.vocabulary.specs.declared.production_item.ProductionItem.TheVariants.{Do};
ghost use Rattle.meaning_grammar.specs.Sorts.{effect};
ghost use Rattle.meaning_derivation.specs.Values.{sorts_of, value_at};
ghost use Rattle.meaning_derivation.specs.State.{Goes};
ghost use Rattle.meaning_derivation.specs.Scoping.{takes_no_body};
ghost use Rattle.meaning_derivation.specs.Actions.{act};
ghost use Rattle.parse_state.specs.Seen.{state_of};
ghost use Rattle.parse_state.specs.Steps.{IsToldBy};
ghost use Rattle.parse_state.specs.Storage.{class_of};

use parse_state::{ActionFault, ParseState, Source, StorageClass};
use vocabulary::{ErrorKind, Role};

/// The list of declarators, with the first one and its attributes in it.
pub fn begin_declarators(state: &mut ParseState<'_>) -> Result<(), ActionFault>
    requires finds { IsSome (effect (Do BeginDeclarators) (sorts_of (state_of state.old).values)) }
    ensures goes { OnOk result (act BeginDeclarators (state_of state.old) ≡ Goes (state_of state.new)) }
    ensures told { IfErr result (IsToldBy (act BeginDeclarators (state_of state.old))) }
    ensures names { state.new.names ≡ state.old.names }
{
    state.collect(
        2,
        &[Source::OneTree(Role::Evaluated, 1), Source::AllTrees(0)],
    )?;
    Ok(())
}

/// A further declarator and its attributes at the end of that list.
pub fn append_declarator(state: &mut ParseState<'_>) -> Result<(), ActionFault>
    requires finds { IsSome (effect (Do AppendDeclarator) (sorts_of (state_of state.old).values)) }
    ensures goes { OnOk result (act AppendDeclarator (state_of state.old) ≡ Goes (state_of state.new)) }
    ensures told { IfErr result (IsToldBy (act AppendDeclarator (state_of state.old))) }
    ensures names { state.new.names ≡ state.old.names }
{
    state.collect(
        3,
        &[
            Source::AllTrees(2),
            Source::OneTree(Role::Evaluated, 1),
            Source::AllTrees(0),
        ],
    )?;
    Ok(())
}

/// Behind a function's declarator in a body no body follows.
pub fn note_function_declarator(state: &mut ParseState<'_>)
    ensures goes { act NoteFunctionDeclarator (state_of state.old) ≡ Goes (state_of state.new) }
    ensures names { state.new.names ≡ state.old.names }
{
    if state.is_open() && state.own_parameters(1).is_some() {
        state.note_function_end();
    }
}

/// Behind a function's declarator the body comes next; behind another one, or a type's name, it is refused at its brace.
pub fn await_body(state: &mut ParseState<'_>)
    ensures goes { act AwaitBody (state_of state.old) ≡ Goes (state_of state.new) }
    ensures names { state.new.names ≡ state.old.names }
{
    let is_bad = takes_no_body(state, state.noted_class(2));
    let brace = state.next_token();
    state.await_body();
    state.hold_where(is_bad, ErrorKind::BadDeclaration, brace);
}

// Whether the declarator below its attributes, behind specifiers of this class, has no body (6.9.1 p2).
fn takes_no_body(state: &ParseState<'_>, class: StorageClass) -> bool
    ensures { result ≡ takes_no_body (class_of class) (value_at (state_of state.now).values 1) }
{
    match class {
        StorageClass::Typedef => true,
        _ => state.own_parameters(1).is_none(),
    }
}

/// The end of a parameter list.
pub fn close_parameters(state: &mut ParseState<'_>) -> Result<(), ActionFault>
    ensures goes { OnOk result (act CloseParameters (state_of state.old) ≡ Goes (state_of state.new)) }
    ensures told { IfErr result (IsToldBy (act CloseParameters (state_of state.old))) }
    ensures names { state.new.names ≡ state.old.names }
{
    let token = state.token(1);
    state.close_parameters(token)?;
    Ok(())
}

/// The beginning of a body.
pub fn open_body(state: &mut ParseState<'_>) -> Result<(), ActionFault>
    ensures goes { OnOk result (act OpenBody (state_of state.old) ≡ Goes (state_of state.new)) }
    ensures told { IfErr result (IsToldBy (act OpenBody (state_of state.old))) }
    ensures names { state.new.names ≡ state.old.names }
{
    state.open_body()?;
    Ok(())
}
