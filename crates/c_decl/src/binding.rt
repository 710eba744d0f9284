// Names that are bound where their declarators end (C11 6.2.1 p7), unless their scope has declared them otherwise (6.7 p3).
// What was read arrives and leaves as it is, but that a scope has the name. Where the name is used isn't known here.
ghost use Rattle.std.specs.Prelude.{◌≡◌, IfErr, OnOk};
ghost use Rattle.vocabulary.specs.declared.action.Action.TheVariants.{BindEnumerator, BindParameter};
ghost use Rattle.meaning_derivation.specs.Values.{value_at};
ghost use Rattle.meaning_derivation.specs.State.{Goes};
ghost use Rattle.meaning_derivation.specs.Scoping.{bound_as, bound_behind, declared, declared_at};
ghost use Rattle.meaning_derivation.specs.Actions.{act};
ghost use Rattle.c_tokens.specs.Seen.{IsKnown, text_of};
ghost use Rattle.parse_state.specs.Seen.{state_of};
ghost use Rattle.parse_state.specs.Steps.{IsToldBy};
ghost use Rattle.parse_state.specs.Storage.{class_of};

use parse_state::{ActionFault, DeclaredName, ParseState, StorageClass};
use vocabulary::{Bound, ErrorKind};

/// The name of a declarator, as the specifiers so far below it say.
pub fn bind_declarator(state: &mut ParseState<'_>, specifiers: usize) -> Result<(), ActionFault>
    ensures goes { OnOk result (declared (state_of state.old) (value_at (state_of state.old).values 0) (bound_as (state_of state.old) (value_at (state_of state.old).values specifiers) (value_at (state_of state.old).values 0)) ≡ Goes (state_of state.new)) }
    ensures told { IfErr result (IsToldBy (declared (state_of state.old) (value_at (state_of state.old).values 0) (bound_as (state_of state.old) (value_at (state_of state.old).values specifiers) (value_at (state_of state.old).values 0)))) }
    ensures names { state.new.names ≡ state.old.names }
{
    let class = state.noted_class(specifiers);
    let kind = bound_behind(state, class);
    let declared = state.declared_name(0);
    declare(state, declared, kind)
}

/// An enumerator's name (6.7.2.2 p3).
pub fn bind_enumerator(state: &mut ParseState<'_>) -> Result<(), ActionFault>
    ensures goes { OnOk result (act BindEnumerator (state_of state.old) ≡ Goes (state_of state.new)) }
    ensures told { IfErr result (IsToldBy (act BindEnumerator (state_of state.old))) }
    ensures names { state.new.names ≡ state.old.names }
{
    let declared = state.declared_name(0);
    declare(state, declared, Bound::Enumerator)
}

/// A parameter's name, where it has one: it is an object of its own (6.2.2 p6).
pub fn bind_parameter(state: &mut ParseState<'_>) -> Result<(), ActionFault>
    ensures goes { OnOk result (act BindParameter (state_of state.old) ≡ Goes (state_of state.new)) }
    ensures told { IfErr result (IsToldBy (act BindParameter (state_of state.old))) }
    ensures names { state.new.names ≡ state.old.names }
{
    match state.first_name(0) {
        Some(declared) => declare(state, declared, Bound::Unlinked),
        None => Ok(()),
    }
}

// What the declarator on top is bound as behind specifiers of this class (6.2.2).
fn bound_behind(state: &ParseState<'_>, class: StorageClass) -> Bound
    ensures { result ≡ bound_behind (state_of state.now) (class_of class) (value_at (state_of state.now).values 0) }
{
    match class {
        StorageClass::Typedef => Bound::Typedef,
        StorageClass::Extern => Bound::Linked,
        StorageClass::Other => {
            if !state.is_open() || state.own_parameters(0).is_some() {
                Bound::Linked
            } else {
                Bound::Unlinked
            }
        }
    }
}

// A name stands for the node that was made last, which is the tree on top and holds what the name hides, unless its scope has declared
// it otherwise.
fn declare(
    state: &mut ParseState<'_>,
    declared: DeclaredName,
    kind: Bound,
) -> Result<(), ActionFault>
    requires known { IsKnown state.old.names declared.name }
    ensures goes { OnOk result (declared_at (state_of state.old) (text_of state.old.names declared.name) declared.token kind ≡ Goes (state_of state.new)) }
    ensures told { IfErr result (IsToldBy (declared_at (state_of state.old) (text_of state.old.names declared.name) declared.token kind)) }
    ensures names { state.new.names ≡ state.old.names }
{
    if state.redeclares(declared.name, kind) {
        return Err(ActionFault::Refused(ErrorKind::Redeclared, declared.token));
    }
    let hidden = state.hidden_number(declared.name);
    state.number_top(hidden);
    state.bind_last(declared.name, kind)?;
    Ok(())
}
