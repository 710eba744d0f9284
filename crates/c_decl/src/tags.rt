// Tags (C11 6.7.2.3), each with the keyword that first names it in its scope: a keyword and a name arrive, and the token of
// that first keyword leaves. What stands between the braces isn't known here.
ghost use Rattle.std.specs.Prelude.{◌≡◌, IfErr, OnOk};
ghost use Rattle.vocabulary.specs.declared.action.Action.TheVariants.{DeclareTag, DefineTag, UseTag};
ghost use Rattle.vocabulary.specs.declared.scope.NameSpace.TheVariants.{Tags};
ghost use Rattle.vocabulary.specs.declared.scope.Bound.TheVariants.{Tag};
ghost use Rattle.meaning_derivation.specs.Values.{text_of, value_at};
ghost use Rattle.meaning_derivation.specs.State.{Goes};
ghost use Rattle.meaning_derivation.specs.Scoping.{bound, with_first_keyword};
ghost use Rattle.meaning_derivation.specs.Actions.{act};
ghost use Rattle.parse_state.specs.Seen.{state_of};
ghost use Rattle.parse_state.specs.Steps.{IsToldBy};
ghost use Rattle.parse_state.specs.declared.fault.ActionFault.TheVariants.{Memory};

use parse_state::{ActionFault, ParseState};
use vocabulary::{Bound, NameSpace};

/// A tag with a body: the innermost scope has it from here on.
pub fn define_tag(state: &mut ParseState<'_>) -> Result<(), ActionFault>
    ensures goes { OnOk result (act DefineTag (state_of state.old) ≡ Goes (state_of state.new)) }
    ensures told { IfErr result (IsToldBy (act DefineTag (state_of state.old))) }
    ensures names { state.new.names ≡ state.old.names }
{
    let keyword = state.token(2);
    match state.find(NameSpace::Tags, 0) {
        Some((first, _, true)) => put_keyword(state, first),
        _ => bind_tag(state, keyword),
    }
}

/// A tag without a body: some scope has it from here on.
pub fn use_tag(state: &mut ParseState<'_>) -> Result<(), ActionFault>
    ensures goes { OnOk result (act UseTag (state_of state.old) ≡ Goes (state_of state.new)) }
    ensures told { IfErr result (IsToldBy (act UseTag (state_of state.old))) }
    ensures names { state.new.names ≡ state.old.names }
{
    let keyword = state.token(2);
    match state.find(NameSpace::Tags, 0) {
        Some((first, _, _)) => put_keyword(state, first),
        None => bind_tag(state, keyword),
    }
}

/// A structure's or a union's tag that is a declaration on its own: the innermost scope has it from its own keyword on.
pub fn declare_tag(state: &mut ParseState<'_>) -> Result<(), ActionFault>
    ensures goes { OnOk result (act DeclareTag (state_of state.old) ≡ Goes (state_of state.new)) }
    ensures told { IfErr result (IsToldBy (act DeclareTag (state_of state.old))) }
    ensures names { state.new.names ≡ state.old.names }
{
    state.declare_tag()?;
    Ok(())
}

// The keyword that first names the tag.
fn put_keyword(state: &mut ParseState<'_>, keyword: u32) -> Result<(), ActionFault>
    ensures goes { OnOk result (state_of state.new ≡ with_first_keyword (state_of state.old) keyword) }
    ensures told { IfErr result (λ fault. fault ≡ Memory) }
    ensures names { state.new.names ≡ state.old.names }
{
    state.push_place(keyword)?;
    Ok(())
}

// The tag is bound, and this is the keyword that first names it.
fn bind_tag(state: &mut ParseState<'_>, keyword: u32) -> Result<(), ActionFault>
    ensures goes { OnOk result (state_of state.new ≡ with_first_keyword (bound (state_of state.old) Tags (text_of (value_at (state_of state.old).values 0)) keyword Tag) keyword) }
    ensures told { IfErr result (λ fault. fault ≡ Memory) }
    ensures names { state.new.names ≡ state.old.names }
{
    state.bind(NameSpace::Tags, 0, keyword, Bound::Tag)?;
    state.push_place(keyword)?;
    Ok(())
}
