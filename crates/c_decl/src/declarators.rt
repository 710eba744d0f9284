// Declarators (C11 6.7.6): their parts stand from the specified type outwards, so lists of them are joined and turned round.
// Lists of parts arrive, and one list or node leaves. Which type they come to isn't known here.
ghost use Rattle.std.specs.Prelude.{◌≡◌, ◌||◌, if◌then◌else◌, nat_lt, IfErr, IsSome, OnOk};
ghost use Rattle.vocabulary.specs.declared.action.Action.TheVariants.{JoinAnyParts, JoinParts, JoinSuffixes, MakeOptionalDeclarator, MakeTypeName};
ghost use Rattle.vocabulary.specs.declared.production_item.ProductionItem.TheVariants.{Do};
ghost use Rattle.vocabulary.specs.declared.role.Role.TheVariants.{TypePart};
ghost use Rattle.meaning_grammar.specs.Sorts.{effect};
ghost use Rattle.meaning_derivation.specs.Values.{parts_of, sorts_of, value_at};
ghost use Rattle.meaning_derivation.specs.Lists.{has_spelling, part_count};
ghost use Rattle.meaning_derivation.specs.Shapes.{shaped_tree};
ghost use Rattle.meaning_derivation.specs.State.{Goes, made_list};
ghost use Rattle.meaning_derivation.specs.Actions.{act};
ghost use Rattle.parse_state.specs.Seen.{state_of};
ghost use Rattle.parse_state.specs.Sources.{IsCovered, row_shape};
ghost use Rattle.parse_state.specs.Steps.{IsToldBy};

use parse_state::{ActionFault, ParseState, Place, Row, Source};
use vocabulary::{ErrorKind, NodeKind, Role};

/// The parts of what is in parentheses, or of the direct declarator, behind the pointers or attributes before it.
pub fn join_parts(state: &mut ParseState<'_>) -> Result<(), ActionFault>
    requires finds { IsSome (effect (Do JoinParts) (sorts_of (state_of state.old).values)) }
    ensures goes { OnOk result (act JoinParts (state_of state.old) ≡ Goes (state_of state.new)) }
    ensures told { IfErr result (IsToldBy (act JoinParts (state_of state.old))) }
    ensures names { state.new.names ≡ state.old.names }
{
    state.collect_behind(3, 1, &[Source::AllTrees(2), Source::AllTrees(0)])?;
    Ok(())
}

/// The same of a declarator that may have no name. Where it has none it stands where it begins.
pub fn join_any_parts(state: &mut ParseState<'_>) -> Result<(), ActionFault>
    requires finds { IsSome (effect (Do JoinAnyParts) (sorts_of (state_of state.old).values)) }
    ensures goes { OnOk result (act JoinAnyParts (state_of state.old) ≡ Goes (state_of state.new)) }
    ensures told { IfErr result (IsToldBy (act JoinAnyParts (state_of state.old))) }
    ensures names { state.new.names ≡ state.old.names }
{
    let word = name_depth(state);
    state.collect_behind(4, word, &[Source::AllTrees(2), Source::AllTrees(0)])?;
    Ok(())
}

// How far below the top the name stands, or where there is none the place at which the declarator begins.
fn name_depth(state: &ParseState<'_>) -> usize
    ensures { result ≡ (if has_spelling (value_at (state_of state.now).values 1) then 1 else 3) }
{
    if state.has_spelling(1) { 1 } else { 3 }
}

/// Array sizes and parameter lists, the last one first, before the parts of what they are behind.
pub fn join_suffixes(state: &mut ParseState<'_>) -> Result<(), ActionFault>
    requires finds { IsSome (effect (Do JoinSuffixes) (sorts_of (state_of state.old).values)) }
    ensures goes { OnOk result (act JoinSuffixes (state_of state.old) ≡ Goes (state_of state.new)) }
    ensures told { IfErr result (IsToldBy (act JoinSuffixes (state_of state.old))) }
    ensures names { state.new.names ≡ state.old.names }
{
    state.put_suffixes()?;
    Ok(())
}

/// The declarator of a parameter or a type name, in a list, which is empty where nothing was read of it.
pub fn make_optional_declarator(state: &mut ParseState<'_>) -> Result<(), ActionFault>
    requires finds { IsSome (effect (Do MakeOptionalDeclarator) (sorts_of (state_of state.old).values)) }
    ensures goes { OnOk result (act MakeOptionalDeclarator (state_of state.old) ≡ Goes (state_of state.new)) }
    ensures told { IfErr result (IsToldBy (act MakeOptionalDeclarator (state_of state.old))) }
    ensures names { state.new.names ≡ state.old.names }
{
    if is_declared(state) {
        return make_listed(
            state,
            &Row {
                takes: 2,
                kind: NodeKind::Declarator,
                place: Place::AtWord(1),
                name: Some(1),
                number: None,
                sources: &[Source::AllTrees(0)],
            },
        );
    }
    state.collect(2, &[Source::AllTrees(0)])?;
    Ok(())
}

// Whether a declarator has a name or a part.
fn is_declared(state: &ParseState<'_>) -> bool
    ensures { result ≡ (has_spelling (value_at (state_of state.now).values 1) || nat_lt 0 (part_count (parts_of (value_at (state_of state.now).values 0)))) }
{
    state.has_spelling(1) || state.part_count(0) > 0
}

/// Makes the node of a row, which is the only tree of a list.
pub fn make_listed(state: &mut ParseState<'_>, row: &Row<'_>) -> Result<(), ActionFault>
    requires covers { IsCovered (state_of state.old).values row.now.takes row.now.sources.now }
    ensures goes { OnOk result (made_list (state_of state.old) row.now.takes TypePart (shaped_tree (row_shape row.now) (state_of state.old).values) ≡ Goes (state_of state.new)) }
    ensures told { IfErr result (IsToldBy (made_list (state_of state.old) row.now.takes TypePart (shaped_tree (row_shape row.now) (state_of state.old).values))) }
    ensures names { state.new.names ≡ state.old.names }
{
    state.make_row(row)?;
    state.collect(1, &[Source::OneTree(Role::TypePart, 0)])?;
    Ok(())
}

/// A type name, in which no name is declared (6.7.7 p1).
pub fn make_type_name(state: &mut ParseState<'_>) -> Result<(), ActionFault>
    requires finds { IsSome (effect (Do MakeTypeName) (sorts_of (state_of state.old).values)) }
    ensures goes { OnOk result (act MakeTypeName (state_of state.old) ≡ Goes (state_of state.new)) }
    ensures told { IfErr result (IsToldBy (act MakeTypeName (state_of state.old))) }
    ensures names { state.new.names ≡ state.old.names }
{
    match state.first_name(0) {
        Some(named) => Err(ActionFault::Refused(ErrorKind::BadDeclaration, named.token)),
        None => state.make_row(&Row {
            takes: 2,
            kind: NodeKind::TypeName,
            place: Place::AtTree(1),
            name: None,
            number: None,
            sources: &[Source::OneTree(Role::TypePart, 1), Source::AllTrees(0)],
        }),
    }
}
