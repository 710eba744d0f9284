// Actions that make one node of what they take, and do nothing else: a row each. An action arrives, and the node of its row
// leaves in the place of its parts. What the parts are isn't known here.
ghost use Rattle.std.specs.Prelude.{◌≡◌, true, IfErr, IsSome, OnOk};
ghost use Rattle.vocabulary.specs.declared.production_item.ProductionItem.TheVariants.{Do};
ghost use Rattle.meaning_grammar.specs.Sorts.{effect};
ghost use Rattle.meaning_derivation.specs.Values.{sorts_of};
ghost use Rattle.meaning_derivation.specs.State.{Goes};
ghost use Rattle.meaning_derivation.specs.Actions.{act};
ghost use Rattle.parse_state.specs.Seen.{state_of};
ghost use Rattle.parse_state.specs.Steps.{IsToldBy};
ghost use Rattle.c_decl.specs.Rows.{is_row};

use parse_state::{ActionFault, ParseState, Place, Row, Source};
use vocabulary::{Action, NodeKind, Role};

/// Makes the node of an action that is a row.
pub fn make_node(state: &mut ParseState<'_>, action: Action) -> Result<(), ActionFault>
    requires finds { IsSome (effect (Do action) (sorts_of (state_of state.old).values)) }
    requires row { is_row action ≡ true }
    ensures goes { OnOk result (act action (state_of state.old) ≡ Goes (state_of state.new)) }
    ensures told { IfErr result (IsToldBy (act action (state_of state.old))) }
    ensures names { state.new.names ≡ state.old.names }
{
    match action {
        Action::MakeTranslationUnit => state.make_row(&Row {
            takes: 1,
            kind: NodeKind::TranslationUnit,
            place: Place::AtFirst,
            name: None,
            number: None,
            sources: &[Source::AllTrees(0)],
        }),
        Action::MakeLoneDeclaration => state.make_row(&Row {
            takes: 1,
            kind: NodeKind::Declaration,
            place: Place::AtTree(0),
            name: None,
            number: None,
            sources: &[Source::OneTree(Role::TypePart, 0)],
        }),
        Action::MakeDeclaration => state.make_row(&Row {
            takes: 2,
            kind: NodeKind::Declaration,
            place: Place::AtTree(1),
            name: None,
            number: None,
            sources: &[Source::OneTree(Role::TypePart, 1), Source::AllTrees(0)],
        }),
        Action::MakeFunctionDefinition => state.make_row(&Row {
            takes: 4,
            kind: NodeKind::FunctionDefinition,
            place: Place::AtTree(3),
            name: None,
            number: None,
            sources: &[
                Source::OneTree(Role::TypePart, 3),
                Source::OneTree(Role::TypePart, 2),
                Source::AllTrees(1),
                Source::OneTree(Role::Evaluated, 0),
            ],
        }),
        Action::MakeTagged(kind) => state.make_row(&Row {
            takes: 5,
            kind,
            place: Place::AtWord(4),
            name: Some(2),
            number: Some(1),
            sources: &[Source::AllTrees(3), Source::AllTrees(0)],
        }),
        Action::MakeMemberDeclaration => state.make_row(&Row {
            takes: 2,
            kind: NodeKind::MemberDeclaration,
            place: Place::AtTree(1),
            name: None,
            number: None,
            sources: &[Source::OneTree(Role::TypePart, 1), Source::AllTrees(0)],
        }),
        Action::MakeEnumerator => state.make_row(&Row {
            takes: 2,
            kind: NodeKind::Enumerator,
            place: Place::AtWord(1),
            name: Some(1),
            number: None,
            sources: &[Source::AllTrees(0)],
        }),
        Action::MakeDeclarator => state.make_row(&Row {
            takes: 2,
            kind: NodeKind::Declarator,
            place: Place::AtWord(1),
            name: Some(1),
            number: None,
            sources: &[Source::AllTrees(0)],
        }),
        Action::MakeParameter => state.make_row(&Row {
            takes: 2,
            kind: NodeKind::Parameter,
            place: Place::AtTree(1),
            name: None,
            number: None,
            sources: &[Source::OneTree(Role::TypePart, 1), Source::AllTrees(0)],
        }),
        _ => unreachable!(),
    }
}
