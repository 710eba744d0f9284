// Actions that make one node of what they take, and do nothing else: a row each. An action arrives, and the node of its row
// leaves in the place of its parts. What the parts are isn't known here.
ghost use Rattle.std.specs.Prelude.{◌≡◌, true, IfErr, IsSome, OnOk};
ghost use Rattle.vocabulary.specs.declared.production_item.ProductionItem.TheVariants.{Do};
ghost use Rattle.meaning_grammar.specs.Sorts.{effect};
ghost use Rattle.meaning_derivation.specs.Values.{sorts_of};
ghost use Rattle.meaning_derivation.specs.State.{Goes};
ghost use Rattle.meaning_derivation.specs.Actions.{act};
ghost use Rattle.parse_state.specs.Seen.{state_of};
ghost use Rattle.parse_state.specs.Steps.{IsToldBy};
ghost use Rattle.c_expr.specs.Rows.{is_row};

use parse_state::{ActionFault, ParseState, Place, Row, Source};
use vocabulary::{Action, NodeKind, Role};

/// Makes the node of an action that is a row.
pub fn make_node(state: &mut ParseState<'_>, action: Action) -> Result<(), ActionFault>
    requires finds { IsSome (effect (Do action) (sorts_of (state_of state.old).values)) }
    requires row { is_row action ≡ true }
    ensures goes { OnOk result (act action (state_of state.old) ≡ Goes (state_of state.new)) }
    ensures told { IfErr result (IsToldBy (act action (state_of state.old))) }
    ensures names { state.new.names ≡ state.old.names }
{
    match action {
        Action::MakeLeaf(kind) => state.make_row(&Row {
            takes: 1,
            kind,
            place: Place::AtWord(0),
            name: None,
            number: None,
            sources: &[],
        }),
        Action::MakeNamed(kind) => state.make_row(&Row {
            takes: 2,
            kind,
            place: Place::AtWord(1),
            name: Some(0),
            number: None,
            sources: &[],
        }),
        Action::MakeOver(kind, role) => state.make_row(&Row {
            takes: 2,
            kind,
            place: Place::AtWord(1),
            name: None,
            number: None,
            sources: &[Source::OneTree(role, 0)],
        }),
        Action::MakeOverTwo(kind, role, other) => state.make_row(&Row {
            takes: 3,
            kind,
            place: Place::AtWord(2),
            name: None,
            number: None,
            sources: &[Source::OneTree(role, 1), Source::OneTree(other, 0)],
        }),
        Action::MakeOverList(kind) => state.make_row(&Row {
            takes: 2,
            kind,
            place: Place::AtWord(1),
            name: None,
            number: None,
            sources: &[Source::AllTrees(0)],
        }),
        Action::MakeBinary(kind, role) => state.make_row(&Row {
            takes: 3,
            kind,
            place: Place::AtWord(1),
            name: None,
            number: None,
            sources: &[Source::OneTree(role, 2), Source::OneTree(role, 0)],
        }),
        Action::MakePostfix(kind) => state.make_row(&Row {
            takes: 2,
            kind,
            place: Place::AtWord(0),
            name: None,
            number: None,
            sources: &[Source::OneTree(Role::Evaluated, 1)],
        }),
        Action::MakeMember(kind) => state.make_row(&Row {
            takes: 3,
            kind,
            place: Place::AtWord(1),
            name: Some(0),
            number: None,
            sources: &[Source::OneTree(Role::Evaluated, 2)],
        }),
        Action::MakeInitializerItem => state.make_row(&Row {
            takes: 3,
            kind: NodeKind::InitializerItem,
            place: Place::AtWord(2),
            name: None,
            number: None,
            sources: &[Source::AllTrees(1), Source::OneTree(Role::Evaluated, 0)],
        }),
        Action::MakeCompoundStatement => state.make_row(&Row {
            takes: 3,
            kind: NodeKind::CompoundStatement,
            place: Place::AtWord(2),
            name: None,
            number: Some(0),
            sources: &[Source::AllTrees(1)],
        }),
        Action::MakeLabelStatement => state.make_row(&Row {
            takes: 2,
            kind: NodeKind::LabelStatement,
            place: Place::AtWord(1),
            name: Some(1),
            number: None,
            sources: &[Source::OneTree(Role::Evaluated, 0)],
        }),
        Action::MakeIfStatement => state.make_row(&Row {
            takes: 3,
            kind: NodeKind::IfStatement,
            place: Place::AtWord(2),
            name: None,
            number: None,
            sources: &[Source::OneTree(Role::Condition, 1), Source::AllTrees(0)],
        }),
        Action::MakeDoStatement => state.make_row(&Row {
            takes: 4,
            kind: NodeKind::DoStatement,
            place: Place::AtWord(3),
            name: None,
            number: Some(1),
            sources: &[
                Source::OneTree(Role::Evaluated, 2),
                Source::OneTree(Role::Condition, 0),
            ],
        }),
        Action::MakeForStatement => state.make_row(&Row {
            takes: 5,
            kind: NodeKind::ForStatement,
            place: Place::AtWord(4),
            name: None,
            number: None,
            sources: &[
                Source::OneTree(Role::Evaluated, 3),
                Source::OneTree(Role::Condition, 2),
                Source::OneTree(Role::Evaluated, 1),
                Source::OneTree(Role::Evaluated, 0),
            ],
        }),
        Action::MakeConditional => state.make_row(&Row {
            takes: 4,
            kind: NodeKind::Conditional,
            place: Place::AtWord(2),
            name: None,
            number: None,
            sources: &[
                Source::OneTree(Role::Condition, 3),
                Source::AllTrees(1),
                Source::OneTree(Role::Evaluated, 0),
            ],
        }),
        Action::MakeSizeofType => state.make_row(&Row {
            takes: 3,
            kind: NodeKind::SizeofType,
            place: Place::AtWord(2),
            name: None,
            number: None,
            sources: &[Source::OneTree(Role::TypePart, 0)],
        }),
        Action::MakeCall => state.make_row(&Row {
            takes: 3,
            kind: NodeKind::Call,
            place: Place::AtWord(1),
            name: None,
            number: None,
            sources: &[Source::OneTree(Role::Evaluated, 2), Source::AllTrees(0)],
        }),
        Action::MakeStringPiece => state.make_row(&Row {
            takes: 1,
            kind: NodeKind::StringPiece,
            place: Place::AtWord(0),
            name: Some(0),
            number: None,
            sources: &[],
        }),
        Action::MakeBuiltinOffsetof => state.make_row(&Row {
            takes: 4,
            kind: NodeKind::BuiltinOffsetof,
            place: Place::AtWord(3),
            name: Some(1),
            number: None,
            sources: &[Source::OneTree(Role::TypePart, 2), Source::AllTrees(0)],
        }),
        _ => unreachable!(),
    }
}
