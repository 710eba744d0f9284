// The row of each statement by its kind.
ghost use Rattle.std.specs.Prelude.{◌≡◌, ◌<◌, All, IfOk, List, length};
ghost use Rattle.meaning_statements.specs.StatementRows.{expression_row, statement_row_at, statement_row_of};
ghost use Rattle.meaning_tree.specs.Laid.{IsLaid};
ghost use Rattle.meaning_tree.specs.Nodes.{end_of};
ghost use Rattle.meaning_typing.specs.Facts.{Fact};
ghost use Rattle.decl_judge.specs.Units.{nodes_of};
ghost use Rattle.expr_judge.specs.Rows.{Tells};
ghost use Rattle.node_facts.specs.Facts.{IsKnownNodeFact, nodes_seen};
ghost use Rattle.node_surroundings.specs.Seen.{AreSurroundingsOf, surroundings_seen};
ghost use Rattle.statement_judge.specs.Rows.{Says};
ghost use Rattle.statement_judge.specs.Statements.{IsKeptOf};

use crate::conditions::{condition, do_statement, return_statement, switch_statement};
use crate::jumps::{break_statement, continue_statement, label_statement};
use crate::labels::{case_label, default_label};
use crate::owners::owner_row;
use crate::statements::Statements;
use c_tree::{Handle, Unit};
use c_types::Types;
use decl_judge::kind_at;
use expr_judge::{NodeRow, take_row};
use expression_rows::Row;
use node_facts::NodeFacts;
use node_surroundings::Surroundings;
use sparse_model::{FailureList, NodeKind};
use std::alloc::AllocError;

// A function, or a statement expression that belongs to nothing, is what labels belong to.
fn row_of_owner(
    unit: &Unit,
    surroundings: &Surroundings,
    types: &Types,
    kept: &Statements,
    handle: Handle,
    owner: Option<Handle>,
) -> Row
    requires whole { unit.now.first ≡ 0 }
    requires laid { IsLaid unit.now }
    requires surroundings { AreSurroundingsOf unit.now surroundings.now }
    requires kept { (facts : List Fact) × IsKeptOf (nodes_of unit.now) (surroundings_seen surroundings.now) facts handle kept.now }
    ensures { Says types.now types.now result (expression_row (nodes_of unit.now) (surroundings_seen surroundings.now) handle owner) }
{
    match owner {
        None => owner_row(
            unit,
            surroundings,
            types,
            &kept.nesting,
            &kept.labels,
            &kept.gotos,
            handle,
        ),
        Some(_) => Row::nothing(),
    }
}

// By its kind. Of a node that is no statement nothing is said, but where labels belong to it.
fn row_of(
    unit: &Unit,
    surroundings: &Surroundings,
    types: &mut Types,
    facts: &NodeFacts,
    kept: &Statements,
    handle: Handle,
    kind: NodeKind,
) -> Result<Row, AllocError>
    requires whole { unit.now.first ≡ 0 }
    requires node { handle < end_of unit.now }
    requires laid { IsLaid unit.now }
    requires surroundings { AreSurroundingsOf unit.now surroundings.now }
    requires all { length surroundings.now ≡ length unit.now.nodes }
    requires ids { All (IsKnownNodeFact types.old) facts.now }
    requires next { length facts.now ≡ handle }
    requires kept { IsKeptOf (nodes_of unit.now) (surroundings_seen surroundings.now) (nodes_seen types.old facts.now) handle kept.now }
    ensures { IfOk result (λ row. Says types.old types.new row (statement_row_of (nodes_of unit.now) (surroundings_seen surroundings.now) (nodes_seen types.old facts.now) handle kind)) }
{
    let function = surroundings.get(handle).around.function;
    let owner = kept.nesting.owner(handle, function);
    match kind {
        NodeKind::IfStatement => condition(unit, types, facts, handle, 0),
        NodeKind::SwitchStatement => switch_statement(unit, types, facts, handle),
        NodeKind::WhileStatement => condition(unit, types, facts, handle, 0),
        NodeKind::DoStatement => do_statement(unit, types, facts, handle),
        NodeKind::ForStatement => condition(unit, types, facts, handle, 1),
        NodeKind::ReturnStatement => return_statement(unit, types, facts, handle, function),
        NodeKind::CaseStatement => {
            let labels = &kept.switch_labels;
            case_label(
                unit,
                surroundings,
                types,
                facts,
                &kept.nesting,
                labels,
                handle,
            )
        }
        NodeKind::DefaultStatement => {
            let labels = &kept.switch_labels;
            Ok(default_label(unit, surroundings, types, &kept.nesting, labels, handle))
        }
        NodeKind::LabelStatement => Ok(label_statement(unit, &kept.labels, handle, owner)),
        NodeKind::BreakStatement => Ok(break_statement(unit, &kept.nesting, handle)),
        NodeKind::ContinueStatement => Ok(continue_statement(unit, &kept.nesting, handle)),
        NodeKind::FunctionDefinition => {
            Ok(row_of_owner(unit, surroundings, types, kept, handle, None))
        }
        NodeKind::StatementExpression => {
            Ok(row_of_owner(unit, surroundings, types, kept, handle, owner))
        }
        _ => Ok(Row::nothing()),
    }
}

/// The row of a statement, over what is known of the nodes before it: what it breaks the least, and the rules that fail, which are
/// appended. A function, and a statement expression outside every function, break what their `goto`s do. Of another node nothing is
/// said. It takes a few steps, and of a function one for each of its `goto`s.
pub fn row_of_statement(
    unit: &Unit,
    surroundings: &Surroundings,
    types: &mut Types,
    facts: &NodeFacts,
    kept: &Statements,
    handle: Handle,
    found: &mut FailureList,
) -> Result<NodeRow, AllocError>
    requires whole { unit.now.first ≡ 0 }
    requires node { handle < end_of unit.now }
    requires laid { IsLaid unit.now }
    requires surroundings { AreSurroundingsOf unit.now surroundings.now }
    requires all { length surroundings.now ≡ length unit.now.nodes }
    requires ids { All (IsKnownNodeFact types.old) facts.now }
    requires next { length facts.now ≡ handle }
    requires kept { IsKeptOf (nodes_of unit.now) (surroundings_seen surroundings.now) (nodes_seen types.old facts.now) handle kept.now }
    ensures { IfOk result (λ row. Tells types.old types.new found.old found.new row (statement_row_at (nodes_of unit.now) (surroundings_seen surroundings.now) (nodes_seen types.old facts.now) handle)) }
{
    let kind = kind_at(unit, handle);
    let row = row_of(unit, surroundings, types, facts, kept, handle, kind)?;
    take_row(row, found)
}
