// The row of a node of a unit: what `node_judge` says of it, what `statement_judge` says besides, and its access.
ghost use Rattle.std.specs.Prelude.{◌≡◌, ◌<◌, IfOk, OnOk, length, option_map};
ghost use Rattle.meaning_rules.specs.Rules.{lesser};
ghost use Rattle.meaning_statements.specs.StatementRows.{statement_row_at};
ghost use Rattle.meaning_tree.specs.Laid.{IsLaid};
ghost use Rattle.meaning_tree.specs.Nodes.{end_of};
ghost use Rattle.decl_judge.specs.Units.{nodes_of};
ghost use Rattle.expr_judge.specs.Rows.{Tells};
ghost use Rattle.expression_rows.specs.Rows.{broken_seen};
ghost use Rattle.node_judge.specs.Known.{IsKnownOf, facts_seen, table_of};
ghost use Rattle.node_surroundings.specs.Seen.{AreSurroundingsOf, surroundings_seen};
ghost use Rattle.statement_judge.specs.Statements.{IsKeptOf};
ghost use Rattle.type_judge.specs.Rows.{TellsAccessedRow, TellsInitializing, TellsUnitRow, row_with_statement};

use crate::access::access_node;
use c_tree::{Handle, Unit};
use expr_judge::NodeRow;
use expression_rows::lesser;
use initialized_judge::{judge_initialized, tables_know_aggregates};
use node_judge::{Declarations, Known, judge_node};
use node_surroundings::Surroundings;
use sparse_model::{FailureList, NodeKind};
use statement_judge::{Statements, row_of_statement};
use std::alloc::{AllocError, Global};

// The row of a statement.
fn statement_row(
    unit: &Unit,
    surroundings: &Surroundings,
    known: &mut Known,
    statements: &Statements,
    found: &mut FailureList,
    handle: Handle,
) -> Result<NodeRow, AllocError>
    requires whole { unit.now.first ≡ 0 }
    requires laid { IsLaid unit.now }
    requires node { handle < end_of unit.now }
    requires surroundings { AreSurroundingsOf unit.now surroundings.now }
    requires all { length surroundings.now ≡ length unit.now.nodes }
    requires known { IsKnownOf (nodes_of unit.now) (surroundings_seen surroundings.now) handle (facts_seen known.old) known.old }
    requires kept { IsKeptOf (nodes_of unit.now) (surroundings_seen surroundings.now) (facts_seen known.old) handle statements.now }
    ensures says { IfOk result (λ row. Tells (table_of known.old) (table_of known.new) found.old found.new row (statement_row_at (nodes_of unit.now) (surroundings_seen surroundings.now) (facts_seen known.old) handle)) }
    ensures keeps { OnOk result (IsKnownOf (nodes_of unit.now) (surroundings_seen surroundings.now) handle (facts_seen known.old) known.new) }
{
    let Known { declarations, .. } = known;
    let Declarations { types, facts, .. } = declarations;
    row_of_statement(unit, surroundings, types, facts, statements, handle, found)
}

// What a row says, and what its statement breaks besides.
fn with_statement(row: NodeRow, statement: NodeRow) -> NodeRow
    ensures fact { result.fact ≡ row.fact }
    ensures broken { option_map broken_seen result.broken ≡ lesser (option_map broken_seen row.broken) (option_map broken_seen statement.broken) }
    ensures passed { result.passed ≡ row.passed }
{
    NodeRow {
        fact: row.fact,
        broken: lesser(row.broken, statement.broken),
        passed: row.passed,
    }
}

// The row of a node that initializes something.
fn initialized_row(
    alloc: Global,
    unit: &Unit,
    surroundings: &Surroundings,
    known: &mut Known,
    found: &mut FailureList,
    handle: Handle,
) -> Result<NodeRow, AllocError>
    requires whole { unit.now.first ≡ 0 }
    requires laid { IsLaid unit.now }
    requires all { length surroundings.now ≡ length unit.now.nodes }
    requires known { IsKnownOf (nodes_of unit.now) (surroundings_seen surroundings.now) handle (facts_seen known.old) known.old }
    ensures says { IfOk result (TellsInitializing (nodes_of unit.now) (surroundings_seen surroundings.now) known.old known.new handle found.old found.new) }
    ensures keeps { OnOk result (IsKnownOf (nodes_of unit.now) (surroundings_seen surroundings.now) handle (facts_seen known.old) known.new) }
{
    tables_know_aggregates();
    let Known { declarations, .. } = known;
    judge_initialized(alloc, unit, surroundings, declarations, found, handle)
}

// The row of a node that neither is `return` nor initializes something.
fn row_besides(
    alloc: Global,
    unit: &Unit,
    surroundings: &Surroundings,
    known: &mut Known,
    statements: &Statements,
    found: &mut FailureList,
    handle: Handle,
) -> Result<NodeRow, AllocError>
    requires whole { unit.now.first ≡ 0 }
    requires laid { IsLaid unit.now }
    requires node { handle < end_of unit.now }
    requires surroundings { AreSurroundingsOf unit.now surroundings.now }
    requires all { length surroundings.now ≡ length unit.now.nodes }
    requires known { IsKnownOf (nodes_of unit.now) (surroundings_seen surroundings.now) handle (facts_seen known.old) known.old }
    requires kept { IsKeptOf (nodes_of unit.now) (surroundings_seen surroundings.now) (facts_seen known.old) handle statements.now }
    ensures says { IfOk result (λ row. Tells (table_of known.old) (table_of known.new) found.old found.new row (row_with_statement (nodes_of unit.now) (surroundings_seen surroundings.now) (facts_seen known.old) handle)) }
    ensures keeps { OnOk result (IsKnownOf (nodes_of unit.now) (surroundings_seen surroundings.now) handle (facts_seen known.old) known.new) }
{
    let row = judge_node(alloc, unit, surroundings, known, found, handle)?;
    let statement = statement_row(unit, surroundings, known, statements, found, handle)?;
    Ok(with_statement(row, statement))
}

// The row of a node: of `return` that of its statement alone.
fn row_of_node(
    alloc: Global,
    unit: &Unit,
    surroundings: &Surroundings,
    known: &mut Known,
    statements: &Statements,
    found: &mut FailureList,
    handle: Handle,
) -> Result<NodeRow, AllocError>
    requires whole { unit.now.first ≡ 0 }
    requires laid { IsLaid unit.now }
    requires node { handle < end_of unit.now }
    requires surroundings { AreSurroundingsOf unit.now surroundings.now }
    requires all { length surroundings.now ≡ length unit.now.nodes }
    requires known { IsKnownOf (nodes_of unit.now) (surroundings_seen surroundings.now) handle (facts_seen known.old) known.old }
    requires kept { IsKeptOf (nodes_of unit.now) (surroundings_seen surroundings.now) (facts_seen known.old) handle statements.now }
    ensures says { IfOk result (TellsUnitRow (nodes_of unit.now) (surroundings_seen surroundings.now) known.old known.new handle found.old found.new) }
    ensures keeps { OnOk result (IsKnownOf (nodes_of unit.now) (surroundings_seen surroundings.now) handle (facts_seen known.old) known.new) }
{
    match unit.kind(handle) {
        NodeKind::ReturnStatement => {
            statement_row(unit, surroundings, known, statements, found, handle)
        }
        NodeKind::CompoundLiteral => {
            initialized_row(alloc, unit, surroundings, known, found, handle)
        }
        NodeKind::Initializer => {
            initialized_row(alloc, unit, surroundings, known, found, handle)
        }
        _ => row_besides(alloc, unit, surroundings, known, statements, found, handle),
    }
}

/// The row of a node of a unit, over what is known and kept of those before it: what is known of it, the least constraint that it and its
/// statement break, and the token at which it passes the limit of the size of an object. The rules that fail are appended, that of its
/// access the last. Types may join those that are known; the node itself isn't known yet. It takes a few steps, and one for each part;
/// of a function one for each of its `goto`s.
///
/// # Errors
/// Want of memory, where `judge_node` has it.
pub fn judge_row(
    alloc: Global,
    unit: &Unit,
    surroundings: &Surroundings,
    known: &mut Known,
    statements: &Statements,
    found: &mut FailureList,
    handle: Handle,
) -> Result<NodeRow, AllocError>
    requires whole { unit.now.first ≡ 0 }
    requires laid { IsLaid unit.now }
    requires node { handle < end_of unit.now }
    requires surroundings { AreSurroundingsOf unit.now surroundings.now }
    requires all { length surroundings.now ≡ length unit.now.nodes }
    requires known { IsKnownOf (nodes_of unit.now) (surroundings_seen surroundings.now) handle (facts_seen known.old) known.old }
    requires kept { IsKeptOf (nodes_of unit.now) (surroundings_seen surroundings.now) (facts_seen known.old) handle statements.now }
    ensures says { IfOk result (TellsAccessedRow (nodes_of unit.now) (surroundings_seen surroundings.now) known.old known.new handle found.old found.new) }
    ensures keeps { OnOk result (IsKnownOf (nodes_of unit.now) (surroundings_seen surroundings.now) handle (facts_seen known.old) known.new) }
{
    let row = row_of_node(alloc, unit, surroundings, known, statements, found, handle)?;
    let surrounding = surroundings.get(handle);
    let types = &known.declarations.types;
    access_node(types, unit.token(handle), surrounding, row.fact, found)?;
    Ok(row)
}
