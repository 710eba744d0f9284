// The rows of `?:` and of statement expressions, but for the constant of the first (C11 6.5.15).
ghost use Rattle.std.specs.Prelude.{◌≡◌, ◌<◌, All, IfOk, OnOk, length, option_map};
ghost use Rattle.meaning_tree.specs.Nodes.{end_of};
ghost use Rattle.meaning_typing.specs.Operations as operations;
ghost use Rattle.meaning_typing.specs.Typing as meaning;
ghost use Rattle.meaning_typing.specs.Typing.{operation_row};
ghost use Rattle.meaning_typing.specs.Units.{node_at as node_of};
ghost use Rattle.decl_judge.specs.Units.{handles_of, nodes_of};
ghost use Rattle.expression_rows.specs.Parts.{IsKnownReturn, returned_seen};
ghost use Rattle.expr_judge.specs.Operators.{conditional_with, conditional_without, value_in};
ghost use Rattle.expr_judge.specs.Parts.{only_expression};
ghost use Rattle.expr_judge.specs.Rows.{Tells};
ghost use Rattle.node_facts.specs.Facts.{IsKnownNodeFact, nodes_seen};
ghost use Rattle.node_facts.specs.Growing.{TypesJoin};

use crate::operands::operands_of;
use crate::parts::{operand_at, returned_among};
use crate::row::{NodeRow, take_row};
use c_tree::{Handle, Node, Unit};
use c_types::Types;
use decl_judge::{child_at, node_at, token_at};
use expression_rows::{ConditionalTokens, Returned, judge_conditional, judge_statement_expression};
use node_facts::NodeFacts;
use sparse_model::{FailureList, NodeKind};
use std::alloc::AllocError;

// With its middle operand.
fn with_middle(
    unit: &Unit,
    types: &mut Types,
    facts: &NodeFacts,
    found: &mut FailureList,
    handle: Handle,
) -> Result<NodeRow, AllocError>
    requires whole { unit.now.first ≡ 0 }
    requires known { All (IsKnownNodeFact types.old) facts.now }
    ensures { IfOk result (λ row. Tells types.old types.new found.old found.new row (conditional_with (nodes_of unit.now) (nodes_seen types.old facts.now) handle)) }
{
    let two = operands_of(unit, types, facts, handle)?;
    let child = child_at(unit, handle, 2);
    let right = operand_at(types, facts, child)?;
    let at = ConditionalTokens {
        token: two.at.token,
        first: two.at.first,
        second: two.at.second,
        third: token_at(unit, child),
    };
    let row = judge_conditional(types, at, two.left, two.right, right)?;
    take_row(row, found)
}

// Without it the condition is that, too.
fn without_middle(
    unit: &Unit,
    types: &mut Types,
    facts: &NodeFacts,
    found: &mut FailureList,
    handle: Handle,
) -> Result<NodeRow, AllocError>
    requires whole { unit.now.first ≡ 0 }
    requires known { All (IsKnownNodeFact types.old) facts.now }
    ensures { IfOk result (λ row. Tells types.old types.new found.old found.new row (conditional_without (nodes_of unit.now) (nodes_seen types.old facts.now) handle)) }
{
    let two = operands_of(unit, types, facts, handle)?;
    let at = ConditionalTokens {
        token: two.at.token,
        first: two.at.first,
        second: two.at.first,
        third: two.at.second,
    };
    let row = judge_conditional(types, at, two.left, two.left, two.right)?;
    take_row(row, found)
}

/// The row of `?:` (6.5.15).
pub fn conditional(
    unit: &Unit,
    types: &mut Types,
    facts: &NodeFacts,
    found: &mut FailureList,
    handle: Handle,
) -> Result<NodeRow, AllocError>
    requires whole { unit.now.first ≡ 0 }
    requires node { handle < end_of unit.now }
    requires known { All (IsKnownNodeFact types.old) facts.now }
    ensures { IfOk result (λ row. Tells types.old types.new found.old found.new row (operation_row (nodes_of unit.now) (nodes_seen types.old facts.now) handle operations.ConditionalOperation)) }
{
    if unit.node(handle).children.len() > 2 {
        with_middle(unit, types, facts, found, handle)
    } else {
        without_middle(unit, types, facts, found, handle)
    }
}

// How many parts a node has.
fn count_of(unit: &Unit, handle: Handle) -> u32
    requires { unit.now.first ≡ 0 }
    ensures { result ≡ length (node_of (nodes_of unit.now) handle).children }
{
    match node_at(unit, handle) {
        Some(node) => node.children.len(),
        None => 0,
    }
}

// The last part of a body.
fn last_statement(unit: &Unit, body: Handle) -> Handle
    requires { unit.now.first ≡ 0 }
    ensures { result ≡ meaning.last_statement (nodes_of unit.now) body }
{
    child_at(unit, body, count_of(unit, body).saturating_sub(1))
}

// The value of a statement, if it is an expression statement with one.
fn value_of_statement(
    types: &mut Types,
    facts: &NodeFacts,
    statement: &Node,
) -> Result<Returned, AllocError>
    requires { All (IsKnownNodeFact types.old) facts.now }
    ensures seen { IfOk result (λ value. returned_seen types.new value ≡ option_map only_expression (value_in statement.now.kind (nodes_seen types.old facts.now) (handles_of statement.now.children))) }
    ensures known { IfOk result (IsKnownReturn types.new) }
    ensures keeps { OnOk result (TypesJoin types.old types.new) }
{
    match statement.kind {
        NodeKind::ExpressionStatement => returned_among(types, facts, &statement.children),
        _ => Ok(Returned::Nothing),
    }
}

// The same of the statement with this handle.
fn last_value(
    unit: &Unit,
    types: &mut Types,
    facts: &NodeFacts,
    statement: Handle,
) -> Result<Returned, AllocError>
    requires whole { unit.now.first ≡ 0 }
    requires known { All (IsKnownNodeFact types.old) facts.now }
    ensures seen { IfOk result (λ value. returned_seen types.new value ≡ option_map only_expression (meaning.last_value (nodes_of unit.now) (nodes_seen types.old facts.now) statement)) }
    ensures known { IfOk result (IsKnownReturn types.new) }
    ensures keeps { OnOk result (TypesJoin types.old types.new) }
{
    match node_at(unit, statement) {
        Some(node) => value_of_statement(types, facts, node),
        None => Ok(Returned::Nothing),
    }
}

/// The row of a statement expression, which has the value of its last statement (our choice, as in GNU C).
pub fn statement_expression(
    unit: &Unit,
    types: &mut Types,
    facts: &NodeFacts,
    found: &mut FailureList,
    handle: Handle,
) -> Result<NodeRow, AllocError>
    requires whole { unit.now.first ≡ 0 }
    requires known { All (IsKnownNodeFact types.old) facts.now }
    ensures { IfOk result (λ row. Tells types.old types.new found.old found.new row (operation_row (nodes_of unit.now) (nodes_seen types.old facts.now) handle operations.StatementsOperation)) }
{
    let statement = last_statement(unit, child_at(unit, handle, 0));
    let value = last_value(unit, types, facts, statement)?;
    let row = judge_statement_expression(types, value)?;
    take_row(row, found)
}
