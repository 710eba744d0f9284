// The rows of expressions, by what is known of their parts.
ghost use Rattle.std.specs.Prelude.{◌≡◌, ◌<◌, All, IfOk};
ghost use Rattle.meaning_tree.specs.Nodes.{end_of};
ghost use Rattle.meaning_typing.specs.Expressions as meaning;
ghost use Rattle.meaning_typing.specs.Facts.{fact_at};
ghost use Rattle.meaning_typing.specs.Typing.{token_at as token_of};
ghost use Rattle.meaning_typing.specs.Units.{child_at as child_of, node_at as node_of};
ghost use Rattle.decl_judge.specs.Units.{nodes_of};
ghost use Rattle.expr_judge.specs.Rows.{Tells};
ghost use Rattle.node_facts.specs.Facts.{IsKnownNodeFact, nodes_seen};

use crate::parts::{expression_at, operand_at};
use crate::row::{NodeRow, take_row};
use c_tree::{Handle, Unit};
use c_types::Types;
use decl_judge::{child_at, token_at};
use expression_rows::{judge_address, judge_indirection, judge_string};
use node_facts::NodeFacts;
use sparse_model::FailureList;
use std::alloc::AllocError;

/// The row of a string literal (C11 6.4.5).
pub fn string(
    unit: &Unit,
    types: &mut Types,
    found: &mut FailureList,
    handle: Handle,
) -> Result<NodeRow, AllocError>
    requires whole { unit.now.first ≡ 0 }
    requires node { handle < end_of unit.now }
    ensures { IfOk result (λ row. Tells types.old types.new found.old found.new row (meaning.string_row (node_of (nodes_of unit.now) handle).number)) }
{
    let row = judge_string(types, unit.node(handle).number)?;
    take_row(row, found)
}

/// The row of unary `&` (6.5.3.2).
pub fn address(
    unit: &Unit,
    types: &mut Types,
    facts: &NodeFacts,
    found: &mut FailureList,
    handle: Handle,
) -> Result<NodeRow, AllocError>
    requires whole { unit.now.first ≡ 0 }
    requires known { All (IsKnownNodeFact types.old) facts.now }
    ensures { IfOk result (λ row. Tells types.old types.new found.old found.new row (meaning.address_row (token_of (nodes_of unit.now) handle) (fact_at (nodes_seen types.old facts.now) (child_of (nodes_of unit.now) handle 0)))) }
{
    let operand = expression_at(facts, child_at(unit, handle, 0));
    let row = judge_address(types, token_at(unit, handle), operand)?;
    take_row(row, found)
}

/// The row of unary `*` (6.5.3.2).
pub fn indirection(
    unit: &Unit,
    types: &mut Types,
    facts: &NodeFacts,
    found: &mut FailureList,
    handle: Handle,
) -> Result<NodeRow, AllocError>
    requires whole { unit.now.first ≡ 0 }
    requires known { All (IsKnownNodeFact types.old) facts.now }
    ensures { IfOk result (λ row. Tells types.old types.new found.old found.new row (meaning.indirection_row (token_of (nodes_of unit.now) handle) (token_of (nodes_of unit.now) (child_of (nodes_of unit.now) handle 0)) (fact_at (nodes_seen types.old facts.now) (child_of (nodes_of unit.now) handle 0)))) }
{
    let child = child_at(unit, handle, 0);
    let operand = operand_at(types, facts, child)?;
    let token = token_at(unit, handle);
    let row = judge_indirection(types, token, token_at(unit, child), operand);
    take_row(row, found)
}
