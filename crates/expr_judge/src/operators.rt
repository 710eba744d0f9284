// The rows of operators with one operand or two, but for their constants (C11 6.5.2.4 to 6.5.17).
ghost use Rattle.std.specs.Prelude.{◌≡◌, All, IfOk};
ghost use Rattle.meaning_typing.specs.Operations as operations;
ghost use Rattle.meaning_typing.specs.Typing.{operation_row};
ghost use Rattle.decl_judge.specs.Units.{nodes_of};
ghost use Rattle.expr_judge.specs.Rows.{Tells};
ghost use Rattle.node_facts.specs.Facts.{IsKnownNodeFact, nodes_seen};

use crate::operands::{operand_of, operands_of};
use crate::parts::operand_at;
use crate::row::{NodeRow, take_row};
use c_tree::{Handle, Unit};
use c_types::Types;
use decl_judge::child_at;
use expression_rows::{Argument, judge_comma, judge_expect, judge_logical, judge_not, judge_unary};
use node_facts::NodeFacts;
use sparse_model::FailureList;
use std::alloc::AllocError;
use vocabulary::Operator;

/// The row of unary `+`, `-` or `~` (6.5.3.3).
pub fn unary(
    unit: &Unit,
    types: &mut Types,
    facts: &NodeFacts,
    found: &mut FailureList,
    handle: Handle,
    op: Operator,
) -> Result<NodeRow, AllocError>
    requires whole { unit.now.first ≡ 0 }
    requires known { All (IsKnownNodeFact types.old) facts.now }
    ensures { IfOk result (λ row. Tells types.old types.new found.old found.new row (operation_row (nodes_of unit.now) (nodes_seen types.old facts.now) handle (operations.UnaryOperation op))) }
{
    let one = operand_of(unit, types, facts, handle)?;
    let row = judge_unary(types, op, one.token, one.standing, one.operand)?;
    take_row(row, found)
}

/// The row of `!` (6.5.3.3).
pub fn not(
    unit: &Unit,
    types: &mut Types,
    facts: &NodeFacts,
    found: &mut FailureList,
    handle: Handle,
) -> Result<NodeRow, AllocError>
    requires whole { unit.now.first ≡ 0 }
    requires known { All (IsKnownNodeFact types.old) facts.now }
    ensures { IfOk result (λ row. Tells types.old types.new found.old found.new row (operation_row (nodes_of unit.now) (nodes_seen types.old facts.now) handle operations.NotOperation)) }
{
    let one = operand_of(unit, types, facts, handle)?;
    let row = judge_not(types, one.token, one.standing, one.operand)?;
    take_row(row, found)
}

/// The row of `&&` or `||` (6.5.13, 6.5.14).
pub fn logical(
    unit: &Unit,
    types: &mut Types,
    facts: &NodeFacts,
    found: &mut FailureList,
    handle: Handle,
    op: Operator,
) -> Result<NodeRow, AllocError>
    requires whole { unit.now.first ≡ 0 }
    requires known { All (IsKnownNodeFact types.old) facts.now }
    ensures { IfOk result (λ row. Tells types.old types.new found.old found.new row (operation_row (nodes_of unit.now) (nodes_seen types.old facts.now) handle (operations.LogicalOperation op))) }
{
    let two = operands_of(unit, types, facts, handle)?;
    let row = judge_logical(types, op, two.at, two.left, two.right)?;
    take_row(row, found)
}

/// The row of a comma (6.5.17).
pub fn comma(
    unit: &Unit,
    types: &mut Types,
    facts: &NodeFacts,
    found: &mut FailureList,
    handle: Handle,
) -> Result<NodeRow, AllocError>
    requires whole { unit.now.first ≡ 0 }
    requires known { All (IsKnownNodeFact types.old) facts.now }
    ensures { IfOk result (λ row. Tells types.old types.new found.old found.new row (operation_row (nodes_of unit.now) (nodes_seen types.old facts.now) handle operations.CommaOperation)) }
{
    let right = operand_at(types, facts, child_at(unit, handle, 1))?;
    let row = judge_comma(types, right)?;
    take_row(row, found)
}

/// The row of `__builtin_expect`.
pub fn expect(
    unit: &Unit,
    types: &mut Types,
    facts: &NodeFacts,
    found: &mut FailureList,
    handle: Handle,
) -> Result<NodeRow, AllocError>
    requires whole { unit.now.first ≡ 0 }
    requires known { All (IsKnownNodeFact types.old) facts.now }
    ensures { IfOk result (λ row. Tells types.old types.new found.old found.new row (operation_row (nodes_of unit.now) (nodes_seen types.old facts.now) handle operations.ExpectOperation)) }
{
    let two = operands_of(unit, types, facts, handle)?;
    let first = Argument {
        token: two.at.first,
        part: two.left,
    };
    let second = Argument {
        token: two.at.second,
        part: two.right,
    };
    let row = judge_expect(types, first, second)?;
    take_row(row, found)
}
