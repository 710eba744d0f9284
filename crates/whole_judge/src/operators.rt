// The rows of operators that ask for layouts, but for their constants (C11 6.5.2.4, 6.5.3.1, 6.5.3.4, 6.5.5 to 6.5.12, 6.5.16.2).
ghost use Rattle.std.specs.Prelude.{◌≡◌, All, IfOk};
ghost use Rattle.meaning_typing.specs.Operations as operations;
ghost use Rattle.meaning_typing.specs.WholeTyping.{whole_operation_row};
ghost use Rattle.decl_judge.specs.Units.{nodes_of};
ghost use Rattle.expr_judge.specs.Rows.{Tells};
ghost use Rattle.member_rows.specs.Aggregates.{aggregates_in};
ghost use Rattle.node_facts.specs.Facts.{IsKnownNodeFact, nodes_seen};
ghost use Rattle.whole_judge.specs.Known.{AreKnownBodies};
ghost use Rattle.whole_rows.specs.ConstAggregates.{AreConst};

use c_tree::{Handle, Unit};
use c_types::Types;
use decl_judge::{child_at, token_at};
use expr_judge::{NodeRow, operand_of, operands_of, take_row};
use expression_rows::{judge_binary, judge_size};
use node_facts::NodeFacts;
use sparse_model::FailureList;
use std::alloc::AllocError;
use vocabulary::Operator;
use whole_rows::{
    ConstAggregates, judge_whole_compound, judge_whole_step_before, judge_whole_step_behind,
};

/// The row of `++` or `--` behind its operand (6.5.2.4).
pub fn step_behind(
    unit: &Unit,
    types: &mut Types,
    consts: &ConstAggregates,
    facts: &NodeFacts,
    found: &mut FailureList,
    handle: Handle,
    op: Operator,
) -> Result<NodeRow, AllocError>
    requires whole { unit.now.first ≡ 0 }
    requires ids { All (IsKnownNodeFact types.old) facts.now }
    requires bodies { AreKnownBodies types.old }
    requires consts { AreConst types.old consts.now }
    ensures { IfOk result (λ row. Tells types.old types.new found.old found.new row (whole_operation_row (aggregates_in types.old) (nodes_of unit.now) (nodes_seen types.old facts.now) handle (operations.StepBehind op))) }
{
    let one = operand_of(unit, types, facts, handle)?;
    let row = judge_whole_step_behind(types, consts, op, one.token, one.standing, one.operand)?;
    take_row(row, found)
}

/// The row of `++` or `--` before its operand (6.5.3.1).
pub fn step_before(
    unit: &Unit,
    types: &mut Types,
    consts: &ConstAggregates,
    facts: &NodeFacts,
    found: &mut FailureList,
    handle: Handle,
    op: Operator,
) -> Result<NodeRow, AllocError>
    requires whole { unit.now.first ≡ 0 }
    requires ids { All (IsKnownNodeFact types.old) facts.now }
    requires bodies { AreKnownBodies types.old }
    requires consts { AreConst types.old consts.now }
    ensures { IfOk result (λ row. Tells types.old types.new found.old found.new row (whole_operation_row (aggregates_in types.old) (nodes_of unit.now) (nodes_seen types.old facts.now) handle (operations.StepBefore op))) }
{
    let one = operand_of(unit, types, facts, handle)?;
    let row = judge_whole_step_before(types, consts, op, one.token, one.standing, one.operand)?;
    take_row(row, found)
}

/// The row of a compound assignment (6.5.16.2).
pub fn compound(
    unit: &Unit,
    types: &mut Types,
    consts: &ConstAggregates,
    facts: &NodeFacts,
    found: &mut FailureList,
    handle: Handle,
    op: Operator,
) -> Result<NodeRow, AllocError>
    requires whole { unit.now.first ≡ 0 }
    requires ids { All (IsKnownNodeFact types.old) facts.now }
    requires bodies { AreKnownBodies types.old }
    requires consts { AreConst types.old consts.now }
    ensures { IfOk result (λ row. Tells types.old types.new found.old found.new row (whole_operation_row (aggregates_in types.old) (nodes_of unit.now) (nodes_seen types.old facts.now) handle (operations.CompoundOperation op))) }
{
    let two = operands_of(unit, types, facts, handle)?;
    let row = judge_whole_compound(types, consts, op, two.at, two.left, two.right)?;
    take_row(row, found)
}

/// The row of `sizeof` or `_Alignof` (6.5.3.4), whose operand may be a name of a type.
pub fn size(
    unit: &Unit,
    types: &mut Types,
    facts: &NodeFacts,
    found: &mut FailureList,
    handle: Handle,
) -> Result<NodeRow, AllocError>
    requires whole { unit.now.first ≡ 0 }
    requires ids { All (IsKnownNodeFact types.old) facts.now }
    ensures { IfOk result (λ row. Tells types.old types.new found.old found.new row (whole_operation_row (aggregates_in types.old) (nodes_of unit.now) (nodes_seen types.old facts.now) handle operations.SizeOperation)) }
{
    let part = facts.at(child_at(unit, handle, 0));
    let row = judge_size(types, token_at(unit, handle), part)?;
    take_row(row, found)
}

/// The row of a binary operator that makes a value of two (6.5.5 to 6.5.12): what a pointer is moved over has a size.
pub fn binary(
    unit: &Unit,
    types: &mut Types,
    facts: &NodeFacts,
    found: &mut FailureList,
    handle: Handle,
    op: Operator,
) -> Result<NodeRow, AllocError>
    requires whole { unit.now.first ≡ 0 }
    requires ids { All (IsKnownNodeFact types.old) facts.now }
    ensures { IfOk result (λ row. Tells types.old types.new found.old found.new row (whole_operation_row (aggregates_in types.old) (nodes_of unit.now) (nodes_seen types.old facts.now) handle (operations.BinaryOperation op))) }
{
    let two = operands_of(unit, types, facts, handle)?;
    let row = judge_binary(types, op, two.at, two.left, two.right)?;
    take_row(row, found)
}
