// The rows of subscripts and assignments (C11 6.5.2.1, 6.5.16.1).
ghost use Rattle.std.specs.Prelude.{◌≡◌, All, IfOk, List};
ghost use Rattle.vocabulary.specs.declared.node_kind.NodeKind.TheVariants as kinds;
ghost use Rattle.meaning_typing.specs.Surroundings.{Surrounding};
ghost use Rattle.meaning_typing.specs.WholeTyping.{whole_row_of};
ghost use Rattle.decl_judge.specs.Units.{nodes_of};
ghost use Rattle.expr_judge.specs.Rows.{Tells};
ghost use Rattle.member_rows.specs.Aggregates.{aggregates_in};
ghost use Rattle.node_facts.specs.Facts.{IsKnownNodeFact, nodes_seen};
ghost use Rattle.whole_judge.specs.Known.{AreKnownBodies};
ghost use Rattle.whole_rows.specs.ConstAggregates.{AreConst};

use c_tree::{Handle, Unit};
use c_types::Types;
use decl_judge::{child_at, token_at};
use expr_judge::{NodeRow, expression_at, operand_at, operands_at, take_row};
use expression_rows::SubscriptTokens;
use node_facts::NodeFacts;
use sparse_model::FailureList;
use std::alloc::AllocError;
use whole_rows::{ConstAggregates, judge_whole_assignment, judge_whole_subscript};

/// The row of a subscript, whose element has a size.
pub fn subscript(
    unit: &Unit,
    types: &mut Types,
    facts: &NodeFacts,
    found: &mut FailureList,
    handle: Handle,
) -> Result<NodeRow, AllocError>
    requires whole { unit.now.first ≡ 0 }
    requires ids { All (IsKnownNodeFact types.old) facts.now }
    ensures { (surroundings : List Surrounding) → IfOk result (λ row. Tells types.old types.new found.old found.new row (whole_row_of (aggregates_in types.old) (nodes_of unit.now) surroundings (nodes_seen types.old facts.now) handle kinds.Subscript)) }
{
    let first = child_at(unit, handle, 0);
    let second = child_at(unit, handle, 1);
    let (left, right) = operands_at(types, facts, first, second)?;
    let tokens = SubscriptTokens {
        token: token_at(unit, handle),
        first: token_at(unit, first),
        second: token_at(unit, second),
    };
    let row = judge_whole_subscript(types, tokens, left, right);
    take_row(row, found)
}

/// The row of an assignment, whose place is complete and has no const member.
pub fn assignment(
    unit: &Unit,
    types: &mut Types,
    consts: &ConstAggregates,
    facts: &NodeFacts,
    found: &mut FailureList,
    handle: Handle,
) -> Result<NodeRow, AllocError>
    requires whole { unit.now.first ≡ 0 }
    requires ids { All (IsKnownNodeFact types.old) facts.now }
    requires bodies { AreKnownBodies types.old }
    requires consts { AreConst types.old consts.now }
    ensures { (surroundings : List Surrounding) → IfOk result (λ row. Tells types.old types.new found.old found.new row (whole_row_of (aggregates_in types.old) (nodes_of unit.now) surroundings (nodes_seen types.old facts.now) handle kinds.Assignment)) }
{
    let first = child_at(unit, handle, 0);
    let second = child_at(unit, handle, 1);
    let right = operand_at(types, facts, second)?;
    let left = expression_at(facts, first);
    let token = token_at(unit, handle);
    let standing = token_at(unit, second);
    let row = judge_whole_assignment(types, consts, token, standing, left, right)?;
    take_row(row, found)
}
