// The rows of primary expressions that are no names, but for their constants (C11 6.4.4, 6.5.1).
ghost use Rattle.std.specs.Prelude.{◌≡◌, All, IfOk};
ghost use Rattle.meaning_types.specs.Types.{IntegerTree};
ghost use Rattle.meaning_typing.specs.Expressions.{literal_row};
ghost use Rattle.meaning_typing.specs.Rows.{known};
ghost use Rattle.meaning_typing.specs.Specifiers.{plain_type};
ghost use Rattle.meaning_typing.specs.Typing.{part_fact};
ghost use Rattle.decl_judge.specs.Units.{nodes_of};
ghost use Rattle.expr_judge.specs.Rows.{SaysOnly, Tells};
ghost use Rattle.node_facts.specs.Facts.{IsKnownNodeFact, nodes_seen};

use c_tree::{Handle, Unit};
use c_types::Types;
use decl_judge::child_at;
use expr_judge::{NodeRow, take_row};
use expression_rows::judge_literal;
use node_facts::NodeFacts;
use sparse_model::{FailureList, IntKind};
use std::alloc::AllocError;

/// The row of an integer or a character of this kind (6.4.4).
pub fn literal(
    types: &mut Types,
    found: &mut FailureList,
    kind: IntKind,
) -> Result<NodeRow, AllocError>
    ensures { IfOk result (λ row. Tells types.old types.new found.old found.new row (literal_row (plain_type (IntegerTree kind)))) }
{
    let row = judge_literal(types, kind)?;
    take_row(row, found)
}

/// The row of what stands in parentheses (6.5.1 p5).
pub fn parenthesized(unit: &Unit, types: &Types, facts: &NodeFacts, handle: Handle) -> NodeRow
    requires whole { unit.now.first ≡ 0 }
    requires ids { All (IsKnownNodeFact types.now) facts.now }
    ensures { SaysOnly types.now result (known (part_fact (nodes_of unit.now) (nodes_seen types.now facts.now) handle 0)) }
{
    NodeRow::known(facts.at(child_at(unit, handle, 0)))
}
