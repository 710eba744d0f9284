// Operands of operators, with the tokens at which they stand.
ghost use Rattle.std.specs.Prelude.{◌≡◌, All, IfOk, OnOk};
ghost use Rattle.decl_judge.specs.Units.{nodes_of};
ghost use Rattle.expr_judge.specs.Operators.{AreOperandsOf, IsOperandOf};
ghost use Rattle.node_facts.specs.Facts.{IsKnownNodeFact, nodes_seen};
ghost use Rattle.node_facts.specs.Growing.{TypesJoin};

use crate::parts::{operand_at, operands_at};
use c_tree::{Handle, Unit};
use c_types::Types;
use decl_judge::{child_at, token_at};
use expression_rows::{BinaryTokens, Valued};
use node_facts::NodeFacts;
use std::alloc::AllocError;

/// The first operand of an operator, and the tokens at which both stand.
#[derive(Clone, Copy)]
pub struct OneOperand {
    pub token: u32,
    pub standing: u32,
    pub operand: Option<Valued>,
}

/// The first two operands of an operator, and the tokens at which all stand.
#[derive(Clone, Copy)]
pub struct TwoOperands {
    pub at: BinaryTokens,
    pub left: Option<Valued>,
    pub right: Option<Valued>,
}

/// The operand of a node.
pub fn operand_of(
    unit: &Unit,
    types: &mut Types,
    facts: &NodeFacts,
    handle: Handle,
) -> Result<OneOperand, AllocError>
    requires whole { unit.now.first ≡ 0 }
    requires known { All (IsKnownNodeFact types.old) facts.now }
    ensures operand { IfOk result (IsOperandOf (nodes_of unit.now) (nodes_seen types.old facts.now) handle types.new) }
    ensures keeps { OnOk result (TypesJoin types.old types.new) }
{
    let child = child_at(unit, handle, 0);
    let operand = operand_at(types, facts, child)?;
    Ok(OneOperand {
        token: token_at(unit, handle),
        standing: token_at(unit, child),
        operand,
    })
}

/// The operands of a node.
pub fn operands_of(
    unit: &Unit,
    types: &mut Types,
    facts: &NodeFacts,
    handle: Handle,
) -> Result<TwoOperands, AllocError>
    requires whole { unit.now.first ≡ 0 }
    requires known { All (IsKnownNodeFact types.old) facts.now }
    ensures operands { IfOk result (AreOperandsOf (nodes_of unit.now) (nodes_seen types.old facts.now) handle types.new) }
    ensures keeps { OnOk result (TypesJoin types.old types.new) }
{
    let first = child_at(unit, handle, 0);
    let second = child_at(unit, handle, 1);
    let (left, right) = operands_at(types, facts, first, second)?;
    let at = BinaryTokens {
        token: token_at(unit, handle),
        first: token_at(unit, first),
        second: token_at(unit, second),
    };
    Ok(TwoOperands { at, left, right })
}
