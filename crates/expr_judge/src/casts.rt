// The rows of casts, but for their constants (C11 6.5.4).
ghost use Rattle.std.specs.Prelude.{◌≡◌, All, IfOk};
ghost use Rattle.meaning_typing.specs.Operations as operations;
ghost use Rattle.meaning_typing.specs.Typing.{operation_row};
ghost use Rattle.decl_judge.specs.Asked.{named_in};
ghost use Rattle.decl_judge.specs.Units.{nodes_of};
ghost use Rattle.expr_judge.specs.Rows.{Tells};
ghost use Rattle.node_facts.specs.Facts.{IsKnownNodeFact, nodes_seen};

use crate::parts::operand_at;
use crate::row::{NodeRow, take_row};
use c_tree::{Handle, Unit};
use c_types::Types;
use decl_judge::{child_at, is_forced, token_at};
use expression_rows::judge_cast;
use node_facts::{NodeFact, NodeFacts};
use sparse_model::{FailureList, TypeId};
use std::alloc::AllocError;

// The type that a name of a type names, if it is known.
fn named_by(fact: NodeFact) -> Option<TypeId>
    ensures { result ≡ named_in fact }
{
    match fact {
        NodeFact::NamedType(of) => Some(of),
        _ => None,
    }
}

/// The row of a cast.
pub fn cast(
    unit: &Unit,
    types: &mut Types,
    facts: &NodeFacts,
    found: &mut FailureList,
    handle: Handle,
) -> Result<NodeRow, AllocError>
    requires whole { unit.now.first ≡ 0 }
    requires known { All (IsKnownNodeFact types.old) facts.now }
    ensures { IfOk result (λ row. Tells types.old types.new found.old found.new row (operation_row (nodes_of unit.now) (nodes_seen types.old facts.now) handle operations.CastOperation)) }
{
    let name = child_at(unit, handle, 0);
    let forced = is_forced(unit, name);
    let operand = operand_at(types, facts, child_at(unit, handle, 1))?;
    let named = named_by(facts.at(name));
    let token = token_at(unit, handle);
    let row = judge_cast(types, token, forced, named, operand)?;
    take_row(row, found)
}
