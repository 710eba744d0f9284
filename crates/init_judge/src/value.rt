// A leaf that its part takes by its value (C11 6.7.9 p11, p13): what is known of it is looked up by its handle.
ghost use Rattle.std.specs.Prelude.{◌≡◌, All, IfOk, OnOk, option_map};
ghost use Rattle.meaning_typing.specs.Facts.{fact_at};
ghost use Rattle.meaning_typing.specs.Units as units;
ghost use Rattle.c_types.specs.Table.{IsTypeId};
ghost use Rattle.decl_judge.specs.Units.{nodes_of};
ghost use Rattle.node_facts.specs.Facts.{IsKnownNodeFact, nodes_seen};
ghost use Rattle.node_facts.specs.Growing.{TypesJoin};
ghost use Rattle.expression_rows.specs.Arguments.{Appends};
ghost use Rattle.expression_rows.specs.Rows.{broken_seen};
ghost use Rattle.leaf_rows.specs.Leaves.{leaf_told};
ghost use Rattle.initializer_levels.specs.Parts.{type_seen};

use c_tree::Unit;
use c_types::Types;
use decl_judge::token_at;
use expr_judge::{append, operand_at};
use expression_rows::Broken;
use initializer_levels::Placed;
use leaf_rows::judge_leaf;
use node_facts::NodeFacts;
use sparse_model::FailureList;
use std::alloc::AllocError;

/// The least constraint that such a leaf breaks. The rule that fails is appended.
pub fn judge_value(
    unit: &Unit,
    types: &mut Types,
    facts: &NodeFacts,
    is_static: bool,
    placed: Placed,
    found: &mut FailureList,
) -> Result<Option<Broken>, AllocError>
    requires whole { unit.now.first ≡ 0 }
    requires facts { All (IsKnownNodeFact types.old) facts.now }
    requires part { IsTypeId types.old placed.of.of }
    ensures broken { IfOk result (λ broken. option_map broken_seen broken ≡ (leaf_told is_static (type_seen types.old placed.of) (units.node_at (nodes_of unit.now) placed.initializer).token (fact_at (nodes_seen types.old facts.now) placed.initializer)).broken) }
    ensures failures { OnOk result (Appends types.new found.old found.new (leaf_told is_static (type_seen types.old placed.of) (units.node_at (nodes_of unit.now) placed.initializer).token (fact_at (nodes_seen types.old facts.now) placed.initializer)).failures) }
    ensures keeps { OnOk result (TypesJoin types.old types.new) }
{
    let part = operand_at(types, facts, placed.initializer)?;
    let token = token_at(unit, placed.initializer);
    let row = judge_leaf(types, is_static, token, part, placed.of.of);
    append(found, row.failure)?;
    Ok(row.broken)
}
