// The rows of widths of bit-fields, and rows of members as they are taken over (C11 6.7.2.1).
ghost use Rattle.std.specs.Prelude.{◌≡◌, ◌<◌, ◌+◌, true, All, IfOk, IfSome, List, length, option_map};
ghost use Rattle.vocabulary.specs.declared.node_kind.NodeKind.TheVariants as kinds;
ghost use Rattle.meaning_tree.specs.Laid.{IsLaid};
ghost use Rattle.meaning_tree.specs.Nodes.{end_of};
ghost use Rattle.meaning_typing.specs.Rows.{Row};
ghost use Rattle.meaning_typing.specs.Units.{kind_at as kind_of};
ghost use Rattle.c_types.specs.Table.{TypeTable};
ghost use Rattle.decl_judge.specs.Units.{nodes_of};
ghost use Rattle.expr_judge.specs.Rows.{Tells};
ghost use Rattle.expression_rows.specs.Rows.{told};
ghost use Rattle.member_declarations.specs.Seen.{row_seen};
ghost use Rattle.node_facts.specs.Facts.{IsKnownNodeFact};
ghost use Rattle.node_surroundings.specs.Seen.{AreSurroundingsOf, surroundings_seen};
ghost use Rattle.node_judge.specs.Members.{NameNoTypes};
ghost use Rattle.node_judge.specs.Rows.{row_over};

use c_tree::{Handle, Unit};
use c_types::Types;
use expr_judge::{NodeRow, append};
use member_declarations::{MemberRow, bit_field_row};
use node_facts::NodeFacts;
use node_surroundings::Surroundings;
use sparse_model::FailureList;
use std::alloc::AllocError;

/// Whether a node is a part of another one: of all nodes of a unit the last alone is none.
pub fn is_part(unit: &Unit, handle: Handle) -> bool
    ensures { result ≡ true → handle + 1 < end_of unit.now }
{
    handle < unit.len().saturating_sub(1)
}

/// Takes over the row of a member or of a width. The rule that fails is appended.
pub fn take_member_row(row: MemberRow, found: &mut FailureList) -> Result<NodeRow, AllocError>
    ensures { (table : TypeTable) (meant : Row) → row_seen table row ≡ told meant → IsKnownNodeFact table row.fact → NameNoTypes meant.failures → IfOk result (λ taken. Tells table table found.old found.new taken meant) }
{
    append(found, row.failure)?;
    Ok(NodeRow {
        fact: row.fact,
        broken: row.broken,
        passed: None,
    })
}

/// The row of the width with this handle. It takes the steps of [`bit_field_row`](member_declarations::bit_field_row). A width that is
/// a unit by itself, which none is that was read, is want of memory.
pub fn bit_field(
    unit: &Unit,
    surroundings: &Surroundings,
    types: &Types,
    facts: &NodeFacts,
    found: &mut FailureList,
    handle: Handle,
) -> Result<NodeRow, AllocError>
    requires whole { unit.now.first ≡ 0 }
    requires laid { IsLaid unit.now }
    requires surroundings { AreSurroundingsOf unit.now surroundings.now }
    requires kind { kind_of (nodes_of unit.now) handle ≡ kinds.BitFieldWidth }
    requires ids { All (IsKnownNodeFact types.now) facts.now }
    ensures { IfOk result (λ row. Tells types.now types.now found.old found.new row (row_over (nodes_of unit.now) (surroundings_seen surroundings.now) types.now facts.now handle kinds.BitFieldWidth)) }
{
    if !is_part(unit, handle) {
        return Err(AllocError);
    }
    let row = bit_field_row(unit, surroundings, types, facts, handle);
    take_member_row(row, found)
}
