// Specifiers of enumerations by their nodes (C11 6.7.2.2 p4, 6.7.2.3): with enumerators between braces, or named without them.
ghost use Rattle.std.specs.Prelude.{◌≡◌, ◌<◌, All, IfOk, OnOk, length};
ghost use Rattle.meaning_tree.specs.Nodes.{end_of};
ghost use Rattle.meaning_typing.specs.Tags as tags_meant;
ghost use Rattle.meaning_typing.specs.WholeTyping as meaning;
ghost use Rattle.decl_judge.specs.Units.{nodes_of};
ghost use Rattle.enum_rows.specs.Rows.{IsKnownRow, row_seen};
ghost use Rattle.expr_judge.specs.Rows.{Tells};
ghost use Rattle.expression_rows.specs.Rows.{told};
ghost use Rattle.node_facts.specs.Facts.{IsKnownNodeFact, nodes_seen};
ghost use Rattle.node_facts.specs.Growing.{TypesJoin};
ghost use Rattle.tag_rows.specs.Kept.{StandsFor};

use crate::enumerators::enumerators_of;
use crate::taken::{take_enumeration, with_tag};
use body_members::has_body;
use c_tree::{Handle, Unit};
use c_types::Types;
use decl_judge::token_at;
use enum_rows::{EnumRow, judge_enumeration};
use expr_judge::{NodeRow, append};
use node_facts::NodeFacts;
use sparse_model::FailureList;
use std::alloc::AllocError;
use tag_rows::{TagsSeen, enumeration_named, tag_broken};

// But for its tag.
fn enumeration_row(
    unit: &Unit,
    tags: &TagsSeen,
    types: &mut Types,
    facts: &NodeFacts,
    handle: Handle,
) -> Result<EnumRow, AllocError>
    requires whole { unit.now.first ≡ 0 }
    requires node { handle < end_of unit.now }
    requires tags { StandsFor (nodes_of unit.now) tags.now }
    requires next { length facts.now ≡ handle }
    requires facts { All (IsKnownNodeFact types.old) facts.now }
    ensures row { IfOk result (λ row. row_seen types.new row ≡ told (meaning.enum_specifier_row (nodes_of unit.now) (nodes_seen types.old facts.now) handle)) }
    ensures known { IfOk result (IsKnownRow types.new) }
    ensures keeps { OnOk result (TypesJoin types.old types.new) }
{
    if has_body(unit, handle) {
        let enumerators = enumerators_of(unit, types, facts, handle);
        return judge_enumeration(types, token_at(unit, handle), enumerators);
    }
    let fact = enumeration_named(unit, tags, facts, types, handle)?;
    Ok(EnumRow::known(fact))
}

/// The row of the specifier of an enumeration with this handle: by its enumerators, or, where it is named without them, by the body
/// that was told before; B2 is appended where restricted and other enumerators stand side by side. It takes a few steps, and one for
/// each child and for each list of attributes of an enumerator.
pub fn enumeration(
    unit: &Unit,
    tags: &TagsSeen,
    types: &mut Types,
    facts: &NodeFacts,
    found: &mut FailureList,
    handle: Handle,
) -> Result<NodeRow, AllocError>
    requires whole { unit.now.first ≡ 0 }
    requires node { handle < end_of unit.now }
    requires tags { StandsFor (nodes_of unit.now) tags.now }
    requires next { length facts.now ≡ handle }
    requires facts { All (IsKnownNodeFact types.old) facts.now }
    ensures { IfOk result (λ row. Tells types.old types.new found.old found.new row (meaning.row_of_tag (tags_meant.tag_broken (nodes_of unit.now) handle) (meaning.enum_specifier_row (nodes_of unit.now) (nodes_seen types.old facts.now) handle))) }
{
    let broken = tag_broken(unit, tags, handle)?;
    let row = enumeration_row(unit, tags, types, facts, handle)?;
    append(found, row.failure)?;
    Ok(with_tag(broken, take_enumeration(row)))
}
