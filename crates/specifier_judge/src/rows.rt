// The row of each node by its kind.
ghost use Rattle.std.specs.Prelude.{◌≡◌, ◌≢◌, ◌<◌, IfOk, length, true};
ghost use Rattle.vocabulary.specs.declared.node_kind.NodeKind.TheVariants as kinds;
ghost use Rattle.meaning_tree.specs.Nodes.{end_of};
ghost use Rattle.meaning_typing.specs.Aggregates.{KnownAggregates};
ghost use Rattle.meaning_typing.specs.Units.{kind_at as kind_of};
ghost use Rattle.meaning_typing.specs.WholeTyping.{whole_row_by, whole_row_of};
ghost use Rattle.c_types.specs.Layouts.{told_in};
ghost use Rattle.decl_judge.specs.Units.{nodes_of};
ghost use Rattle.expr_judge.specs.Rows.{Tells};
ghost use Rattle.node_facts.specs.Facts.{nodes_seen};
ghost use Rattle.node_surroundings.specs.Seen.{surroundings_seen};
ghost use Rattle.tag_rows.specs.Kept.{StandsFor};
ghost use Rattle.specifier_judge.specs.Kinds.{is_of_specifiers};
ghost use Rattle.specifier_judge.specs.Known.{IsKnownBefore};

use crate::aggregates::aggregate;
use crate::enumeration::enumeration;
use crate::enumerator::enumerator;
use crate::loaded::{as_loaded, is_for_value};
use crate::names::{type_name, typedef_name, typeof_expression, typeof_name};
use crate::specifiers::specifiers;
use c_tree::{Handle, Unit};
use c_types::Types;
use decl_judge::{kind_at, token_at};
use expr_judge::NodeRow;
use node_facts::NodeFacts;
use node_surroundings::Surroundings;
use sparse_model::{FailureList, NodeKind};
use std::alloc::{AllocError, Global};
use tag_rows::TagsSeen;

// Of one that is no enumerator, but that it has no constant, and for what is loaded.
fn row_of_kind(
    alloc: Global,
    unit: &Unit,
    surroundings: &Surroundings,
    tags: &TagsSeen,
    types: &mut Types,
    facts: &NodeFacts,
    found: &mut FailureList,
    handle: Handle,
    kind: NodeKind,
) -> Result<NodeRow, AllocError>
    requires whole { unit.now.first ≡ 0 }
    requires node { handle < end_of unit.now }
    requires kind { kind_of (nodes_of unit.now) handle ≡ kind }
    requires specifies { is_of_specifiers kind ≡ true }
    requires other { kind ≢ kinds.Enumerator }
    requires surroundings { length surroundings.now ≡ length unit.now.nodes }
    requires tags { StandsFor (nodes_of unit.now) tags.now }
    requires known { IsKnownBefore (nodes_of unit.now) (surroundings_seen surroundings.now) types.old facts.now handle }
    ensures { (aggregates : KnownAggregates) → IfOk result (λ row. Tells types.old types.new found.old found.new row (whole_row_of aggregates (nodes_of unit.now) (surroundings_seen surroundings.now) (nodes_seen types.old facts.now) handle kind)) }
{
    match kind {
        NodeKind::Specifiers => specifiers(unit, types, facts, handle),
        NodeKind::StructSpecifier => aggregate(
            alloc,
            unit,
            surroundings,
            tags,
            types,
            facts,
            handle,
            false,
        ),
        NodeKind::UnionSpecifier => aggregate(
            alloc,
            unit,
            surroundings,
            tags,
            types,
            facts,
            handle,
            true,
        ),
        NodeKind::EnumSpecifier => enumeration(unit, tags, types, facts, found, handle),
        NodeKind::TypedefName => Ok(typedef_name(unit, facts, handle)),
        NodeKind::TypeofType => Ok(typeof_name(unit, facts, handle)),
        NodeKind::TypeofExpression => Ok(typeof_expression(unit, facts, handle)),
        _ => Ok(type_name(unit, facts, handle)),
    }
}

/// The row of specifiers, of one that names a type, of an enumerator, or of a name of a type, over what is known of the nodes before
/// it and what the table was told of aggregates: what is known of it, the least constraint that it breaks, and the token at which an
/// object of it is too large. The rules that fail are appended. Types join the table, and nothing else of it changes: a body is told
/// by who calls. It takes a few steps, and one for each part; a specifier of a structure or a union takes one for each member and for
/// each of its parts too.
///
/// # Errors
/// Want of memory. It stands too for a number of more than 32 bits and for a specifier with two bodies, which no unit has that was
/// read.
pub fn judge_specifier(
    alloc: Global,
    unit: &Unit,
    surroundings: &Surroundings,
    tags: &TagsSeen,
    types: &mut Types,
    facts: &NodeFacts,
    found: &mut FailureList,
    handle: Handle,
) -> Result<NodeRow, AllocError>
    requires whole { unit.now.first ≡ 0 }
    requires node { handle < end_of unit.now }
    requires kind { is_of_specifiers (kind_of (nodes_of unit.now) handle) ≡ true }
    requires surroundings { length surroundings.now ≡ length unit.now.nodes }
    requires tags { StandsFor (nodes_of unit.now) tags.now }
    requires known { IsKnownBefore (nodes_of unit.now) (surroundings_seen surroundings.now) types.old facts.now handle }
    ensures { (aggregates : KnownAggregates) → aggregates.told ≡ told_in types.old → IfOk result (λ row. Tells types.old types.new found.old found.new row (whole_row_by aggregates (nodes_of unit.now) (surroundings_seen surroundings.now) (nodes_seen types.old facts.now) handle (kind_of (nodes_of unit.now) handle))) }
{
    let surrounding = surroundings.get(handle);
    let kind = kind_at(unit, handle);
    match kind {
        NodeKind::Enumerator => enumerator(unit, types, facts, found, handle, surrounding),
        _ => {
            let row = row_of_kind(
                alloc,
                unit,
                surroundings,
                tags,
                types,
                facts,
                found,
                handle,
                kind,
            )?;
            let is_valued = is_for_value(surrounding.want);
            Ok(as_loaded(types, token_at(unit, handle), is_valued, row))
        }
    }
}
