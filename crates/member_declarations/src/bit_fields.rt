// The row of a width by its handle (C11 6.7.2.1 p4, p5): the unit and what is known of its nodes in, the row out. To which declarator
// it belongs is looked up.
ghost use Rattle.std.specs.Prelude.{◌≡◌, ◌<◌, ◌+◌, All, not};
ghost use Rattle.vocabulary.specs.declared.node_kind.NodeKind.TheVariants.{BitFieldWidth};
ghost use Rattle.meaning_tree.specs.Laid.{IsLaid};
ghost use Rattle.meaning_tree.specs.Nodes.{end_of};
ghost use Rattle.meaning_typing.specs.MemberDeclarations.{is_empty};
ghost use Rattle.meaning_typing.specs.MemberRows as meaning;
ghost use Rattle.meaning_typing.specs.Surroundings.{surrounding_at};
ghost use Rattle.meaning_typing.specs.Units.{kind_at as kind_of, node_at as node_of_unit};
ghost use Rattle.node_facts.specs.Facts.{IsKnownNodeFact, node_seen, nodes_seen};
ghost use Rattle.expression_rows.specs.Rows.{told};
ghost use Rattle.decl_judge.specs.Units.{nodes_of};
ghost use Rattle.node_surroundings.specs.Seen.{AreSurroundingsOf, surroundings_seen};
ghost use Rattle.member_declarations.specs.Seen.{row_seen};

use crate::entries::declarator_of_width;
use crate::row::MemberRow;
use crate::widths::judge_width;
use c_tree::{Handle, Unit};
use c_types::Types;
use decl_judge::{child_at, declared_type_at, node_at, token_at};
use node_facts::{NodeFact, NodeFacts};
use node_surroundings::Surroundings;

/// Whether a node has a name.
pub fn has_name(unit: &Unit, handle: Handle) -> bool
    requires { unit.now.first ≡ 0 }
    ensures { result ≡ not (is_empty (node_of_unit (nodes_of unit.now) handle).name) }
{
    match node_at(unit, handle) {
        Some(node) => node.name.0 != 0,
        None => false,
    }
}

// The row of a width of which this is known, behind this declarator.
fn width_behind(
    unit: &Unit,
    types: &Types,
    facts: &NodeFacts,
    declarator: Handle,
    size: NodeFact,
) -> MemberRow
    requires whole { unit.now.first ≡ 0 }
    requires facts { All (IsKnownNodeFact types.now) facts.now }
    requires size { IsKnownNodeFact types.now size }
    ensures row { row_seen types.now result ≡ told (meaning.width_behind (nodes_of unit.now) (nodes_seen types.now facts.now) declarator (node_seen types.now size)) }
    ensures known { IsKnownNodeFact types.now result.fact }
{
    let is_named = has_name(unit, declarator);
    let of = declared_type_at(facts, declarator);
    judge_width(types, token_at(unit, declarator), is_named, of, size)
}

/// The row of the width with this handle: `BadBitField` is broken at the declarator to which it belongs where that is of no integer,
/// or where the number isn't one of bits that the type has, or 0 behind a name; `RestrictedBitField` where the type is restricted.
/// S7 fails for one bit of a signed kind. What is known of it is what is known of its expression. It takes a few steps, and one for
/// each part between the declarator and the width.
pub fn bit_field_row(
    unit: &Unit,
    surroundings: &Surroundings,
    types: &Types,
    facts: &NodeFacts,
    handle: Handle,
) -> MemberRow
    requires whole { unit.now.first ≡ 0 }
    requires laid { IsLaid unit.now }
    requires surroundings { AreSurroundingsOf unit.now surroundings.now }
    requires part { handle + 1 < end_of unit.now }
    requires kind { kind_of (nodes_of unit.now) handle ≡ BitFieldWidth }
    requires facts { All (IsKnownNodeFact types.now) facts.now }
    ensures row { row_seen types.now result ≡ told (meaning.bit_field_row (nodes_of unit.now) (nodes_seen types.now facts.now) handle (surrounding_at (surroundings_seen surroundings.now) handle)) }
    ensures known { IsKnownNodeFact types.now result.fact }
{
    let size = facts.at(child_at(unit, handle, 0));
    match declarator_of_width(unit, surroundings, handle) {
        Some(declarator) => width_behind(unit, types, facts, declarator, size),
        None => MemberRow::known(size),
    }
}
