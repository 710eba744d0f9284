// What is read of initializers by their handles: whether they are in braces, and whether an object takes them whole
// (C11 6.7.9 p11, p13, p14, p20).
ghost use Rattle.std.specs.Prelude.{◌≡◌, All, List, is_some, option_map};
ghost use Rattle.meaning_types.specs.Types.{TypeTree};
ghost use Rattle.meaning_tree.specs.Nodes.{ChildrenStandBefore};
ghost use Rattle.meaning_typing.specs.Facts.{Fact};
ghost use Rattle.meaning_typing.specs.Units as units;
ghost use Rattle.meaning_typing.specs.Units.{unit_list};
ghost use Rattle.meaning_initializers.specs.Parts.{is_string_for, string_before, takes_value, takes_whole};
ghost use Rattle.meaning_initializers.specs.Reading.{elements_of, given_at, initializer_at};
ghost use Rattle.node_facts.specs.Facts.{IsKnownNodeFact, nodes_seen};
ghost use Rattle.decl_judge.specs.Units.{nodes_of};
ghost use Rattle.initializer_levels.specs.Items.{items_left};
ghost use Rattle.initializer_levels.specs.Parts.{IsKnownParts, parts_in, parts_seen};
ghost use Rattle.initializer_levels.specs.Reading.{is_braces, string_told};

use crate::items::ItemList;
use crate::parts::Parts;
use crate::takes::{are_characters, is_value};
use c_tree::{Handle, Unit};
use c_types::Types;
use decl_judge::{kind_at, node_at};
use node_facts::NodeFacts;
use sparse_model::NodeKind;

fn is_braces(kind: NodeKind) -> bool
    ensures { result ≡ is_braces kind }
{
    match kind {
        NodeKind::BracedInitializer => true,
        _ => false,
    }
}

/// Whether the initializer with this handle is in braces.
pub fn is_braced(unit: &Unit, initializer: Handle) -> bool
    requires { unit.now.first ≡ 0 }
    ensures { result ≡ is_braces (units.kind_at (nodes_of unit.now) initializer) }
{
    is_braces(kind_at(unit, initializer))
}

fn number_at(unit: &Unit, handle: Handle) -> u64
    requires { unit.now.first ≡ 0 }
    ensures { result ≡ (units.node_at (nodes_of unit.now) handle).number }
{
    match node_at(unit, handle) {
        Some(node) => node.number,
        None => 0,
    }
}

// How many elements a string literal has.
fn elements_by(unit: &Unit, handle: Handle, kind: NodeKind) -> Option<u64>
    requires { unit.now.first ≡ 0 }
    ensures { result ≡ elements_of (nodes_of unit.now) handle kind }
{
    let number = number_at(unit, handle);
    match kind {
        NodeKind::StringLiteral => Some(number),
        _ => None,
    }
}

/// How many elements the string literal with this handle has, the last zero among them; of another initializer none. It takes no
/// memory, and a few steps.
pub fn elements_of(unit: &Unit, initializer: Handle) -> Option<u64>
    requires { unit.now.first ≡ 0 }
    ensures { result ≡ elements_of (nodes_of unit.now) initializer (units.kind_at (nodes_of unit.now) initializer) }
{
    elements_by(unit, initializer, kind_at(unit, initializer))
}

fn is_string(unit: &Unit, initializer: Handle) -> bool
    requires { unit.now.first ≡ 0 }
    ensures { result ≡ is_some (elements_of (nodes_of unit.now) initializer (units.kind_at (nodes_of unit.now) initializer)) }
{
    elements_of(unit, initializer).is_some()
}

/// Whether a string literal gives an object its elements. It takes no memory, and a few steps.
pub fn is_string_for(unit: &Unit, types: &Types, parts: Parts, initializer: Handle) -> bool
    requires whole { unit.now.first ≡ 0 }
    requires parts { IsKnownParts types.now parts }
    ensures { (facts : List Fact) (type_ : TypeTree) → parts_seen types.now parts ≡ parts_in type_ → result ≡ is_string_for type_ (given_at (nodes_of unit.now) facts initializer) }
{
    let are_characters = are_characters(types, parts);
    let is_string = is_string(unit, initializer);
    are_characters && is_string
}

// Whether an object takes an expression, which is no list, whole.
fn takes_expression(
    unit: &Unit,
    types: &Types,
    facts: &NodeFacts,
    parts: Parts,
    initializer: Handle,
) -> bool
    requires whole { unit.now.first ≡ 0 }
    requires facts { All (IsKnownNodeFact types.now) facts.now }
    requires parts { IsKnownParts types.now parts }
    ensures { (type_ : TypeTree) → parts_seen types.now parts ≡ parts_in type_ → result ≡ takes_value type_ (given_at (nodes_of unit.now) (nodes_seen types.now facts.now) initializer) }
{
    if parts.are_itself() {
        return true;
    }
    if is_string_for(unit, types, parts, initializer) {
        return true;
    }
    is_value(types, parts, facts.at(initializer))
}

/// Whether an object takes the initializer with this handle whole. It takes no memory, and a few steps.
pub fn takes_whole(
    unit: &Unit,
    types: &Types,
    facts: &NodeFacts,
    parts: Parts,
    initializer: Handle,
) -> bool
    requires whole { unit.now.first ≡ 0 }
    requires order { ChildrenStandBefore (unit_list (nodes_of unit.now)) }
    requires facts { All (IsKnownNodeFact types.now) facts.now }
    requires parts { IsKnownParts types.now parts }
    ensures { (type_ : TypeTree) → parts_seen types.now parts ≡ parts_in type_ → result ≡ takes_whole type_ (initializer_at (nodes_of unit.now) (nodes_seen types.now facts.now) initializer) }
{
    let is_braced = is_braced(unit, initializer);
    let takes = takes_expression(unit, types, facts, parts, initializer);
    is_braced || takes
}

/// The string that stands first in braces of an array of characters, by its handle. It takes no memory, and a few steps.
pub fn string_in(unit: &Unit, types: &Types, parts: Parts, items: &ItemList) -> Option<Handle>
    requires whole { unit.now.first ≡ 0 }
    requires order { ChildrenStandBefore (unit_list (nodes_of unit.now)) }
    requires parts { IsKnownParts types.now parts }
    ensures { (facts : List Fact) (type_ : TypeTree) → parts_seen types.now parts ≡ parts_in type_
        → string_before type_ (items_left (nodes_of unit.now) facts items.now) ≡ option_map (string_told (nodes_of unit.now) facts items.now) result }
{
    let next = items.next(unit)?;
    let is_string = is_string_for(unit, types, parts, next.initializer);
    if next.is_designated {
        return None;
    }
    if is_string {
        return Some(next.initializer);
    }
    None
}
