// Strings that give arrays of characters their elements (C11 6.7.9 p14).
ghost use Rattle.std.specs.Prelude.{◌≡◌, Bool, List, None, ℕ, if◌then◌else◌};
ghost use Rattle.meaning_types.specs.Types.{TypeTree};
ghost use Rattle.meaning_typing.specs.Facts.{Fact};
ghost use Rattle.meaning_typing.specs.Units as units;
ghost use Rattle.meaning_initializers.specs.Parts.{is_string_for};
ghost use Rattle.meaning_initializers.specs.Plans.{is_longer, value_plan};
ghost use Rattle.meaning_initializers.specs.Reading.{elements_of, given_at};
ghost use Rattle.c_types.specs.Table.{TypeTable};
ghost use Rattle.decl_judge.specs.Units.{nodes_of};
ghost use Rattle.initializer_levels.specs.Parts.{IsKnownParts, parts_in, parts_seen};

use c_tree::{Handle, Unit};
use c_types::Types;
use decl_judge::{kind_at, node_at};
use initializer_levels::{Parts, are_characters};
use sparse_model::NodeKind;

fn number_at(unit: &Unit, handle: Handle) -> u64
    requires { unit.now.first ≡ 0 }
    ensures { result ≡ (units.node_at (nodes_of unit.now) handle).number }
{
    match node_at(unit, handle) {
        Some(node) => node.number,
        None => 0,
    }
}

// How many elements a string literal has, of which this number is kept; another node has none.
fn elements_by(unit: &Unit, handle: Handle, kind: NodeKind) -> Option<u64>
    requires { unit.now.first ≡ 0 }
    ensures { result ≡ elements_of (nodes_of unit.now) handle kind }
{
    let number = number_at(unit, handle);
    match kind {
        NodeKind::StringLiteral => Some(number),
        _ => None,
    }
}

/// How many elements a string literal gives an object, if the object takes it so; its last zero is among them.
pub fn elements_for(unit: &Unit, types: &Types, parts: Parts, initializer: Handle) -> Option<u64>
    requires whole { unit.now.first ≡ 0 }
    requires parts { IsKnownParts types.now parts }
    ensures { (facts : List Fact) (type_ : TypeTree) → parts_seen types.now parts ≡ parts_in type_ → result ≡ (if is_string_for type_ (given_at (nodes_of unit.now) facts initializer) then (given_at (nodes_of unit.now) facts initializer).elements else None) }
{
    let elements = elements_by(unit, initializer, kind_at(unit, initializer));
    if are_characters(types, parts) {
        elements
    } else {
        None
    }
}

/// Whether a string of so many elements is longer than its array, where its last zero may be missing.
pub fn is_longer(elements: u64, parts: Parts) -> bool
    ensures { (table : TypeTable) (type_ : TypeTree) → parts_seen table parts ≡ parts_in type_ → result ≡ is_longer elements type_ }
{
    match parts {
        Parts::Elements(_, Some(length)) => length < elements.saturating_sub(1),
        Parts::Elements(_, None) => false,
        Parts::Members(_, _) => false,
        Parts::Itself => false,
    }
}

/// The length that an expression gives an array without one, if the object takes it: that of a string.
pub fn length_of(unit: &Unit, types: &Types, parts: Parts, initializer: Handle) -> u64
    requires whole { unit.now.first ≡ 0 }
    requires parts { IsKnownParts types.now parts }
    ensures { (facts : List Fact) (is_static : Bool) (type_ : TypeTree) (path : List ℕ) (is_moved : Bool) → parts_seen types.now parts ≡ parts_in type_
        → result ≡ (value_plan is_static type_ path is_moved (given_at (nodes_of unit.now) facts initializer)).length }
{
    match elements_for(unit, types, parts, initializer) {
        None => 0,
        Some(elements) => {
            if is_longer(elements, parts) {
                0
            } else {
                elements
            }
        }
    }
}
