// Whether `force` stands in a name of a type.
ghost use Rattle.std.specs.Prelude.{◌≡◌};
ghost use Rattle.meaning_typing.specs.Casts as meaning;
ghost use Rattle.meaning_typing.specs.Specifiers.{attributes_among, attributes_of};
ghost use Rattle.meaning_typing.specs.Units.{children_at, kind_at as kind_of};
ghost use Rattle.decl_judge.specs.Force.{attributes_of_parts, has_force};
ghost use Rattle.decl_judge.specs.Units.{handles_of, nodes_of};

use crate::marks::attributes_at;
use crate::nodes::{child_at, kind_at, node_at};
use c_tree::{Handle, Unit};
use sparse_model::NodeKind;
use tag_list::TagList;

fn is_force(kind: NodeKind) -> bool
    ensures { result ≡ meaning.is_force kind }
{
    match kind {
        NodeKind::ForceAttribute => true,
        _ => false,
    }
}

// Whether it is one of these attributes.
fn has_force(unit: &Unit, attributes: &TagList) -> bool
    requires { unit.now.first ≡ 0 }
    ensures { result ≡ has_force (nodes_of unit.now) (handles_of attributes.now) }
{
    for (attribute, _) in attributes.iter() {
        if is_force(kind_at(unit, attribute)) {
            return true;
        }
    }
    false
}

// Whether a node is a list of attributes with it.
fn list_has_force(unit: &Unit, handle: Handle) -> bool
    requires { unit.now.first ≡ 0 }
    ensures { result ≡ has_force (nodes_of unit.now) (attributes_of (kind_of (nodes_of unit.now) handle) (children_at (nodes_of unit.now) handle)) }
{
    match attributes_at(unit, handle) {
        Some(attributes) => has_force(unit, attributes),
        None => false,
    }
}

// Whether one of the lists among children has it.
fn force_among(unit: &Unit, children: &TagList) -> bool
    requires { unit.now.first ≡ 0 }
    ensures { result ≡ has_force (nodes_of unit.now) (attributes_among (nodes_of unit.now) (handles_of children.now)) }
{
    for (child, _) in children.iter() {
        if list_has_force(unit, child) {
            return true;
        }
    }
    false
}

// Whether one of the lists among the children of a node has it.
fn force_below(unit: &Unit, handle: Handle) -> bool
    requires { unit.now.first ≡ 0 }
    ensures { result ≡ has_force (nodes_of unit.now) (attributes_among (nodes_of unit.now) (children_at (nodes_of unit.now) handle)) }
{
    match node_at(unit, handle) {
        Some(node) => force_among(unit, &node.children),
        None => false,
    }
}

// Whether one of the lists in the parts of a declarator has it.
fn force_in_parts(unit: &Unit, parts: &TagList) -> bool
    requires { unit.now.first ≡ 0 }
    ensures { result ≡ has_force (nodes_of unit.now) (attributes_of_parts (nodes_of unit.now) (handles_of parts.now)) }
{
    for (part, _) in parts.iter() {
        if force_below(unit, part) {
            return true;
        }
    }
    false
}

// Whether one of those in the parts of the declarator with this handle has it.
fn force_in_declarator(unit: &Unit, handle: Handle) -> bool
    requires { unit.now.first ≡ 0 }
    ensures { result ≡ has_force (nodes_of unit.now) (attributes_of_parts (nodes_of unit.now) (children_at (nodes_of unit.now) handle)) }
{
    match node_at(unit, handle) {
        Some(node) => force_in_parts(unit, &node.children),
        None => false,
    }
}

/// Whether `force` stands among the specifiers of a name of a type, or in the parts of its declarator. It takes a step for
/// each attribute there.
pub fn is_forced(unit: &Unit, name: Handle) -> bool
    requires { unit.now.first ≡ 0 }
    ensures { result ≡ meaning.is_forced (nodes_of unit.now) name }
{
    force_below(unit, child_at(unit, name, 0)) || force_in_declarator(unit, child_at(unit, name, 1))
}
