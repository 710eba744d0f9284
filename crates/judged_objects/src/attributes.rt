// Whether an attribute says that a function doesn't return: lists of attributes in, by where they stand; yes or no out.
ghost use Rattle.std.specs.Prelude.{◌≡◌, ◌+◌};
ghost use Rattle.meaning_objects.specs.Carried as meaning;
ghost use Rattle.meaning_typing.specs.Declarators.{leading_lists, lists_behind};
ghost use Rattle.meaning_typing.specs.Specifiers.{attributes_among, attributes_of};
ghost use Rattle.meaning_typing.specs.Units.{children_at, kind_at as kind_of};
ghost use Rattle.decl_judge.specs.Seen.{lists_from};
ghost use Rattle.decl_judge.specs.Units.{handles_of, nodes_of};
ghost use Rattle.judged_objects.specs.Noreturn.{has_noreturn};

use c_tree::{Handle, Unit};
use decl_judge::{attributes_at, kind_at, node_at};
use sparse_model::NodeKind;
use tag_list::TagList;

fn is_noreturn(kind: NodeKind) -> bool
    ensures { result ≡ meaning.is_noreturn_attribute kind }
{
    match kind {
        NodeKind::NoreturnAttribute => true,
        _ => false,
    }
}

// Whether one of these attributes does.
fn among_attributes(unit: &Unit, attributes: &TagList) -> bool
    requires { unit.now.first ≡ 0 }
    ensures { result ≡ has_noreturn (nodes_of unit.now) (handles_of attributes.now) }
{
    for (attribute, _) in attributes.iter() {
        if is_noreturn(kind_at(unit, attribute)) {
            return true;
        }
    }
    false
}

/// Whether one of the attributes of a node does, if it is a list of them.
pub fn in_list(unit: &Unit, handle: Handle) -> bool
    requires { unit.now.first ≡ 0 }
    ensures { result ≡ has_noreturn (nodes_of unit.now) (attributes_of (kind_of (nodes_of unit.now) handle) (children_at (nodes_of unit.now) handle)) }
{
    match attributes_at(unit, handle) {
        Some(attributes) => among_attributes(unit, attributes),
        None => false,
    }
}

// Whether one of those of the lists among children does.
fn among_lists(unit: &Unit, children: &TagList) -> bool
    requires { unit.now.first ≡ 0 }
    ensures { result ≡ has_noreturn (nodes_of unit.now) (attributes_among (nodes_of unit.now) (handles_of children.now)) }
{
    for (child, _) in children.iter() {
        if in_list(unit, child) {
            return true;
        }
    }
    false
}

/// Whether one of those of the lists below a node does.
pub fn in_lists_below(unit: &Unit, handle: Handle) -> bool
    requires { unit.now.first ≡ 0 }
    ensures { result ≡ has_noreturn (nodes_of unit.now) (attributes_among (nodes_of unit.now) (children_at (nodes_of unit.now) handle)) }
{
    match node_at(unit, handle) {
        Some(node) => among_lists(unit, &node.children),
        None => false,
    }
}

/// Whether one of those of a node does, if it stands before a declarator that isn't the first one.
pub fn in_leading(unit: &Unit, handle: Handle) -> bool
    requires { unit.now.first ≡ 0 }
    ensures { result ≡ has_noreturn (nodes_of unit.now) (attributes_among (nodes_of unit.now) (leading_lists (kind_of (nodes_of unit.now) handle) (children_at (nodes_of unit.now) handle))) }
{
    match kind_at(unit, handle) {
        NodeKind::LeadingAttributes => in_lists_below(unit, handle),
        _ => false,
    }
}

// Whether one of those of the lists does that stand one behind the other, directly behind this place.
fn in_lists_after(unit: &Unit, children: &TagList, place: u32) -> bool
    requires { unit.now.first ≡ 0 }
    ensures { result ≡ has_noreturn (nodes_of unit.now) (attributes_among (nodes_of unit.now) (lists_from (nodes_of unit.now) children.now (place + 1))) }
{
    let mut found = false;
    for next in place.saturating_add(1)..children.len() {
        match attributes_at(unit, children.get(next).0) {
            Some(attributes) => found |= among_attributes(unit, attributes),
            None => return found,
        }
    }
    found
}

/// Whether one of those directly behind the child at this place does.
pub fn in_lists_behind(unit: &Unit, parent: Handle, place: u32) -> bool
    requires { unit.now.first ≡ 0 }
    ensures { result ≡ has_noreturn (nodes_of unit.now) (attributes_among (nodes_of unit.now) (lists_behind (nodes_of unit.now) parent place)) }
{
    match node_at(unit, parent) {
        Some(node) => in_lists_after(unit, &node.children, place),
        None => false,
    }
}
