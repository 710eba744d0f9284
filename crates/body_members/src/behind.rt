// The attributes directly behind a body, which are of its structure or union: nodes in, whether it is packed and the alignment
// that is written out. Members aren't known here.
ghost use Rattle.std.specs.Prelude.{◌≡◌, ◌+◌, ◌||◌, max};
ghost use Rattle.meaning_typing.specs.Declarators.{lists_behind};
ghost use Rattle.meaning_typing.specs.MemberDeclarations as meaning;
ghost use Rattle.meaning_typing.specs.Specifiers.{attributes_among};
ghost use Rattle.decl_judge.specs.Seen.{lists_from};
ghost use Rattle.decl_judge.specs.Units.{handles_of, nodes_of};
ghost use Rattle.body_members.specs.Seen.{are_packed};

use crate::alignment::alignment_among;
use c_tree::{Handle, Unit};
use decl_judge::{attributes_at, kind_at, node_at};
use sparse_model::NodeKind;
use tag_list::TagList;

fn is_packed_word(kind: NodeKind) -> bool
    ensures { result ≡ meaning.is_packed_word kind }
{
    match kind {
        NodeKind::PackedAttribute => true,
        _ => false,
    }
}

// Whether `packed` is one of these attributes.
fn is_packed_among(unit: &Unit, attributes: &TagList) -> bool
    requires { unit.now.first ≡ 0 }
    ensures { result ≡ are_packed (nodes_of unit.now) (handles_of attributes.now) }
{
    for (attribute, _) in attributes.iter() {
        if is_packed_word(kind_at(unit, attribute)) {
            return true;
        }
    }
    false
}

// The same of the lists that stand one behind the other, directly behind this place.
fn is_packed_after(unit: &Unit, children: &TagList, place: u32) -> bool
    requires { unit.now.first ≡ 0 }
    ensures { result ≡ are_packed (nodes_of unit.now) (attributes_among (nodes_of unit.now) (lists_from (nodes_of unit.now) children.now (place + 1))) }
{
    for next in place.saturating_add(1)..children.len() {
        match attributes_at(unit, children.get(next).0) {
            Some(attributes) => {
                if is_packed_among(unit, attributes) {
                    return true;
                }
            }
            None => return false,
        }
    }
    false
}

// The alignment that is written in those lists.
fn alignment_after(unit: &Unit, children: &TagList, place: u32) -> u64
    requires { unit.now.first ≡ 0 }
    ensures { result ≡ meaning.alignment_among (nodes_of unit.now) (attributes_among (nodes_of unit.now) (lists_from (nodes_of unit.now) children.now (place + 1))) }
{
    let mut largest = 1;
    for next in place.saturating_add(1)..children.len() {
        match attributes_at(unit, children.get(next).0) {
            Some(attributes) => largest = alignment_among(unit, largest, attributes),
            None => return largest.max(1),
        }
    }
    largest.max(1)
}

/// Whether a specifier at this place below a node is packed by the attributes directly behind it. It takes a step for each of
/// these.
pub fn is_packed_behind(unit: &Unit, parent: Handle, place: u32) -> bool
    requires { unit.now.first ≡ 0 }
    ensures { result ≡ are_packed (nodes_of unit.now) (attributes_among (nodes_of unit.now) (lists_behind (nodes_of unit.now) parent place)) }
{
    match node_at(unit, parent) {
        Some(node) => is_packed_after(unit, &node.children, place),
        None => false,
    }
}

/// The alignment that is written in the attributes directly behind a specifier at this place below a node. It takes a step for
/// each of these.
pub fn alignment_behind(unit: &Unit, parent: Handle, place: u32) -> u64
    requires { unit.now.first ≡ 0 }
    ensures { result ≡ meaning.alignment_among (nodes_of unit.now) (attributes_among (nodes_of unit.now) (lists_behind (nodes_of unit.now) parent place)) }
{
    match node_at(unit, parent) {
        Some(node) => alignment_after(unit, &node.children, place),
        None => 1,
    }
}
