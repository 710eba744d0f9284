// Whether each name in a unit is linked with what declares it.
ghost use Rattle.std.specs.Prelude.{◌≡◌, ◌<◌, true};
ghost use Rattle.meaning_tree.specs.Nodes.{end_of};
ghost use Rattle.meaning_unit_nodes.specs.Linked as meaning;
ghost use Rattle.written_units.specs.Linking.{IsLinkedAt};

use c_tree::{Handle, Unit};
use sparse_model::NodeKind;

// An object, a function, a type or a constant is declared by it.
fn is_declaring(kind: NodeKind) -> bool
    ensures { result ≡ meaning.is_declaring kind }
{
    matches!(kind, NodeKind::Declarator | NodeKind::Enumerator)
}

// Whether a node is no name, or its number is the handle of what declares it.
fn is_linked(unit: &Unit, handle: Handle) -> bool
    requires whole { unit.now.first ≡ 0 }
    requires within { handle < end_of unit.now }
    ensures { result ≡ true → IsLinkedAt unit.now.nodes handle }
{
    let name = unit.node(handle);
    if name.kind != NodeKind::Name {
        return true;
    }
    if name.number >= u64::from(handle) {
        return false;
    }
    let declaration = unit.node(name.number as u32);
    is_declaring(declaration.kind) && declaration.name == name.name
}

/// Whether the number of each name is the handle of a node that stands before it and declares this name. It takes a few steps for each
/// node.
pub fn are_linked(unit: &Unit) -> bool
    requires { unit.now.first ≡ 0 }
    ensures { result ≡ true → meaning.AreLinked unit.now.nodes }
{
    for handle in 0..unit.len() {
        if !is_linked(unit, handle) {
            return false;
        }
    }
    true
}
