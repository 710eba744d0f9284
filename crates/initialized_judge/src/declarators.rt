// The declarator that an initializer belongs to: the last one before it.
ghost use Rattle.std.specs.Prelude.{◌≡◌};
ghost use Rattle.meaning_initialized.specs.Initialized as meaning;
ghost use Rattle.decl_judge.specs.Units.{nodes_of};
ghost use Rattle.node_surroundings.specs.Seen.{surrounding_seen};

use c_tree::{Handle, Unit};
use decl_judge::{child_at, kind_at};
use node_surroundings::Surrounding;
use sparse_model::NodeKind;

fn is_declarator(kind: NodeKind) -> bool
    ensures { result ≡ meaning.is_declarator kind }
{
    match kind {
        NodeKind::Declarator => true,
        _ => false,
    }
}

/// The last declarator before what stands so; where there is none, a handle that no node has. Between both stand lists of attributes
/// alone in a unit that was read, and it takes a step for each.
pub fn declarator_before(unit: &Unit, surrounding: Surrounding) -> Handle
    requires { unit.now.first ≡ 0 }
    ensures { result ≡ meaning.declarator_before (nodes_of unit.now) (surrounding_seen surrounding) }
{
    let mut place = surrounding.place;
    'parts: while place > 0 {
        place -= 1;
        let part = child_at(unit, surrounding.parent, place);
        if is_declarator(kind_at(unit, part)) {
            return part;
        }
    }
    unit.len()
}
