// The pass over a unit, from its last node to its first.
ghost use Rattle.std.specs.Prelude.{◌≡◌, ◌<◌, All, length, IfOk, OnOk};
ghost use Rattle.meaning_tree.specs.Laid.{IsLaid};
ghost use Rattle.meaning_typing.specs.Surroundings.{of_unit, surrounding_at};
ghost use Rattle.node_surroundings.specs.Parts.{with_parts};
ghost use Rattle.node_surroundings.specs.Seen.{AreSurroundingsOf, surrounding_seen, surroundings_seen};

use crate::asking::{asked, role_of};
use crate::standing::Surroundings;
use crate::surrounding::{Around, Surrounding, Want};
use c_tree::{Handle, Unit};
use sparse_model::NodeKind;
use std::alloc::{AllocError, Global};
use tag_list::TagList;

// A unit stands in nothing.
fn of_unit(root: Handle) -> Surrounding
    ensures { surrounding_seen result ≡ of_unit root }
{
    Surrounding {
        parent: root,
        place: 0,
        want: Want::ForNothing,
        is_evaluated: true,
        around: Around {
            function: None,
            scope: root,
        },
    }
}

// Tells the parts of a node what they stand in.
fn ask_parts(
    surroundings: &mut Surroundings,
    kind: NodeKind,
    handle: Handle,
    children: &TagList,
) -> Result<(), AllocError>
    requires node { handle < length surroundings.old }
    requires before { All (λ child. child.0 < handle) children.now }
    ensures { OnOk result (surroundings_seen surroundings.new
        ≡ with_parts kind handle (surrounding_at (surroundings_seen surroundings.old) handle) 0 children.now (surroundings_seen surroundings.old)) }
{
    let surrounding = surroundings.get(handle);
    let mut place = 0;
    for (child, tag) in children.iter() {
        let part = asked(kind, handle, place, role_of(tag), surrounding);
        surroundings.set(child, part)?;
        place += 1;
    }
    Ok(())
}

/// What each node of a unit stands in, by its handle. A node costs one step, and one more for each of its parts.
///
/// # Errors
/// Want of memory.
pub fn surroundings_of(alloc: Global, unit: &Unit) -> Result<Surroundings, AllocError>
    requires whole { unit.now.first ≡ 0 }
    requires laid { IsLaid unit.now }
    ensures exact { IfOk result (λ surroundings. AreSurroundingsOf unit.now surroundings) }
    ensures all { IfOk result (λ surroundings. length surroundings ≡ length unit.now.nodes) }
{
    unit.each_node_stands_for_one_tree();
    let count = unit.len();
    let root = count.saturating_sub(1);
    let mut surroundings = Surroundings::filled(alloc, count, of_unit(root))?;
    for handle in (0..count).rev() {
        let node = unit.node(handle);
        ask_parts(&mut surroundings, node.kind, handle, &node.children)?;
    }
    Ok(surroundings)
}
