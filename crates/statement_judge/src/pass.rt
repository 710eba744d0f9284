// The pass over a unit that says what stands above each node, from its last node to its first.
ghost use Rattle.std.specs.Prelude.{◌≡◌, ◌<◌, IfOk, OnOk, length, slice_set};
ghost use Rattle.decl_judge.specs.Units.{nodes_of};
ghost use Rattle.node_surroundings.specs.Seen.{surrounding_seen, surroundings_seen};
ghost use Rattle.statement_judge.specs.Enclosing.{AreEnclosings, enclosing_next};

use crate::enclosing::Enclosing;
use crate::enclosings::Enclosings;
use c_tree::{Handle, Unit};
use decl_judge::kind_at;
use node_surroundings::{Surrounding, Surroundings};
use std::alloc::{AllocError, Global};

// What stands above a node, by what stands above the one that it stands in.
fn enclosing_of(
    unit: &Unit,
    enclosings: &Enclosings,
    handle: Handle,
    surrounding: Surrounding,
) -> Enclosing
    requires whole { unit.now.first ≡ 0 }
    ensures { result ≡ enclosing_next (nodes_of unit.now) (surrounding_seen surrounding) handle enclosings.now }
{
    let parent = surrounding.parent;
    if handle < parent {
        enclosings
            .at(parent)
            .under(kind_at(unit, parent), parent, surrounding.place)
    } else {
        Enclosing::nothing()
    }
}

// Says what stands above one node.
fn enclose(
    unit: &Unit,
    enclosings: &mut Enclosings,
    handle: Handle,
    surrounding: Surrounding,
) -> Result<(), AllocError>
    requires whole { unit.now.first ≡ 0 }
    requires node { handle < length enclosings.old }
    ensures { OnOk result (enclosings.new ≡ slice_set enclosings.old handle (enclosing_next (nodes_of unit.now) (surrounding_seen surrounding) handle enclosings.old)) }
{
    let enclosing = enclosing_of(unit, enclosings, handle, surrounding);
    enclosings.set(handle, surrounding.parent, enclosing)
}

/// What stands above each node of a unit, by its handle. A node costs a few steps.
///
/// # Errors
/// Want of memory.
pub fn enclosings_of(
    alloc: Global,
    unit: &Unit,
    surroundings: &Surroundings,
) -> Result<Enclosings, AllocError>
    requires whole { unit.now.first ≡ 0 }
    requires surroundings { length surroundings.now ≡ length unit.now.nodes }
    ensures exact { IfOk result (AreEnclosings (nodes_of unit.now) (surroundings_seen surroundings.now)) }
    ensures all { IfOk result (λ enclosings. length enclosings ≡ length unit.now.nodes) }
{
    let count = unit.len();
    let mut enclosings = Enclosings::filled(alloc, count)?;
    for handle in (0..count).rev() {
        enclose(unit, &mut enclosings, handle, surroundings.get(handle))?;
    }
    Ok(enclosings)
}
