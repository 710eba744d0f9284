// The pass over the nodes of a unit, from the first to the last.
ghost use Rattle.std.specs.Prelude.{◌≡◌, IfOk, length};
ghost use Rattle.c_types.specs.Table.{TypeTable};
ghost use Rattle.decl_judge.specs.Units.{nodes_of};
ghost use Rattle.node_facts.specs.Facts.{nodes_seen};
ghost use Rattle.node_surroundings.specs.Seen.{surroundings_seen};
ghost use Rattle.judged_objects.specs.Kept.{AreObjects};

use crate::objects::JudgedObjects;
use c_tree::Unit;
use node_facts::NodeFacts;
use node_surroundings::Surroundings;
use std::alloc::{AllocError, Global};

/// The objects and functions of a unit, of whose nodes this is known, over any table of types: of each declarator its object, which
/// contexts this has, and whether it returns, are those of the definition. A node takes a few steps, and one for each attribute of
/// what it declares.
///
/// # Errors
/// Want of memory, for which contexts are taken too whose sum doesn't fit in 63 bits.
pub fn objects_of(
    alloc: Global,
    unit: &Unit,
    surroundings: &Surroundings,
    facts: &NodeFacts,
) -> Result<JudgedObjects, AllocError>
    requires whole { unit.now.first ≡ 0 }
    requires surroundings { length surroundings.now ≡ length unit.now.nodes }
    requires facts { length facts.now ≡ length unit.now.nodes }
    ensures { IfOk result (λ objects. (table : TypeTable) → AreObjects (nodes_of unit.now) (surroundings_seen surroundings.now) (nodes_seen table facts.now) objects) }
{
    let mut objects = JudgedObjects::new(alloc);
    for handle in 0..unit.len() {
        objects.add(unit, handle, surroundings.get(handle), facts.at(handle))?;
    }
    Ok(objects)
}
