// Sums of contexts, to which one is added after the other.
ghost use Rattle.std.specs.Prelude.{◌≡◌, ◌+◌, IfOk, option_map};
ghost use Rattle.meaning_typing.specs.ContextSums as meaning;
ghost use Rattle.meaning_typing.specs.Units.{child_at as child_of, kind_at as kind_of, node_at as node_of_unit};
ghost use Rattle.decl_judge.specs.Units.{nodes_of};
ghost use Rattle.linked_names.specs.Contexts.{sums_of};

use c_tree::{Handle, Unit};
use decl_judge::{child_at, kind_at, node_at};
use linked_names::ContextSums;
use sparse_model::NodeKind;
use std::alloc::AllocError;

// A sum that doesn't fit in 64 bits is want of memory: a unit has too few contexts for one.
fn added(one: u64, other: u64) -> Result<u64, AllocError>
    ensures { IfOk result (λ sum. sum ≡ one + other) }
{
    match one.checked_add(other) {
        Some(sum) => Ok(sum),
        None => Err(AllocError),
    }
}

// One context more.
fn with_context(
    sums: Option<ContextSums>,
    enters: u64,
    leaves: u64,
) -> Result<ContextSums, AllocError>
    ensures { IfOk result (λ more. sums_of more ≡ meaning.sums_with enters leaves (option_map sums_of sums)) }
{
    match sums {
        Some(before) => Ok(ContextSums {
            enters: added(enters, before.enters)?,
            leaves: added(leaves, before.leaves)?,
        }),
        None => Ok(ContextSums { enters, leaves }),
    }
}

// The number of the part at this place.
fn number_below(unit: &Unit, handle: Handle, place: u32) -> u64
    requires { unit.now.first ≡ 0 }
    ensures { result ≡ (node_of_unit (nodes_of unit.now) (child_of (nodes_of unit.now) handle place)).number }
{
    match node_at(unit, child_at(unit, handle, place)) {
        Some(node) => node.number,
        None => 0,
    }
}

/// One attribute more.
pub fn with_attribute(
    unit: &Unit,
    sums: Option<ContextSums>,
    handle: Handle,
) -> Result<Option<ContextSums>, AllocError>
    requires { unit.now.first ≡ 0 }
    ensures { IfOk result (λ more. option_map sums_of more ≡ meaning.sums_before (nodes_of unit.now) (kind_of (nodes_of unit.now) handle) handle (option_map sums_of sums)) }
{
    match kind_at(unit, handle) {
        NodeKind::ContextAttribute => {
            let enters = number_below(unit, handle, 0);
            let leaves = number_below(unit, handle, 1);
            let more = with_context(sums, enters, leaves)?;
            Ok(Some(more))
        }
        _ => Ok(sums),
    }
}
