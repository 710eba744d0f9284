// The first node of each node's run, and whether the parts of a node fill its run in the order in which they are written.
ghost use Rattle.std.specs.Prelude.{◌≡◌, ◌<◌, true, All, IfOk, IfSome};
ghost use Rattle.meaning_tree.specs.Nodes.{end_of};
ghost use Rattle.meaning_unit_nodes.specs.Written as meaning;
ghost use Rattle.tag_list.specs.Tagged.{IsTagged};
ghost use Rattle.written_units.specs.Filling.{IsFilled, fills, start_at, suffix_at};
ghost use Rattle.written_units.specs.Order.{AreNamedBelow, AreWritten};

use c_tree::{Handle, Unit};
use sparse_model::NodeKind;
use std::alloc::{AllocError, Global};
use tag_list::TagList;

// An array's size or a parameter list, which is written behind what follows it.
fn is_suffix_kind(kind: NodeKind) -> bool
    ensures { result ≡ meaning.is_suffix_kind kind }
{
    match kind {
        NodeKind::ArrayDeclarator => true,
        NodeKind::FunctionDeclarator => true,
        _ => false,
    }
}

fn suffix_at(unit: &Unit, handle: Handle) -> bool
    requires { unit.now.first ≡ 0 }
    ensures { result ≡ suffix_at unit.now.nodes handle }
{
    handle < unit.len() && is_suffix_kind(unit.kind(handle))
}

// The first node of the run that ends at this one.
fn start_at(starts: &[Handle], handle: Handle) -> Handle
    ensures { result ≡ start_at starts.now handle }
{
    starts.get(handle as usize).copied().unwrap_or(0)
}

// Where the runs of children begin, if they stand together and end before this handle.
fn start_before(starts: &[Handle], children: &TagList, end: Handle) -> Option<Handle> {
    let mut start = end;
    for (child, _) in children.iter() {
        let others = child.checked_sub(start_at(starts, child))?;
        start = start.checked_sub(others)?.checked_sub(1)?;
    }
    Some(start)
}

// Whether the runs of children fill this run, one behind the other, in the order in which they are written.
fn fills(unit: &Unit, starts: &[Handle], children: &TagList, start: Handle, end: Handle) -> bool
    requires { unit.now.first ≡ 0 }
    ensures filled { result ≡ fills unit.now.nodes starts.now start end children.now }
    ensures tagged { All IsTagged children.now }
{
    let mut low = start;
    let mut high = end;
    for (child, _) in children.iter() {
        if child >= high {
            return false;
        }
        let first = start_at(starts, child);
        if suffix_at(unit, child) {
            if child + 1 != high {
                return false;
            }
            high = first;
        } else {
            if first != low {
                return false;
            }
            low = child + 1;
        }
    }
    low == high
}

// The first node of the run that ends at a node, if its parts fill the run.
fn start_of(unit: &Unit, starts: &[Handle], handle: Handle) -> Option<Handle>
    requires whole { unit.now.first ≡ 0 }
    requires within { handle < end_of unit.now }
    ensures { IfSome result (λ start. IsFilled unit.now.nodes starts.now start handle) }
{
    let children = unit.children(handle);
    let start = start_before(starts, children, handle)?;
    if fills(unit, starts, children, start, handle) {
        Some(start)
    } else {
        None
    }
}

/// Whether the nodes of a unit are those of its tree in the order in which they are written, and the ids of their names are below this
/// bound. It takes a few steps for each node and each part, and four bytes for each node.
///
/// # Errors
/// Want of memory.
pub fn is_written(alloc: Global, unit: &Unit, names: u32) -> Result<bool, AllocError>
    requires { unit.now.first ≡ 0 }
    ensures written { IfOk result (λ yes. yes ≡ true → AreWritten unit.now) }
    ensures named { IfOk result (λ yes. yes ≡ true → AreNamedBelow names unit.now) }
{
    unit.each_node_stands_for_one_tree();
    let mut starts = Vec::with_capacity(alloc, unit.len() as usize)?;
    for handle in 0..unit.len() {
        if unit.node(handle).name.0 >= names {
            return Ok(false);
        }
        let Some(start) = start_of(unit, starts.as_slice(), handle) else {
            return Ok(false);
        };
        starts.push(start)?;
    }
    Ok(starts.last().copied() == Some(0))
}
