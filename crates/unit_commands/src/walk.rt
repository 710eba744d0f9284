// From the root to the last leaf, each node before its parts.
ghost use Rattle.std.specs.Prelude.{◌≡◌, ◌++◌, IfOk, OnOk, reverse};
ghost use Rattle.unit_commands.specs.TreeLines.{handle_line};
ghost use Rattle.unit_commands.specs.Trees.{source_seen};
ghost use Rattle.unit_commands.specs.Walk.{frames_behind, step_text, tree_text};

use crate::source::Source;
use crate::tree_lines::write_line;
use c_tree::Handle;
use std::alloc::{AllocError, Global};

/// A node whose parts are shown, and the place of the part that comes next.
#[derive(Clone, Copy)]
pub struct Frame {
    pub parent: Handle,
    pub place: u32,
}

/// The tree of the last node, a node a line.
pub(crate) fn tree_text(alloc: Global, source: &Source<'_>) -> Result<Vec<u8>, AllocError>
    requires { source.now.unit.now.first ≡ 0 }
    ensures { IfOk result (λ text. text.items ≡ tree_text (source_seen source.now)) }
{
    let count = source.unit.len();
    let root = count.saturating_sub(1);
    let mut text = Vec::new(alloc);
    write_handle(&mut text, source, 0, None, root)?;
    let mut frames = Vec::new(alloc);
    frames.push(Frame {
        parent: root,
        place: 0,
    })?;
    // One step shows a node, and one leaves it.
    let mut left = count * 2;
    'steps: while left > 0 {
        step(&mut text, source, &mut frames)?;
        left -= 1;
    }
    Ok(text)
}

// Shows the next part of the innermost node, or leaves that node.
fn step(text: &mut Vec<u8>, source: &Source<'_>, frames: &mut Vec<Frame>) -> Result<(), AllocError>
    requires { source.now.unit.now.first ≡ 0 }
    ensures text { OnOk result (text.new.items ≡ text.old.items ++ step_text (source_seen source.now) (reverse frames.old.items)) }
    ensures frames { OnOk result (reverse frames.new.items ≡ frames_behind (source_seen source.now) (reverse frames.old.items)) }
{
    let depth = frames.len();
    let Some(frame) = frames.pop() else {
        return Ok(());
    };
    let Some((handle, tag)) = source.child(frame.parent, frame.place) else {
        return Ok(());
    };
    frames.push(Frame {
        parent: frame.parent,
        place: frame.place + 1,
    })?;
    frames.push(Frame {
        parent: handle,
        place: 0,
    })?;
    write_handle(text, source, depth, Some(tag), handle)
}

// Appends the line of the node with this handle, if there is one.
fn write_handle(
    text: &mut Vec<u8>,
    source: &Source<'_>,
    depth: usize,
    tag: Option<u8>,
    handle: Handle,
) -> Result<(), AllocError>
    requires { source.now.unit.now.first ≡ 0 }
    ensures { OnOk result (text.new.items ≡ text.old.items ++ handle_line (source_seen source.now) depth tag handle) }
{
    match source.node(handle as u64) {
        Some(node) => write_line(text, source, depth, tag, node),
        None => Ok(()),
    }
}
