// A flow as a line of text: blocks and the counts of their function in, a line out in the notation that the program `flows` reads.
//
// Blocks stand behind one another from 0, parted by ` | `: steps, or `-` for none, then ` >` and the numbers of successors, if there
// are some. `P5` is a point at token 5, `M5` one with the flag, `A5+1` a change, `C5(0,1)` a call with in 0 and out 1, `E5` an end.
// Behind ` ; ` stand the counts to enter and to leave with: `P2 > 1 2 | P4 A4+1 > 2 | P9 E9 ; 0, 1`. How a line is read isn't known
// here.
ghost use Rattle.std.specs.Prelude.{◌≡◌, ◌++◌, OnOk, codes};
ghost use Rattle.std.specs.Fmt.{signed_decimal};
ghost use Rattle.control_flow.specs.Seen.{graph_of};
ghost use Rattle.control_flow.specs.Shown.{shown_line, shown_note};

mod blocks;
mod steps;

use crate::flow::Flow;
use crate::line::blocks::push_blocks;
use crate::note::ContextNote;
use crate::numbers::push_count;
use std::alloc::AllocError;

/// Appends a flow, and the counts with which its function is entered and left, as they stand in a line. Tags of successors aren't
/// told. No new-line stands behind it.
///
/// # Errors
/// Want of memory; then a front of the line may have been appended.
pub fn push_line(text: &mut Vec<u8>, flow: &Flow, note: &ContextNote) -> Result<(), AllocError>
    ensures { OnOk result (text.new.items ≡ text.old.items ++ shown_line (graph_of flow.now) note.now) }
{
    push_blocks(text, flow.blocks.as_slice())?;
    push_note(text, note)
}

fn push_note(text: &mut Vec<u8>, note: &ContextNote) -> Result<(), AllocError>
    ensures { OnOk result (text.new.items ≡ text.old.items ++ shown_note note.now) }
{
    push_count(text, b" ; ", note.enters)?;
    push_count(text, b", ", note.leaves)
}
