// Blocks: their steps, and the numbers of their successors.
ghost use Rattle.std.specs.Prelude.{◌≡◌, ◌++◌, OnOk, codes};
ghost use Rattle.control_flow.specs.Seen.{block_of, graph_of_blocks, targets};
ghost use Rattle.control_flow.specs.Shown.{shown_block, shown_blocks, shown_blocks_behind, shown_numbers, shown_successors};

use crate::flow::Block;
use crate::line::steps::push_steps;
use crate::numbers::push_number;
use std::alloc::AllocError;
use tag_list::TagList;

fn push_numbers(text: &mut Vec<u8>, next: &TagList) -> Result<(), AllocError>
    ensures { OnOk result (text.new.items ≡ text.old.items ++ shown_numbers (targets next.now)) }
{
    for (number, _) in next.iter() {
        push_number(text, b" ", u64::from(number))?;
    }
    Ok(())
}

// Appends the successors of a block, if there are some.
fn push_successors(text: &mut Vec<u8>, next: &TagList) -> Result<(), AllocError>
    ensures { OnOk result (text.new.items ≡ text.old.items ++ shown_successors (targets next.now)) }
{
    if next.len() == 0 {
        return Ok(());
    }
    text.extend_from_slice(b" >")?;
    push_numbers(text, next)
}

// Appends a block.
fn push_block(text: &mut Vec<u8>, block: &Block) -> Result<(), AllocError>
    ensures { OnOk result (text.new.items ≡ text.old.items ++ shown_block (block_of block.now)) }
{
    push_steps(text, block.steps.as_slice())?;
    push_successors(text, &block.next)
}

// Appends those that stand behind others.
fn push_blocks_behind(text: &mut Vec<u8>, blocks: &[Block]) -> Result<(), AllocError>
    ensures { OnOk result (text.new.items ≡ text.old.items ++ shown_blocks_behind (graph_of_blocks blocks.now)) }
{
    let mut rest = blocks;
    'turns: while let Some((block, others)) = rest.split_first() {
        text.extend_from_slice(b" | ")?;
        push_block(text, block)?;
        rest = others;
    }
    Ok(())
}

/// Appends blocks, one behind the other.
pub fn push_blocks(text: &mut Vec<u8>, blocks: &[Block]) -> Result<(), AllocError>
    ensures { OnOk result (text.new.items ≡ text.old.items ++ shown_blocks (graph_of_blocks blocks.now)) }
{
    match blocks.split_first() {
        Some((block, others)) => {
            push_block(text, block)?;
            push_blocks_behind(text, others)
        }
        None => Ok(()),
    }
}
