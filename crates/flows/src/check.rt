// What the walk asks for of a flow.
ghost use Rattle.std.specs.Prelude.{◌≡◌, ◌-◌, IfErr, IfNone, IfOk, None, Some, length, map};
ghost use Rattle.meaning_paths.specs.Graphs.{size_of_steps};
ghost use Rattle.control_flow.specs.Seen.{block_of, graph_of_blocks, step_of, targets};
ghost use Rattle.flows.specs.Asked.{IsAsked, all_below, asked_fault, begins_with_point, block_fault, fault_from};

use crate::wrong::Wrong;
use context_walk::left_of;
use control_flow::{Block, Step};
use tag_list::TagList;

/// What is wrong with a flow, and the number of its block, where the walk doesn't take it.
pub(crate) fn asked_fault(blocks: &[Block], enters: i64) -> Option<(usize, Wrong)>
    ensures fault { result ≡ asked_fault (graph_of_blocks blocks.now) enters }
    ensures asked { IfNone result (IsAsked (graph_of_blocks blocks.now) enters) }
{
    whole_fault(blocks, enters)
}

fn whole_fault(blocks: &[Block], enters: i64) -> Option<(usize, Wrong)>
    ensures { result ≡ asked_fault (graph_of_blocks blocks.now) enters }
{
    if blocks.is_empty() {
        return Some((0, Wrong::NoStep));
    }
    let Some(left) = 9_223_372_036_854_775_807u64.checked_sub(enters.unsigned_abs()) else {
        return Some((0, Wrong::LargeSum));
    };
    first_fault(blocks, left)
}

// The first block that lacks something, and what, where so much is left for the numbers of all.
fn first_fault(blocks: &[Block], left: u64) -> Option<(usize, Wrong)>
    ensures { result ≡ fault_from (length blocks.now) left 0 (graph_of_blocks blocks.now) }
{
    let mut left = left;
    let mut number: usize = 0;
    let mut rest = blocks;
    'turns: while let Some((block, others)) = rest.split_first() {
        match left_behind(blocks.len(), left, block) {
            Ok(less) => left = less,
            Err(wrong) => return Some((number, wrong)),
        }
        number += 1;
        rest = others;
    }
    None
}

// What is left of a sum behind the numbers of a block, or what the block lacks.
fn left_behind(blocks: usize, left: u64, block: &Block) -> Result<u64, Wrong>
    ensures none { IfOk result (λ _. block_fault blocks left (block_of block.now) ≡ None) }
    ensures left { IfOk result (λ less. less ≡ left - size_of_steps (map step_of block.now.steps)) }
    ensures fault { IfErr result (λ wrong. block_fault blocks left (block_of block.now) ≡ Some wrong) }
{
    let steps = block.steps.as_slice();
    if !begins_with_point(steps) {
        return Err(Wrong::NoPointFirst);
    }
    if !are_below(&block.next, blocks) {
        return Err(Wrong::NoSuchBlock);
    }
    match left_of(left, steps) {
        Some(less) => Ok(less),
        None => Err(Wrong::LargeSum),
    }
}

fn begins_with_point(steps: &[Step]) -> bool
    ensures { result ≡ begins_with_point (map step_of steps.now) }
{
    match steps.split_first() {
        None => true,
        Some((Step::Point(_, _), _)) => true,
        Some(_) => false,
    }
}

// All numbers are those of blocks.
fn are_below(next: &TagList, blocks: usize) -> bool
    ensures { result ≡ all_below blocks (targets next.now) }
{
    for (number, _) in next.iter() {
        if number as usize >= blocks {
            return false;
        }
    }
    true
}
