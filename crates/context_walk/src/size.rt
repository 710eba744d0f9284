// Whether the numbers of a flow are so small that no sum of them overflows.
ghost use Rattle.std.specs.Prelude.{◌≡◌, ◌<◌, ◌+◌, ◌^◌, ◌↔◌, MatchOption, map, true, unsigned_abs};
ghost use Rattle.meaning_paths.specs.Graphs.{size_of_graph, size_of_step, size_of_steps};
ghost use Rattle.control_flow.specs.Seen.{graph_of, graph_of_blocks, step_of};

use control_flow::{Block, ContextNote, Flow, Step};

/// The greatest count.
const MOST: u64 = 9_223_372_036_854_775_807;

/// Whether [`walk`](crate::walk) takes a flow with this count to enter with. A step costs a few instructions.
pub fn is_small(flow: &Flow, note: &ContextNote) -> bool
    ensures { (result ≡ true) ↔ (unsigned_abs note.now.enters + size_of_graph (graph_of flow.now) < 2 ^ 63) }
{
    match MOST.checked_sub(note.enters.unsigned_abs()) {
        Some(left) => left_of_blocks(left, flow.blocks.as_slice()).is_some(),
        None => false,
    }
}

// What is left of a sum behind the numbers of blocks, if they are no more.
fn left_of_blocks(sum: u64, blocks: &[Block]) -> Option<u64>
    ensures { MatchOption result
        (sum < size_of_graph (graph_of_blocks blocks.now))
        (λ left. left + size_of_graph (graph_of_blocks blocks.now) ≡ sum) }
{
    let mut left = sum;
    let mut rest = blocks;
    'turns: while let Some((block, others)) = rest.split_first() {
        left = left_of(left, block.steps.as_slice())?;
        rest = others;
    }
    Some(left)
}

/// What is left of a sum behind the numbers of steps, if they are no more.
pub fn left_of(sum: u64, steps: &[Step]) -> Option<u64>
    ensures { MatchOption result
        (sum < size_of_steps (map step_of steps.now))
        (λ left. left + size_of_steps (map step_of steps.now) ≡ sum) }
{
    let mut left = sum;
    let mut rest = steps;
    'steps: while let Some((step, others)) = rest.split_first() {
        left = left_of_step(left, *step)?;
        rest = others;
    }
    Some(left)
}

fn left_of_step(sum: u64, step: Step) -> Option<u64>
    ensures { MatchOption result
        (sum < size_of_step (step_of step))
        (λ left. left + size_of_step (step_of step) ≡ sum) }
{
    match step {
        Step::Point(_, _) | Step::End(_) => Some(sum),
        Step::Add(_, by) => sum.checked_sub(by.unsigned_abs()),
        Step::Call(_, enters, leaves) => sum
            .checked_sub(enters.unsigned_abs())?
            .checked_sub(leaves.unsigned_abs()),
    }
}
