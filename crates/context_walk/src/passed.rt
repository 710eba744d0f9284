// The steps that paths pass, each with the counts with which they come to it.
ghost use Rattle.std.specs.Prelude.{◌≡◌, ℕ, ◌<◌, ◌-◌, ◌++◌, ◌^◌, IfOk, OnOk, length, map};
ghost use Rattle.meaning_paths.specs.Graphs.{size_of_graph, size_of_steps, steps_at};
ghost use Rattle.control_flow.specs.Seen.{graph_of_blocks, step_of, the_key};
ghost use Rattle.step_counts.specs.Counts.{IsWithin, counts_at};
ghost use Rattle.context_walk.specs.Passed.{passed_from, passed_of, passed_seen};

use control_flow::{Block, Step};
use std::alloc::{AllocError, Global};
use step_counts::{Counts, change};

/// A step of a block, and the counts with which paths come to it.
#[derive(Clone, Copy)]
pub struct PassedStep {
    pub step: Step,
    pub comes: Counts,
}

/// The steps of all blocks, by the counts with which paths come to each block.
pub fn passed_steps(
    alloc: Global,
    blocks: &[Block],
    counts: &[Counts],
) -> Result<Vec<PassedStep>, AllocError>
    requires each { length counts.now ≡ length blocks.now }
    requires small { size_of_graph (graph_of_blocks blocks.now) < 2 ^ 63 }
    requires within { (number : ℕ) → IsWithin (2 ^ 63 - 1) (size_of_steps (steps_at (graph_of_blocks blocks.now) number)) (counts_at counts.now number) }
    ensures { IfOk result (λ passed. passed_seen passed.items ≡ passed_of the_key counts.now (graph_of_blocks blocks.now)) }
{
    let mut passed = Vec::new(alloc);
    for number in 0..blocks.len() {
        pass_block(&mut passed, counts[number], blocks[number].steps.as_slice())?;
    }
    Ok(passed)
}

// Appends the steps of a block to which paths come with these counts.
fn pass_block(passed: &mut Vec<PassedStep>, comes: Counts, steps: &[Step]) -> Result<(), AllocError>
    requires small { size_of_steps (map step_of steps.now) < 2 ^ 63 }
    requires within { IsWithin (2 ^ 63 - 1) (size_of_steps (map step_of steps.now)) comes }
    ensures { OnOk result (passed_seen passed.new.items ≡ passed_seen passed.old.items ++ passed_from the_key comes (map step_of steps.now)) }
{
    let mut comes = comes;
    let mut rest = steps;
    'steps: while let Some((step, others)) = rest.split_first() {
        passed.push(PassedStep { step: *step, comes })?;
        comes = comes.shifted(change(*step));
        rest = others;
    }
    Ok(())
}
