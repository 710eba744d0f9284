// The counts that the paths of a flow bring to the start of each of its blocks.
ghost use Rattle.std.specs.Prelude.{◌≡◌, ℕ, ◌<◌, ◌+◌, ◌-◌, ◌^◌, IfOk, length, unsigned_abs};
ghost use Rattle.meaning_paths.specs.Graphs.{IsClosed, size_of_graph, size_of_steps, steps_at};
ghost use Rattle.control_flow.specs.Seen.{graph_of_blocks, the_key};
ghost use Rattle.step_counts.specs.Counts.{IsWithin, counts_at};
ghost use Rattle.context_walk.specs.Reached.{IsExact};

use crate::spread::spread;
use control_flow::Block;
use std::alloc::{AllocError, Global};
use step_counts::{Counts, behind};

/// The counts with which paths come to each block. What is known of a block grows at most twice, so each is read at most twice.
pub fn reach(alloc: Global, blocks: &[Block], enters: i64) -> Result<Vec<Counts>, AllocError>
    requires begins { 0 < length blocks.now }
    requires closed { IsClosed (graph_of_blocks blocks.now) }
    requires small { unsigned_abs enters + size_of_graph (graph_of_blocks blocks.now) < 2 ^ 63 }
    ensures exact { IfOk result (λ found. IsExact (graph_of_blocks blocks.now) the_key enters found.items) }
    ensures within { IfOk result (λ found. (number : ℕ) → IsWithin (2 ^ 63 - 1) (size_of_steps (steps_at (graph_of_blocks blocks.now) number)) (counts_at found.items number)) }
{
    let mut counts = vec![in alloc; Counts::Never; blocks.len()]?;
    counts[0] = Counts::One(enters);
    let mut worklist = Vec::new(alloc);
    worklist.push(0u32)?;
    'turns: while let Some(number) = worklist.pop() {
        let here = &blocks[number as usize];
        let comes = behind(counts[number as usize], here.steps.as_slice());
        spread(&mut counts, &mut worklist, comes, &here.next)?;
    }
    Ok(counts)
}
