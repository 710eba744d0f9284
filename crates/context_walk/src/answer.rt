// The rules' answer for all paths of a flow.
ghost use Rattle.std.specs.Prelude.{◌≡◌, ◌<◌, ◌+◌, ◌^◌, IfOk, length, unsigned_abs};
ghost use Rattle.meaning_paths.specs.Graphs.{EachBeginsWithPoint, IsClosed, IsPathOf, size_of_graph};
ghost use Rattle.meaning_paths.specs.ContextRules.{IsAnswer};
ghost use Rattle.control_flow.specs.Seen.{answer_of, graph_of, the_key};
ghost use Rattle.context_walk.specs.Scans.{answered, seen_end};

use crate::different::least_different;
use crate::passed::passed_steps;
use crate::reach::reach;
use crate::scan::{Exit, least_fall, least_wrong_end};
use control_flow::{ContextAnswer, ContextNote, Flow};
use std::alloc::{AllocError, Global};

/// What holds of all paths of a flow that begin in block 0 with the count with which the note enters.
///
/// It takes time in step with blocks, steps and successors together, and no path twice around a cycle.
pub fn walk(alloc: Global, flow: &Flow, note: &ContextNote) -> Result<ContextAnswer, AllocError>
    requires begins { 0 < length flow.now.blocks }
    requires closed { IsClosed (graph_of flow.now) }
    requires points { EachBeginsWithPoint (graph_of flow.now) }
    requires small { unsigned_abs note.now.enters + size_of_graph (graph_of flow.now) < 2 ^ 63 }
    ensures { IfOk result (λ answer. IsAnswer (IsPathOf (graph_of flow.now)) the_key note.now.enters note.now.leaves (answer_of answer)) }
{
    let blocks = flow.blocks.as_slice();
    let counts = reach(alloc, blocks, note.enters)?;
    let passed = passed_steps(alloc, blocks, &counts)?;
    let different = least_different(alloc, &passed)?;
    let fall = least_fall(&passed);
    let wrong = least_wrong_end(&passed, note.leaves);
    Ok(answer(different, fall, wrong))
}

// What is said of them, in the order of the rules.
fn answer(different: Option<u32>, fall: Option<u32>, wrong: Option<Exit>) -> ContextAnswer
    ensures { answer_of result ≡ answered different fall (seen_end wrong) }
{
    if let Some(token) = different {
        return ContextAnswer::Different(token);
    }
    if let Some(token) = fall {
        return ContextAnswer::Below(token);
    }
    match wrong {
        Some(exit) => ContextAnswer::WrongExit(exit.token, exit.found),
        None => ContextAnswer::Balanced,
    }
}
