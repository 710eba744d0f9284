// The judgement of contexts: what is asked of the unit is made ready once, where it has contexts at all.
ghost use Rattle.std.specs.Prelude.{◌≡◌, IfOk};
ghost use Rattle.meaning_tree.specs.Laid.{IsLaid};
ghost use Rattle.decl_judge.specs.Units.{nodes_of};
ghost use Rattle.type_judge.specs.Found.{AreKnownFailures};
ghost use Rattle.type_judge.specs.Judging.{HasTypeIds, IsJudgedSo};
ghost use Rattle.context_judge.specs.Found.{AreContextFailuresOf};

use crate::functions::all_failures;
use crate::unit::{has_contexts, knows_tokens};
use c_tree::Unit;
use judged_control::JudgedFacts;
use meaning_contexts::units_without_contexts_fail_nowhere;
use node_surroundings::surroundings_of;
use sparse_model::FailureList;
use std::alloc::{AllocError, Global};
use type_judge::{Judged, enclosings_of};

// The failures of a unit that may have some.
fn failures_found(alloc: Global, unit: &Unit, judged: &Judged) -> Result<FailureList, AllocError>
    requires whole { unit.now.first ≡ 0 }
    requires laid { IsLaid unit.now }
    requires so { IsJudgedSo (nodes_of unit.now) judged.now }
    requires ids { HasTypeIds judged.now }
    ensures failures { IfOk result (AreContextFailuresOf (nodes_of unit.now) judged.now) }
    ensures known { IfOk result (AreKnownFailures judged.now.types) }
{
    unit.each_node_stands_for_one_tree();
    // Its handles have 32 bits.
    let _count = unit.len();
    if !knows_tokens(unit) {
        // No unit that was parsed comes here.
        return Err(AllocError);
    }
    let surroundings = surroundings_of(alloc, unit)?;
    let enclosings = enclosings_of(alloc, unit, &surroundings)?;
    let facts = JudgedFacts::new(
        unit,
        &surroundings,
        &judged.types,
        &judged.facts,
        &enclosings,
        &judged.objects,
    );
    all_failures(alloc, unit, &facts)
}

/// The failures of the rules on contexts over every path of the functions of a unit that was judged, in the order of the functions, each
/// of which has one at most.
///
/// A unit without a context attribute and a context statement costs a look at each node. In any other one a node costs a few steps, and
/// a function that changes counts its flow and a walk over that, whose memory is free again before the next function.
///
/// # Errors
/// Want of memory; it stands too for what no unit has that was parsed: a `do` whose `while` has no token, a function without a body, a
/// closing brace without a token, and contexts whose numbers make more than 2^63 over all that a function passes; and for a body of more
/// than 20,000,000 cells.
pub fn context_failures(
    alloc: Global,
    unit: &Unit,
    judged: &Judged,
) -> Result<FailureList, AllocError>
    requires whole { unit.now.first ≡ 0 }
    requires laid { IsLaid unit.now }
    requires so { IsJudgedSo (nodes_of unit.now) judged.now }
    requires ids { HasTypeIds judged.now }
    ensures failures { IfOk result (AreContextFailuresOf (nodes_of unit.now) judged.now) }
    ensures known { IfOk result (AreKnownFailures judged.now.types) }
{
    if !has_contexts(unit) {
        units_without_contexts_fail_nowhere();
        return Ok(FailureList::new(alloc));
    }
    failures_found(alloc, unit, judged)
}
