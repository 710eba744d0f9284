// The failures of a unit, function by function. What is known of a function comes by what control asks of a judged unit.
ghost use Rattle.std.specs.Prelude.{◌≡◌, ◌++◌, IfOk, IfSome, OnOk};
ghost use Rattle.vocabulary.specs.declared.node_kind.NodeKind.TheVariants as kinds;
ghost use Rattle.meaning_typing.specs.Units as meaning;
ghost use Rattle.meaning_contexts.specs.Failures.{AreContextFailures, AreFailuresAt, AreFailuresOfFunction, sums_or_none};
ghost use Rattle.c_types.specs.Table.{TypeTable};
ghost use Rattle.decl_judge.specs.Units.{nodes_of};
ghost use Rattle.expression_rows.specs.Rows.{IsKnownFailure, failure_listed};
ghost use Rattle.type_judge.specs.Found.{AreKnownFailures, found_seen};
ghost use Rattle.linear_code.specs.Known.{judged_unit, note_of};
ghost use Rattle.judged_control.specs.Judged.{known_of_nodes};
ghost use Rattle.context_judge.specs.Asked.{IsReady};

use crate::answer::function_answer;
use crate::told::failure_told;
use crate::unit::{is_function_definition, name_at};
use c_tree::{Handle, Unit};
use control_flow::ContextNote;
use decl_judge::{child_at, kind_at};
use judged_control::JudgedFacts;
use sparse_model::{Failure, FailureList};
use std::alloc::{AllocError, Global};

/// The counts with which the function of a declarator is entered and left, which are 0 where it has no contexts.
pub fn note_at(facts: &JudgedFacts, declarator: Handle) -> ContextNote
    ensures { result ≡ note_of (sums_or_none ((known_of_nodes facts.now).contexts declarator)) }
{
    match facts.contexts(declarator) {
        Some(note) => note,
        None => ContextNote {
            enters: 0,
            leaves: 0,
        },
    }
}

// What fails in a function, of which each has one failure at most.
fn failure_of(
    alloc: Global,
    unit: &Unit,
    facts: &JudgedFacts,
    function: Handle,
) -> Result<Option<Failure>, AllocError>
    requires ready { IsReady unit.now (known_of_nodes facts.now) }
    requires kind { meaning.kind_at (nodes_of unit.now) function ≡ kinds.FunctionDefinition }
    ensures seen { IfOk result (λ failure. (table : TypeTable) → AreFailuresOfFunction (judged_unit unit.now (known_of_nodes facts.now)) function (failure_listed table failure)) }
    ensures known { IfOk result (λ failure. (table : TypeTable) → IfSome failure (IsKnownFailure table)) }
{
    let declarator = child_at(unit, function, 1);
    let note = note_at(facts, declarator);
    let answer = function_answer(alloc, unit, facts, function, note)?;
    Ok(failure_told(name_at(unit, declarator), note.leaves, answer))
}

// What fails at a node, if it is a function.
fn failure_at(
    alloc: Global,
    unit: &Unit,
    facts: &JudgedFacts,
    handle: Handle,
) -> Result<Option<Failure>, AllocError>
    requires { IsReady unit.now (known_of_nodes facts.now) }
    ensures seen { IfOk result (λ failure. (table : TypeTable) → AreFailuresAt (judged_unit unit.now (known_of_nodes facts.now)) handle (failure_listed table failure)) }
    ensures known { IfOk result (λ failure. (table : TypeTable) → IfSome failure (IsKnownFailure table)) }
{
    if is_function_definition(kind_at(unit, handle)) {
        failure_of(alloc, unit, facts, handle)
    } else {
        Ok(None)
    }
}

// Appends a failure, if there is one.
fn push_failure(failures: &mut FailureList, failure: Option<Failure>) -> Result<(), AllocError>
    ensures seen { OnOk result ((table : TypeTable) → found_seen table failures.new ≡ found_seen table failures.old ++ failure_listed table failure) }
    ensures known { OnOk result ((table : TypeTable) → IfSome failure (IsKnownFailure table) → AreKnownFailures table failures.old → AreKnownFailures table failures.new) }
{
    match failure {
        Some(failure) => match failures.push(failure) {
            Ok(()) => Ok(()),
            Err((fault, _)) => Err(fault),
        },
        None => Ok(()),
    }
}

/// What fails in the functions of a unit, in their order.
///
/// # Errors
/// Want of memory, and what [`function_answer`] takes for it.
pub(crate) fn all_failures(
    alloc: Global,
    unit: &Unit,
    facts: &JudgedFacts,
) -> Result<FailureList, AllocError>
    requires { IsReady unit.now (known_of_nodes facts.now) }
    ensures seen { IfOk result (λ failures. (table : TypeTable) → AreContextFailures (judged_unit unit.now (known_of_nodes facts.now)) (found_seen table failures)) }
    ensures known { IfOk result (λ failures. (table : TypeTable) → AreKnownFailures table failures) }
{
    let mut failures = FailureList::new(alloc);
    for handle in 0..unit.len() {
        push_failure(&mut failures, failure_at(alloc, unit, facts, handle)?)?;
    }
    Ok(failures)
}
