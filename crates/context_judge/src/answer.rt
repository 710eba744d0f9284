// What holds of all paths of one function: whether it has a body in, the rules' answer out. How failures are told isn't known here.
ghost use Rattle.std.specs.Prelude.{◌≡◌, ◌<◌, ◌^◌, ◌↔◌, IfOk, true};
ghost use Rattle.vocabulary.specs.declared.node_kind.NodeKind.TheVariants as kinds;
ghost use Rattle.meaning_paths.specs.ContextRules.{Balanced, IsAnswer};
ghost use Rattle.meaning_typing.specs.Units as meaning;
ghost use Rattle.meaning_control.specs.Functions.{IsPathOfFunction};
ghost use Rattle.decl_judge.specs.Units.{nodes_of};
ghost use Rattle.control_flow.specs.Seen.{answer_of, the_key};
ghost use Rattle.linear_code.specs.Known.{KnownFacts, judged_unit};
ghost use Rattle.context_judge.specs.Asked.{IsReady};
ghost use Rattle.context_judge.specs.Bodies.{HasBody};

use crate::unit::{LAST_TOKEN, number_at};
use c_tree::{Handle, Unit};
use context_walk::{is_small, walk};
use control_flow::{ContextAnswer, ContextNote};
use linear_code::{ControlFacts, body_of, has_changes, linearize, quiet_functions_change_nothing};
use std::alloc::{AllocError, Global};

/// Whether a function has a body, whose closing brace stands at a token; each of a unit has one that was parsed.
pub fn has_body(unit: &Unit, function: Handle) -> bool
    requires whole { unit.now.first ≡ 0 }
    requires kind { meaning.kind_at (nodes_of unit.now) function ≡ kinds.FunctionDefinition }
    ensures { (known : KnownFacts) → (result ≡ true) ↔ HasBody unit.now known function }
{
    let body = body_of(unit, function);
    body < unit.len() && number_at(unit, body) <= LAST_TOKEN
}

// Whether it is left with the count with which it is entered, and no node of it changes one.
fn is_quiet<J: ControlFacts>(unit: &Unit, facts: &J, function: Handle, note: ContextNote) -> bool
    requires ready { IsReady unit.now (J.known facts.now) }
    requires kind { meaning.kind_at (nodes_of unit.now) function ≡ kinds.FunctionDefinition }
    requires body { HasBody unit.now (J.known facts.now) function }
    ensures { result ≡ true → IsAnswer (IsPathOfFunction (judged_unit unit.now (J.known facts.now)) function) the_key note.enters note.leaves Balanced }
{
    quiet_functions_change_nothing();
    unit.each_node_stands_for_one_tree();
    note.enters == note.leaves && !has_changes(unit, facts, function)
}

// The answer over its flow.
fn answer_walked<J: ControlFacts>(
    alloc: Global,
    unit: &Unit,
    facts: &J,
    function: Handle,
    note: ContextNote,
) -> Result<ContextAnswer, AllocError>
    requires ready { IsReady unit.now (J.known facts.now) }
    requires kind { meaning.kind_at (nodes_of unit.now) function ≡ kinds.FunctionDefinition }
    requires body { HasBody unit.now (J.known facts.now) function }
    ensures { IfOk result (λ answer. IsAnswer (IsPathOfFunction (judged_unit unit.now (J.known facts.now)) function) the_key note.enters note.leaves (answer_of answer)) }
{
    let flow = linearize(alloc, unit, facts, function)?;
    if is_small(&flow, &note) {
        walk(alloc, &flow, &note)
    } else {
        // No unit that was parsed comes here.
        Err(AllocError)
    }
}

/// The rules' answer over all paths of a function that is entered and left with the counts of the note. One whose nodes change no
/// count costs a few instructions a node, and takes no memory.
///
/// # Errors
/// Want of memory; it stands too for a function without a body, for a closing brace past all tokens, and for numbers of contexts that
/// make more than 2^63 together, none of which a unit has that was parsed.
pub(crate) fn function_answer<J: ControlFacts>(
    alloc: Global,
    unit: &Unit,
    facts: &J,
    function: Handle,
    note: ContextNote,
) -> Result<ContextAnswer, AllocError>
    requires ready { IsReady unit.now (J.known facts.now) }
    requires kind { meaning.kind_at (nodes_of unit.now) function ≡ kinds.FunctionDefinition }
    ensures { IfOk result (λ answer. IsAnswer (IsPathOfFunction (judged_unit unit.now (J.known facts.now)) function) the_key note.enters note.leaves (answer_of answer)) }
{
    if !has_body(unit, function) {
        return Err(AllocError);
    }
    if is_quiet(unit, facts, function, note) {
        return Ok(ContextAnswer::Balanced);
    }
    answer_walked(alloc, unit, facts, function, note)
}
