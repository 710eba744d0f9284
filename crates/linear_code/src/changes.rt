// Whether a function changes the count of contexts anywhere.
ghost use Rattle.std.specs.Prelude.{◌≡◌, ◌<◌, ◌↔◌, true, false};
ghost use Rattle.vocabulary.specs.declared.node_kind.NodeKind.TheVariants as kinds;
ghost use Rattle.meaning_tree.specs.Laid.{IsLaid};
ghost use Rattle.meaning_tree.specs.Nodes.{end_of};
ghost use Rattle.meaning_typing.specs.Units as meaning;
ghost use Rattle.meaning_control.specs.Functions.{statement_of};
ghost use Rattle.decl_judge.specs.Units.{nodes_of};
ghost use Rattle.linear_code.specs.Changes as definition;
ghost use Rattle.linear_code.specs.Known.{KnownFacts, judged_unit};

use crate::callee::named_function;
use crate::facts::{ControlFacts, FunctionNote};
use crate::run::{first_evaluated, first_within};
use c_tree::{Handle, Unit};
use decl_judge::{child_at, kind_at, node_at};
use sparse_model::NodeKind;

fn has_contexts(function: Option<FunctionNote>) -> bool
    ensures { result ≡ definition.has_contexts_noted function }
{
    match function {
        Some(note) => note.contexts.is_some(),
        None => false,
    }
}

// Whether the node is a context statement, or a call by name of a function with contexts.
fn changes<J: ControlFacts>(unit: &Unit, facts: &J, handle: Handle) -> bool
    requires { unit.now.first ≡ 0 }
    ensures { result ≡ definition.changes (judged_unit unit.now (J.known facts.now)) handle (meaning.kind_at (nodes_of unit.now) handle) }
{
    unit.each_node_stands_for_one_tree();
    match kind_at(unit, handle) {
        NodeKind::ContextStatement => true,
        NodeKind::Call => has_contexts(named_function(unit, facts, child_at(unit, handle, 0))),
        _ => false,
    }
}

/// Whether some node of the body of a function, evaluated or not, is a context statement or a call by name of a function that
/// carries contexts. It takes no memory.
pub fn has_changes<J: ControlFacts>(unit: &Unit, facts: &J, function: Handle) -> bool
    requires whole { unit.now.first ≡ 0 }
    requires laid { IsLaid unit.now }
    requires kind { meaning.kind_at (nodes_of unit.now) function ≡ kinds.FunctionDefinition }
    requires body { statement_of (judged_unit unit.now (J.known facts.now)) function < end_of unit.now }
    ensures { (result ≡ true) ↔ definition.BodyChanges unit.now (judged_unit unit.now (J.known facts.now)) function }
{
    let body = body_of(unit, function);
    let first = first_within(unit, body);
    for handle in first..body {
        if changes(unit, facts, handle) {
            return true;
        }
    }
    changes(unit, facts, body)
}

/// The compound statement of a function.
pub fn body_of(unit: &Unit, function: Handle) -> Handle
    requires whole { unit.now.first ≡ 0 }
    requires kind { meaning.kind_at (nodes_of unit.now) function ≡ kinds.FunctionDefinition }
    ensures { (facts : KnownFacts) → result ≡ statement_of (judged_unit unit.now facts) function }
{
    match node_at(unit, function) {
        Some(node) => first_evaluated(&node.children, unit.len()),
        None => unit.len(),
    }
}
