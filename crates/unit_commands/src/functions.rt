// The lines of functions, by what control asks of a judged unit.
ghost use Rattle.std.specs.Prelude.{◌≡◌, IfOk, OnOk};
ghost use Rattle.vocabulary.specs.declared.node_kind.NodeKind.TheVariants as kinds;
ghost use Rattle.meaning_typing.specs.Units as meaning;
ghost use Rattle.decl_judge.specs.Units.{nodes_of};
ghost use Rattle.linear_code.specs.Known.{judged_unit};
ghost use Rattle.judged_control.specs.Judged.{known_of_nodes};
ghost use Rattle.ksparse.specs.Asked.{IsReady};
ghost use Rattle.ksparse.specs.Bodies.{HasBody};
ghost use Rattle.unit_commands.specs.Appending.{AppendsOne};
ghost use Rattle.unit_commands.specs.FlowLines.{AreFlowLines, IsFunctionLine, IsLineAt};

use c_tree::{Handle, Unit};
use control_flow::push_line;
use decl_judge::{child_at, kind_at};
use judged_control::JudgedFacts;
use ksparse::{has_body, is_function_definition, note_at};
use linear_code::linearize;
use std::alloc::{AllocError, Global};

// Appends the line of a function that has a body.
fn write_flow(
    alloc: Global,
    text: &mut Vec<u8>,
    unit: &Unit,
    facts: &JudgedFacts,
    function: Handle,
) -> Result<(), AllocError>
    requires ready { IsReady unit.now (known_of_nodes facts.now) }
    requires kind { meaning.kind_at (nodes_of unit.now) function ≡ kinds.FunctionDefinition }
    requires body { HasBody unit.now (known_of_nodes facts.now) function }
    ensures { OnOk result (AppendsOne (IsFunctionLine (judged_unit unit.now (known_of_nodes facts.now)) function) text.old.items text.new.items) }
{
    let declarator = child_at(unit, function, 1);
    let note = note_at(facts, declarator);
    let flow = linearize(alloc, unit, facts, function)?;
    push_line(text, &flow, &note)?;
    text.push(b'\n')?;
    Ok(())
}

// Appends the line of a function.
fn write_function(
    alloc: Global,
    text: &mut Vec<u8>,
    unit: &Unit,
    facts: &JudgedFacts,
    function: Handle,
) -> Result<(), AllocError>
    requires ready { IsReady unit.now (known_of_nodes facts.now) }
    requires kind { meaning.kind_at (nodes_of unit.now) function ≡ kinds.FunctionDefinition }
    ensures { OnOk result (AppendsOne (IsFunctionLine (judged_unit unit.now (known_of_nodes facts.now)) function) text.old.items text.new.items) }
{
    if has_body(unit, function) {
        write_flow(alloc, text, unit, facts, function)
    } else {
        // No unit that was parsed comes here.
        Err(AllocError)
    }
}

// Appends the line of a node, if it is a function.
fn write_node(
    alloc: Global,
    text: &mut Vec<u8>,
    unit: &Unit,
    facts: &JudgedFacts,
    handle: Handle,
) -> Result<(), AllocError>
    requires { IsReady unit.now (known_of_nodes facts.now) }
    ensures { OnOk result (AppendsOne (IsLineAt (judged_unit unit.now (known_of_nodes facts.now)) handle) text.old.items text.new.items) }
{
    if !is_function_definition(kind_at(unit, handle)) {
        return Ok(());
    }
    write_function(alloc, text, unit, facts, handle)?;
    Ok(())
}

/// The lines of the functions of a unit, in their order.
///
/// # Errors
/// Want of memory, and what [`linearize`] takes for it.
pub(crate) fn all_lines(
    alloc: Global,
    unit: &Unit,
    facts: &JudgedFacts,
) -> Result<Vec<u8>, AllocError>
    requires { IsReady unit.now (known_of_nodes facts.now) }
    ensures { IfOk result (λ text. AreFlowLines (judged_unit unit.now (known_of_nodes facts.now)) text.items) }
{
    let mut text = Vec::new(alloc);
    for handle in 0..unit.len() {
        write_node(alloc, &mut text, unit, facts, handle)?;
    }
    Ok(text)
}
