// Which parts of a node control passes, in the order of the text.
ghost use Rattle.std.specs.Prelude.{◌≡◌, ◌++◌, ◌∷◌, [], false, OnOk};
ghost use Rattle.meaning_tree.specs.Laid.{IsLaid};
ghost use Rattle.meaning_typing.specs.Evaluation as typing;
ghost use Rattle.meaning_typing.specs.Units as meaning;
ghost use Rattle.meaning_control.specs.Nodes.{passed_of};
ghost use Rattle.decl_judge.specs.Units.{nodes_of};
ghost use Rattle.linear_code.specs.Known.{judged_unit};
ghost use Rattle.linear_code.specs.Passed as definition;

use crate::facts::ControlFacts;
use crate::run::is_evaluated;
use c_tree::{Handle, Unit};
use decl_judge::{child_at, kind_at, node_at};
use sparse_model::NodeKind;
use std::alloc::AllocError;
use tag_list::TagList;

// Appends those that are evaluated by their tags.
fn push_evaluated(passed: &mut Vec<Handle>, children: &TagList) -> Result<(), AllocError>
    ensures { OnOk result (passed.new.items ≡ passed.old.items ++ typing.evaluated_among children.now) }
{
    for (child, tag) in children.iter() {
        if is_evaluated(tag) {
            passed.push(child)?;
        }
    }
    Ok(())
}

// Whether a part with this tag is an object that comes to be where its declaration is reached.
fn is_object<J: ControlFacts>(facts: &J, part: Handle, tag: u8) -> bool
    ensures { result ≡ definition.is_object (J.known facts.now).facts (part, tag) }
{
    is_evaluated(tag) && facts.is_automatic(part)
}

// Appends the objects among the parts of a declaration.
fn push_objects<J: ControlFacts>(
    passed: &mut Vec<Handle>,
    facts: &J,
    children: &TagList,
) -> Result<(), AllocError>
    ensures { OnOk result (passed.new.items ≡ passed.old.items ++ definition.objects_among (J.known facts.now).facts children.now) }
{
    for (child, tag) in children.iter() {
        if is_object(facts, child, tag) {
            passed.push(child)?;
        }
    }
    Ok(())
}

fn is_initializer(kind: NodeKind) -> bool
    ensures { result ≡ definition.is_initializer kind }
{
    match kind {
        NodeKind::Initializer => true,
        _ => false,
    }
}

fn is_attribute_list(kind: NodeKind) -> bool
    ensures { result ≡ definition.is_attribute_list kind }
{
    match kind {
        NodeKind::AttributeList => true,
        _ => false,
    }
}

// Appends the initializers of the objects among the parts of a declaration.
fn push_initializers<J: ControlFacts>(
    passed: &mut Vec<Handle>,
    unit: &Unit,
    facts: &J,
    children: &TagList,
) -> Result<(), AllocError>
    requires { unit.now.first ≡ 0 }
    ensures { OnOk result (passed.new.items ≡ passed.old.items ++ definition.initializers_waited (nodes_of unit.now) (J.known facts.now).facts false children.now) }
{
    // An object was passed, and behind it lists of attributes alone.
    let mut waits = false;
    for (child, tag) in children.iter() {
        let kind = kind_at(unit, child);
        if waits && is_initializer(kind) {
            passed.push(child)?;
        }
        waits = is_object(facts, child, tag) || waits && is_attribute_list(kind);
    }
    Ok(())
}

// And of those among the parts of this node.
fn push_initializers_below<J: ControlFacts>(
    passed: &mut Vec<Handle>,
    unit: &Unit,
    facts: &J,
    handle: Handle,
) -> Result<(), AllocError>
    requires { unit.now.first ≡ 0 }
    ensures { OnOk result (passed.new.items ≡ passed.old.items ++ definition.initializers_waited (nodes_of unit.now) (J.known facts.now).facts false (meaning.node_at (nodes_of unit.now) handle).children) }
{
    match node_at(unit, handle) {
        Some(node) => push_initializers(passed, unit, facts, &node.children),
        None => Ok(()),
    }
}

// What is evaluated of an operand of `&`: of `*p` it is p.
fn under_address(unit: &Unit, operand: Handle) -> Handle
    requires { unit.now.first ≡ 0 }
    ensures { typing.under_address (nodes_of unit.now) (meaning.kind_at (nodes_of unit.now) operand) operand ≡ result ∷ [] }
{
    match kind_at(unit, operand) {
        NodeKind::Indirection => child_at(unit, operand, 0),
        _ => operand,
    }
}

fn push_operand(passed: &mut Vec<Handle>, unit: &Unit, operand: Handle) -> Result<(), AllocError>
    requires { unit.now.first ≡ 0 }
    ensures { OnOk result (passed.new.items ≡ passed.old.items ++ typing.under_address (nodes_of unit.now) (meaning.kind_at (nodes_of unit.now) operand) operand) }
{
    passed.push(under_address(unit, operand))?;
    Ok(())
}

// Appends the parts of a node that are evaluated.
fn push_evaluated_parts<J: ControlFacts>(
    passed: &mut Vec<Handle>,
    unit: &Unit,
    facts: &J,
    handle: Handle,
) -> Result<(), AllocError>
    requires { unit.now.first ≡ 0 }
    ensures { OnOk result (passed.new.items ≡ passed.old.items ++ definition.evaluated_so (nodes_of unit.now) (J.known facts.now).facts handle (meaning.kind_at (nodes_of unit.now) handle)) }
{
    let Some(node) = node_at(unit, handle) else {
        return Ok(());
    };
    match node.kind {
        NodeKind::StringLiteral => Ok(()),
        NodeKind::Declaration => push_objects(passed, facts, &node.children),
        NodeKind::Address => push_operand(passed, unit, child_at(unit, handle, 0)),
        _ => push_evaluated(passed, &node.children),
    }
}

/// Appends the parts of a node that control passes, in the order of the text.
///
/// # Errors
/// Want of memory.
pub fn push_passed<J: ControlFacts>(
    passed: &mut Vec<Handle>,
    unit: &Unit,
    facts: &J,
    handle: Handle,
) -> Result<(), AllocError>
    requires whole { unit.now.first ≡ 0 }
    requires laid { IsLaid unit.now }
    requires lists { definition.KnowsLists (nodes_of unit.now) (J.known facts.now).facts }
    ensures { OnOk result (passed.new.items ≡ passed.old.items ++ passed_of (judged_unit unit.now (J.known facts.now)) handle (meaning.kind_at (nodes_of unit.now) handle)) }
{
    unit.each_node_stands_for_one_tree();
    match kind_at(unit, handle) {
        NodeKind::Declaration => push_initializers_below(passed, unit, facts, handle),
        NodeKind::StatementExpression => {
            push_evaluated_parts(passed, unit, facts, child_at(unit, handle, 0))
        }
        _ => push_evaluated_parts(passed, unit, facts, handle),
    }
}
