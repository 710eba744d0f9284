// What a node is to control, by its kind and by what is known of its parts.
ghost use Rattle.std.specs.Prelude.{◌≡◌, ◌<◌, ◌^◌, ℕ, List, if◌then◌else◌};
ghost use Rattle.sparse_model.specs.declared.ids.NameId.{NameId as Name};
ghost use Rattle.vocabulary.specs.declared.node_kind.NodeKind.TheVariants as nodes;
ghost use Rattle.node_facts.specs.Facts.{name_seen};
ghost use Rattle.meaning_typing.specs.Units as meaning;
ghost use Rattle.meaning_control.specs.Kinds as kinds;
ghost use Rattle.meaning_control.specs.Nodes as definition;
ghost use Rattle.meaning_control.specs.States.{kind_of};
ghost use Rattle.c_tree.specs.Seen.{node_of};
ghost use Rattle.decl_judge.specs.Units.{named_node, nodes_of};
ghost use Rattle.control_cells.specs.Seen.{kind_seen, outcomes_seen};
ghost use Rattle.linear_code.specs.Cells.{KnowsTokens, node_where};
ghost use Rattle.linear_code.specs.Kinds.{called_noted, conditional_of};
ghost use Rattle.linear_code.specs.Known.{judged_unit};

use crate::callee::named_function;
use crate::count::added;
use crate::facts::{ControlFacts, FunctionNote};
use c_tree::{Handle, Node, Unit};
use control_cells::{ControlKind, Outcomes};
use decl_judge::{child_at, kind_at};
use sparse_model::NodeKind;

// Either way where it is tested, else as true alone.
fn either_way(is_tested: bool) -> Outcomes
    ensures { outcomes_seen result ≡ definition.either_way is_tested }
{
    if is_tested {
        Outcomes::Both
    } else {
        Outcomes::One(true)
    }
}

// How a value that is tested is left: as its constant says, or either way.
fn outcomes_of(constant: Option<i128>) -> Outcomes
    ensures { outcomes_seen result ≡ definition.outcomes_of constant }
{
    match constant {
        Some(number) => Outcomes::One(number != 0),
        None => Outcomes::Both,
    }
}

// A value of which no constant is known.
fn unknown_value(is_tested: bool) -> ControlKind
    ensures { (names : Name → List ℕ) (token : ℕ) → kind_seen names token result ≡ definition.unknown_value is_tested }
{
    if is_tested {
        ControlKind::Value(Outcomes::Both)
    } else {
        ControlKind::Sequence
    }
}

// A call of the function of which this is known, where it is one by name.
fn called(function: Option<FunctionNote>, is_tested: bool) -> ControlKind
    ensures { (names : Name → List ℕ) (token : ℕ) → kind_seen names token result ≡ called_noted token is_tested function }
{
    let Some(note) = function else {
        return unknown_value(is_tested);
    };
    if note.is_noreturn {
        return ControlKind::Calling(note.contexts, Outcomes::Never);
    }
    match note.contexts {
        Some(contexts) => ControlKind::Calling(Some(contexts), either_way(is_tested)),
        None => unknown_value(is_tested),
    }
}

// `?:` with so many operands: without a middle one the first is it.
fn conditional(operands: u32) -> ControlKind
    ensures { (names : Name → List ℕ) (token : ℕ) → kind_seen names token result ≡ conditional_of operands }
{
    if operands == 2 {
        ControlKind::Or
    } else {
        ControlKind::Conditional
    }
}

// `__builtin_expect`.
fn expecting(is_tested: bool) -> ControlKind
    ensures { (names : Name → List ℕ) (token : ℕ) → kind_seen names token result ≡ (if is_tested then kinds.Expect else kinds.Sequence) }
{
    if is_tested {
        ControlKind::Expect
    } else {
        ControlKind::Sequence
    }
}

// A value of which this constant is known, or none.
fn value(constant: Option<i128>, is_tested: bool) -> ControlKind
    ensures { (names : Name → List ℕ) (token : ℕ) → kind_seen names token result ≡ (if is_tested then kinds.Value (definition.outcomes_of constant) else kinds.Sequence) }
{
    if is_tested {
        ControlKind::Value(outcomes_of(constant))
    } else {
        ControlKind::Sequence
    }
}

fn is_omitted(kind: NodeKind) -> bool
    ensures { result ≡ definition.is_omitted kind }
{
    match kind {
        NodeKind::OmittedExpression => true,
        _ => false,
    }
}

/// What a node is to control, as it is tested or not.
pub fn control_kind<J: ControlFacts>(
    unit: &Unit,
    facts: &J,
    handle: Handle,
    is_tested: bool,
) -> ControlKind
    requires whole { unit.now.first ≡ 0 }
    requires tokens { KnowsTokens (nodes_of unit.now) }
    ensures { kind_seen name_seen (meaning.node_at (nodes_of unit.now) handle).token result ≡ kind_of (node_where (judged_unit unit.now (J.known facts.now)) handle is_tested) }
{
    unit.each_node_stands_for_one_tree();
    if handle >= unit.len() {
        return ControlKind::Sequence;
    }
    kind_of_node(unit, facts, handle, unit.node(handle), is_tested)
}

// What the node with this handle is.
fn kind_of_node<J: ControlFacts>(
    unit: &Unit,
    facts: &J,
    handle: Handle,
    node: &Node,
    is_tested: bool,
) -> ControlKind
    requires whole { unit.now.first ≡ 0 }
    requires node { named_node (node_of node.now) ≡ meaning.node_at (nodes_of unit.now) handle }
    requires token { node.now.kind ≡ nodes.DoStatement → node.now.number < 2 ^ 32 }
    ensures { kind_seen name_seen node.now.token result
        ≡ definition.control_kind (judged_unit unit.now (J.known facts.now)) (definition.controls_of (judged_unit unit.now (J.known facts.now)) handle) handle is_tested node.now.kind }
{
    unit.each_node_stands_for_one_tree();
    match node.kind {
        NodeKind::Parenthesized => ControlKind::Sequence,
        NodeKind::Comma => ControlKind::Sequence,
        NodeKind::StatementExpression => ControlKind::Body,
        NodeKind::LogicalNot => ControlKind::Not,
        NodeKind::LogicalAnd => ControlKind::And,
        NodeKind::LogicalOr => ControlKind::Or,
        NodeKind::Conditional => conditional(node.children.len()),
        NodeKind::BuiltinExpect => expecting(is_tested),
        NodeKind::OmittedExpression => ControlKind::Sequence,
        NodeKind::Call => called(
            named_function(unit, facts, child_at(unit, handle, 0)),
            is_tested,
        ),
        NodeKind::ExpressionStatement => ControlKind::Expression,
        NodeKind::CompoundStatement => ControlKind::Block,
        NodeKind::IfStatement => ControlKind::If,
        NodeKind::SwitchStatement => {
            ControlKind::Switch(facts.constant(child_at(unit, handle, 0)))
        }
        NodeKind::WhileStatement => ControlKind::While,
        NodeKind::DoStatement => ControlKind::Do(node.number as u32),
        NodeKind::ForStatement => {
            ControlKind::For(!is_omitted(kind_at(unit, child_at(unit, handle, 1))))
        }
        NodeKind::LabelStatement => ControlKind::Label(node.name),
        NodeKind::CaseStatement => ControlKind::Case(facts.case_number(handle)),
        NodeKind::DefaultStatement => ControlKind::Default,
        NodeKind::GotoStatement => ControlKind::Goto(node.name),
        NodeKind::BreakStatement => ControlKind::Break,
        NodeKind::ContinueStatement => ControlKind::Continue,
        NodeKind::ReturnStatement => ControlKind::Return,
        NodeKind::ContextStatement => ControlKind::Context(added(node.number)),
        NodeKind::AttributeStatement => ControlKind::Attributes,
        _ => value(facts.constant(handle), is_tested),
    }
}
