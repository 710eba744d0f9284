// Enumerators among the children of a node (C11 6.7.2.2): nodes and what is known of them in, what is kept of their values out. What
// they come to isn't known here.
ghost use Rattle.std.specs.Prelude.{◌≡◌, ◌<◌, ◌++◌, ◌∷◌, [], All, List, is_none, not};
ghost use Rattle.std.specs.List.{list_any};
ghost use Rattle.meaning_tree.specs.Nodes.{end_of};
ghost use Rattle.meaning_typing.specs.EnumRows as meaning;
ghost use Rattle.meaning_typing.specs.Facts.{Fact};
ghost use Rattle.meaning_typing.specs.Units.{children_at, kind_at as kind_of};
ghost use Rattle.decl_judge.specs.Units.{handles_of, nodes_of};
ghost use Rattle.enum_rows.specs.Enumerations.{StandsFor};
ghost use Rattle.node_facts.specs.Facts.{IsKnownNodeFact, nodes_seen};
ghost use Rattle.specifier_judge.specs.Parts.{expression_part};

use c_tree::{Handle, Unit};
use c_types::Types;
use decl_judge::{kind_at, node_at};
use enum_rows::Enumerators;
use node_facts::NodeFacts;
use sparse_model::NodeKind;
use tag_list::TagList;

/// Whether a node is an enumerator.
pub fn is_enumerator(kind: NodeKind) -> bool
    ensures { result ≡ meaning.is_enumerator kind }
{
    match kind {
        NodeKind::Enumerator => true,
        _ => false,
    }
}

/// Whether one is among children. It takes a step for each of them.
pub fn has_enumerator(unit: &Unit, children: &TagList) -> bool
    requires { unit.now.first ≡ 0 }
    ensures { result ≡ list_any (λ child. meaning.is_enumerator (kind_of (nodes_of unit.now) child)) (handles_of children.now) }
{
    for (child, _) in children.iter() {
        if is_enumerator(kind_at(unit, child)) {
            return true;
        }
    }
    false
}

fn is_expression_part(kind: NodeKind) -> bool
    ensures { result ≡ meaning.is_expression_part kind }
{
    match kind {
        NodeKind::AttributeList => false,
        _ => true,
    }
}

fn expression_among(unit: &Unit, children: &TagList) -> Option<Handle>
    requires { unit.now.first ≡ 0 }
    ensures { result ≡ expression_part (nodes_of unit.now) (handles_of children.now) }
{
    for (child, _) in children.iter() {
        if is_expression_part(kind_at(unit, child)) {
            return Some(child);
        }
    }
    None
}

/// The expression of an enumerator, if it has one: it is the part behind its attributes. It takes a step for each list of these.
pub fn expression_of(unit: &Unit, enumerator: Handle) -> Option<Handle>
    requires { unit.now.first ≡ 0 }
    ensures { result ≡ expression_part (nodes_of unit.now) (children_at (nodes_of unit.now) enumerator) }
{
    match node_at(unit, enumerator) {
        Some(node) => expression_among(unit, &node.children),
        None => None,
    }
}

fn has_expression(unit: &Unit, enumerator: Handle) -> bool
    requires { unit.now.first ≡ 0 }
    ensures { (facts : List Fact) → result ≡ not (is_none (meaning.expression_of (nodes_of unit.now) facts enumerator)) }
{
    expression_of(unit, enumerator).is_some()
}

// Those that were taken so far, and a child, if it is an enumerator.
fn with_child(
    unit: &Unit,
    types: &Types,
    facts: &NodeFacts,
    taken: Enumerators,
    child: Handle,
) -> Enumerators
    requires whole { unit.now.first ≡ 0 }
    requires facts { All (IsKnownNodeFact types.now) facts.now }
    ensures { (list : List meaning.SeenEnumerator) → StandsFor taken list → StandsFor result (list ++ meaning.enumerators_among (nodes_of unit.now) (nodes_seen types.now facts.now) (child ∷ [])) }
{
    if is_enumerator(kind_at(unit, child)) {
        taken.with(types, has_expression(unit, child), facts.at(child))
    } else {
        taken
    }
}

fn enumerators_among(
    unit: &Unit,
    types: &Types,
    facts: &NodeFacts,
    children: &TagList,
) -> Enumerators
    requires whole { unit.now.first ≡ 0 }
    requires facts { All (IsKnownNodeFact types.now) facts.now }
    ensures { StandsFor result (meaning.enumerators_among (nodes_of unit.now) (nodes_seen types.now facts.now) (handles_of children.now)) }
{
    let mut taken = Enumerators::none();
    for (child, _) in children.iter() {
        taken = with_child(unit, types, facts, taken, child);
    }
    taken
}

/// What is kept of the enumerators among the children of a node. It takes a step for each child, and for each list of attributes in
/// front of the expression of one.
pub fn enumerators_of(unit: &Unit, types: &Types, facts: &NodeFacts, handle: Handle) -> Enumerators
    requires whole { unit.now.first ≡ 0 }
    requires node { handle < end_of unit.now }
    requires facts { All (IsKnownNodeFact types.now) facts.now }
    ensures { StandsFor result (meaning.enumerators_of (nodes_of unit.now) (nodes_seen types.now facts.now) handle) }
{
    enumerators_among(unit, types, facts, &unit.node(handle).children)
}
