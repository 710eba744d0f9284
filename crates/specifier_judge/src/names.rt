// Names of types by their nodes, names that stand for types, and `typeof` (C11 6.7.7, 6.7.8). Expressions aren't known here.
ghost use Rattle.std.specs.Prelude.{◌≡◌, ◌<◌, ◌≤◌, ◌^◌, All, get_or, length};
ghost use Rattle.meaning_tree.specs.Nodes.{end_of};
ghost use Rattle.meaning_typing.specs.Declarators as meaning;
ghost use Rattle.meaning_typing.specs.Facts.{fact_at};
ghost use Rattle.meaning_typing.specs.Rows as rows;
ghost use Rattle.meaning_typing.specs.Units.{child_at as child_of, node_at as node_of_unit};
ghost use Rattle.c_types.specs.Table.{TypeTable};
ghost use Rattle.decl_judge.specs.Units.{nodes_of};
ghost use Rattle.expr_judge.specs.Rows.{SaysOnly};
ghost use Rattle.node_facts.specs.declared.fact.NodeFact.TheVariants.{Unknown};
ghost use Rattle.node_facts.specs.Facts.{IsKnownNodeFact, node_seen, nodes_seen};

use c_tree::{Handle, Unit};
use decl_judge::{child_at, name_fact, typeof_fact};
use expr_judge::NodeRow;
use node_facts::{NodeFact, NodeFacts};

fn fact_numbered(facts: &NodeFacts, number: u64) -> NodeFact
    requires { length facts.now ≤ 2 ^ 32 }
    ensures { result ≡ get_or facts.now number Unknown }
{
    match Handle::try_from(number) {
        Ok(handle) => facts.at(handle),
        Err(_) => NodeFact::Unknown,
    }
}

// The type that a declarator declares of which this is known.
fn declared_type(fact: NodeFact) -> NodeFact
    ensures seen { (table : TypeTable) → node_seen table result ≡ meaning.named_if (meaning.type_declared (node_seen table fact)) }
    ensures known { (table : TypeTable) → IsKnownNodeFact table fact → IsKnownNodeFact table result }
{
    match fact {
        NodeFact::Declared(declaration) => NodeFact::NamedType(declaration.of),
        _ => NodeFact::Unknown,
    }
}

/// The row of a name that stands for the type which a declarator declares (6.7.8). It takes a few steps.
pub fn typedef_name(unit: &Unit, facts: &NodeFacts, handle: Handle) -> NodeRow
    requires whole { unit.now.first ≡ 0 }
    requires node { handle < end_of unit.now }
    requires few { length facts.now ≤ 2 ^ 32 }
    ensures { (table : TypeTable) → All (IsKnownNodeFact table) facts.now → SaysOnly table result (rows.known (meaning.named_if (meaning.type_declared (fact_at (nodes_seen table facts.now) (node_of_unit (nodes_of unit.now) handle).number)))) }
{
    let named = fact_numbered(facts, unit.node(handle).number);
    NodeRow::known(declared_type(named))
}

/// The row of a name of a type (6.7.7). It takes a few steps.
pub fn type_name(unit: &Unit, facts: &NodeFacts, handle: Handle) -> NodeRow
    requires { unit.now.first ≡ 0 }
    ensures { (table : TypeTable) → All (IsKnownNodeFact table) facts.now → SaysOnly table result (rows.known (meaning.named_if (meaning.named_type (nodes_of unit.now) (nodes_seen table facts.now) handle))) }
{
    NodeRow::known(name_fact(unit, facts, handle))
}

/// The row of `typeof` over a name of a type: it names the same.
pub fn typeof_name(unit: &Unit, facts: &NodeFacts, handle: Handle) -> NodeRow
    requires { unit.now.first ≡ 0 }
    ensures { (table : TypeTable) → All (IsKnownNodeFact table) facts.now → SaysOnly table result (rows.known (fact_at (nodes_seen table facts.now) (child_of (nodes_of unit.now) handle 0))) }
{
    NodeRow::known(facts.at(child_at(unit, handle, 0)))
}

/// The row of `typeof` over an expression, of which nothing is loaded.
pub fn typeof_expression(unit: &Unit, facts: &NodeFacts, handle: Handle) -> NodeRow
    requires { unit.now.first ≡ 0 }
    ensures { (table : TypeTable) → All (IsKnownNodeFact table) facts.now → SaysOnly table result (rows.known (meaning.named_if (meaning.type_designated (fact_at (nodes_seen table facts.now) (child_of (nodes_of unit.now) handle 0))))) }
{
    NodeRow::known(typeof_fact(facts, child_at(unit, handle, 0)))
}
