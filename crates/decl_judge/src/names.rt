// Names of types (C11 6.7.7), and `typeof`.
ghost use Rattle.std.specs.Prelude.{◌≡◌, All, IfSome, option_map};
ghost use Rattle.meaning_typing.specs.Declarators as meaning;
ghost use Rattle.meaning_typing.specs.Facts.{fact_at};
ghost use Rattle.c_types.specs.Table.{IsTypeId, TypeTable, type_at};
ghost use Rattle.node_facts.specs.Facts.{IsKnownNodeFact, node_seen, nodes_seen};
ghost use Rattle.decl_judge.specs.Units.{nodes_of};

use crate::asked::{declared_type_at, specifiers_of};
use crate::nodes::child_at;
use crate::parameters::has_declarator;
use c_tree::{Handle, Unit};
use node_facts::{NodeFact, NodeFacts};
use sparse_model::TypeId;

// The type that a name of a type names, if it is known: its declarator tells it, or else its specifiers do.
fn named_type(unit: &Unit, facts: &NodeFacts, name: Handle) -> Option<TypeId>
    requires { unit.now.first ≡ 0 }
    ensures named { (table : TypeTable) → option_map (type_at table) result ≡ meaning.named_type (nodes_of unit.now) (nodes_seen table facts.now) name }
    ensures known { (table : TypeTable) → All (IsKnownNodeFact table) facts.now → IfSome result (IsTypeId table) }
{
    if has_declarator(unit, name) {
        return declared_type_at(facts, child_at(unit, name, 1));
    }
    match specifiers_of(unit, facts, name) {
        Some(specifiers) => Some(specifiers.of),
        None => None,
    }
}

/// What is known of a name of a type.
pub fn name_fact(unit: &Unit, facts: &NodeFacts, name: Handle) -> NodeFact
    requires { unit.now.first ≡ 0 }
    ensures fact { (table : TypeTable) → node_seen table result ≡ meaning.named_if (meaning.named_type (nodes_of unit.now) (nodes_seen table facts.now) name) }
    ensures known { (table : TypeTable) → All (IsKnownNodeFact table) facts.now → IsKnownNodeFact table result }
{
    match named_type(unit, facts, name) {
        Some(of) => NodeFact::NamedType(of),
        None => NodeFact::Unknown,
    }
}

/// What is known of `typeof` over the expression with this handle: the type of a place is the declared one, since nothing is
/// loaded.
pub fn typeof_fact(facts: &NodeFacts, handle: Handle) -> NodeFact
    ensures fact { (table : TypeTable) → node_seen table result ≡ meaning.named_if (meaning.type_designated (fact_at (nodes_seen table facts.now) handle)) }
    ensures known { (table : TypeTable) → All (IsKnownNodeFact table) facts.now → IsKnownNodeFact table result }
{
    match facts.at(handle) {
        NodeFact::Expression(expression) => NodeFact::NamedType(expression.node.of),
        _ => NodeFact::Unknown,
    }
}
