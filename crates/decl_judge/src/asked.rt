// What is asked of what is known of nodes.
ghost use Rattle.std.specs.Prelude.{◌≡◌};
ghost use Rattle.decl_judge.specs.Asked as asked;
ghost use Rattle.decl_judge.specs.Asked.{kept_at};
ghost use Rattle.decl_judge.specs.Units.{nodes_of};

use crate::nodes::child_at;
use c_tree::{Handle, Unit};
use node_facts::{NodeFact, NodeFacts, SpecifiedFact};
use sparse_model::TypeId;

/// The type that a node names, or that of a parameter, if it is known.
pub fn named_type_at(facts: &NodeFacts, handle: Handle) -> Option<TypeId>
    ensures { result ≡ asked.named_in (kept_at facts.now handle) }
{
    match facts.at(handle) {
        NodeFact::NamedType(of) => Some(of),
        _ => None,
    }
}

/// The type that a declarator declares, if it is known.
pub fn declared_type_at(facts: &NodeFacts, handle: Handle) -> Option<TypeId>
    ensures { result ≡ asked.declared_in (kept_at facts.now handle) }
{
    match facts.at(handle) {
        NodeFact::Declared(declaration) => Some(declaration.of),
        _ => None,
    }
}

/// What the specifiers of a declaration, a function or a parameter say: they are its first part.
pub fn specifiers_of(unit: &Unit, facts: &NodeFacts, parent: Handle) -> Option<SpecifiedFact>
    requires { unit.now.first ≡ 0 }
    ensures { result ≡ asked.specifiers_kept (nodes_of unit.now) facts.now parent }
{
    match facts.at(child_at(unit, parent, 0)) {
        NodeFact::Specified(specifiers) => Some(specifiers),
        _ => None,
    }
}
