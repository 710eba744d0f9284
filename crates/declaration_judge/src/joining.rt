// What one node more adds to the declarations with linkage and to the typedefs (C11 6.2.2, 6.7.8): what is known of it in, nothing out
// where it declares none of them.
ghost use Rattle.std.specs.Prelude.{◌≡◌, ◌++◌, OnOk};
ghost use Rattle.c_types.specs.Table.{Extends, IsTypeId};
ghost use Rattle.decl_judge.specs.Units.{nodes_of};
ghost use Rattle.node_facts.specs.declared.fact.NodeFact.TheVariants as facts;
ghost use Rattle.node_facts.specs.Facts.{IsKnownNodeFact};
ghost use Rattle.node_facts.specs.Growing.{TypesJoin};
ghost use Rattle.node_surroundings.specs.Seen.{surrounding_seen};
ghost use Rattle.declaration_judge.specs.Kept.{declared_of, linked_of, typedef_of};

use c_tree::{Handle, Unit};
use c_types::Types;
use declared_contexts::contexts_of;
use linked_names::{LinkedContexts, LinkedNames, TypedefNames};
use node_facts::{DeclaredFact, NodeFact};
use node_surroundings::Surrounding;
use std::alloc::AllocError;

fn link_declaration(
    types: &mut Types,
    linked: &mut LinkedNames,
    declaration: DeclaredFact,
) -> Result<(), AllocError>
    requires over { Extends linked.old.over types.old }
    requires known { IsTypeId types.old declaration.of }
    ensures types { OnOk result (TypesJoin types.old types.new) }
    ensures linked { OnOk result (linked.new.declarations ≡ linked.old.declarations ++ linked_of (facts.Declared declaration)) }
    ensures over { OnOk result (Extends linked.new.over types.new) }
{
    if !declaration.has_linkage {
        return Ok(());
    }
    linked.declare(types, declaration.name, declaration.of)
}

/// Keeps what is known of a node among the declarations with linkage, if it is one.
pub fn link(types: &mut Types, linked: &mut LinkedNames, fact: NodeFact) -> Result<(), AllocError>
    requires over { Extends linked.old.over types.old }
    requires known { IsKnownNodeFact types.old fact }
    ensures types { OnOk result (TypesJoin types.old types.new) }
    ensures linked { OnOk result (linked.new.declarations ≡ linked.old.declarations ++ linked_of fact) }
    ensures over { OnOk result (Extends linked.new.over types.new) }
{
    match fact {
        NodeFact::Declared(declaration) => link_declaration(types, linked, declaration),
        NodeFact::Unknown => Ok(()),
        NodeFact::Expression(_) => Ok(()),
        NodeFact::Specified(_) => Ok(()),
        NodeFact::NamedType(_) => Ok(()),
    }
}

fn carry_declaration(
    unit: &Unit,
    types: &mut Types,
    contexts: &mut LinkedContexts,
    handle: Handle,
    surrounding: Surrounding,
    declaration: DeclaredFact,
) -> Result<(), AllocError>
    requires whole { unit.now.first ≡ 0 }
    requires over { Extends contexts.old.over types.old }
    requires known { IsTypeId types.old declaration.of }
    ensures types { OnOk result (TypesJoin types.old types.new) }
    ensures contexts { OnOk result (contexts.new.declarations ≡ contexts.old.declarations ++ declared_of (nodes_of unit.now) handle (surrounding_seen surrounding) (facts.Declared declaration)) }
    ensures over { OnOk result (Extends contexts.new.over types.new) }
{
    if !declaration.has_linkage {
        return Ok(());
    }
    let sums = contexts_of(unit, handle, surrounding.parent, surrounding.place)?;
    contexts.declare(types, handle, declaration.name, declaration.of, sums)
}

/// Keeps what is known of the node with this handle, which stands so, among the declarations with linkage and their contexts, if it
/// is one. It takes a step for each attribute.
pub fn carry(
    unit: &Unit,
    types: &mut Types,
    contexts: &mut LinkedContexts,
    handle: Handle,
    surrounding: Surrounding,
    fact: NodeFact,
) -> Result<(), AllocError>
    requires whole { unit.now.first ≡ 0 }
    requires over { Extends contexts.old.over types.old }
    requires known { IsKnownNodeFact types.old fact }
    ensures types { OnOk result (TypesJoin types.old types.new) }
    ensures contexts { OnOk result (contexts.new.declarations ≡ contexts.old.declarations ++ declared_of (nodes_of unit.now) handle (surrounding_seen surrounding) fact) }
    ensures over { OnOk result (Extends contexts.new.over types.new) }
{
    match fact {
        NodeFact::Declared(declaration) => {
            carry_declaration(unit, types, contexts, handle, surrounding, declaration)
        }
        NodeFact::Unknown => Ok(()),
        NodeFact::Expression(_) => Ok(()),
        NodeFact::Specified(_) => Ok(()),
        NodeFact::NamedType(_) => Ok(()),
    }
}

fn name_declaration(
    typedefs: &mut TypedefNames,
    scope: Handle,
    declaration: DeclaredFact,
) -> Result<(), AllocError>
    ensures { OnOk result (typedefs.new ≡ typedefs.old ++ typedef_of scope (facts.Declared declaration)) }
{
    if !declaration.is_typedef {
        return Ok(());
    }
    typedefs.declare(scope, declaration.name, declaration.of)
}

/// Keeps what is known of a node in this scope among the typedefs, if it is one.
pub fn name_type(
    typedefs: &mut TypedefNames,
    scope: Handle,
    fact: NodeFact,
) -> Result<(), AllocError>
    ensures { OnOk result (typedefs.new ≡ typedefs.old ++ typedef_of scope fact) }
{
    match fact {
        NodeFact::Declared(declaration) => name_declaration(typedefs, scope, declaration),
        NodeFact::Unknown => Ok(()),
        NodeFact::Expression(_) => Ok(()),
        NodeFact::Specified(_) => Ok(()),
        NodeFact::NamedType(_) => Ok(()),
    }
}
