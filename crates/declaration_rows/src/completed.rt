// Arrays whose length an initializer says (C11 6.7.9 p22): a declaration and where its declarator stands in, what it declares to a
// name behind the initializer out. What an initializer makes of an object isn't known here.
ghost use Rattle.std.specs.Prelude.{◌≡◌, ◌+◌, All, length};
ghost use Rattle.meaning_typing.specs.Facts.{Declared, fact_at};
ghost use Rattle.meaning_typing.specs.Names as meaning;
ghost use Rattle.c_types.specs.Table.{IsTypeId, TypeTable};
ghost use Rattle.decl_judge.specs.Units.{nodes_of};
ghost use Rattle.node_facts.specs.Facts.{IsKnownNodeFact, declared_seen, node_seen, nodes_seen};
ghost use Rattle.node_surroundings.specs.Seen.{surrounding_seen, surroundings_seen};
ghost use Rattle.declaration_rows.specs.Completed.{first_from, initializer_or};

use crate::complete::is_unbounded;
use crate::objects::{is_initializer, is_list};
use crate::standing::standing_at;
use c_tree::{Handle, Unit};
use c_types::Types;
use decl_judge::{kind_at, node_at};
use node_facts::{DeclaredFact, NodeFact, NodeFacts};
use node_surroundings::{Surrounding, Surroundings};
use sparse_model::NodeKind;
use tag_list::TagList;

fn initializer_or(kind: NodeKind, handle: Handle, otherwise: Handle) -> Handle
    ensures { result ≡ initializer_or kind handle otherwise }
{
    if is_initializer(kind) {
        handle
    } else {
        otherwise
    }
}

// The initializer that stands behind this place and lists of attributes; where there is none, the other handle.
fn initializer_after(unit: &Unit, children: &TagList, place: u32, otherwise: Handle) -> Handle
    requires { unit.now.first ≡ 0 }
    ensures { result ≡ first_from (nodes_of unit.now) otherwise children.now (place + 1) }
{
    for next in place.saturating_add(1)..children.len() {
        let part = children.get(next).0;
        let kind = kind_at(unit, part);
        if !is_list(kind) {
            return initializer_or(kind, part, otherwise);
        }
    }
    otherwise
}

// The initializer of the declarator with this handle, which stands so; its own handle, if it has none.
fn initializer_behind(unit: &Unit, surrounding: Surrounding, declarator: Handle) -> Handle
    requires { unit.now.first ≡ 0 }
    ensures { result ≡ meaning.initializer_behind (nodes_of unit.now) (surrounding_seen surrounding) declarator }
{
    match node_at(unit, surrounding.parent) {
        Some(node) => initializer_after(unit, &node.children, surrounding.place, declarator),
        None => declarator,
    }
}

fn completed_by(declaration: DeclaredFact, initializer: NodeFact) -> DeclaredFact
    ensures seen { (table : TypeTable) → Declared (declared_seen table result) ≡ meaning.completed_by (declared_seen table declaration) (node_seen table initializer) }
    ensures known { (table : TypeTable) → IsTypeId table declaration.of → IsKnownNodeFact table initializer → IsTypeId table result.of }
{
    match initializer {
        NodeFact::Declared(completed) => completed,
        NodeFact::Unknown => declaration,
        NodeFact::Expression(_) => declaration,
        NodeFact::Specified(_) => declaration,
        NodeFact::NamedType(_) => declaration,
    }
}

/// What the declarator with this handle declares to a name behind nodes of which this is known, where it declares this itself: an
/// array without a length has the one that its initializer says, once that is known. It takes a step for each list of attributes
/// behind an array without a length.
pub fn declared_behind(
    unit: &Unit,
    surroundings: &Surroundings,
    types: &Types,
    facts: &NodeFacts,
    declarator: Handle,
    declaration: DeclaredFact,
) -> DeclaredFact
    requires whole { unit.now.first ≡ 0 }
    requires surroundings { length surroundings.now ≡ length unit.now.nodes }
    requires facts { All (IsKnownNodeFact types.now) facts.now }
    requires of { IsTypeId types.now declaration.of }
    requires declares { fact_at (nodes_seen types.now facts.now) declarator ≡ Declared (declared_seen types.now declaration) }
    ensures seen { Declared (declared_seen types.now result) ≡ meaning.declared_behind (nodes_of unit.now) (surroundings_seen surroundings.now) (nodes_seen types.now facts.now) declarator }
    ensures known { IsTypeId types.now result.of }
{
    if !is_unbounded(types, declaration.of) {
        return declaration;
    }
    let surrounding = standing_at(unit, surroundings, declarator);
    let initializer = initializer_behind(unit, surrounding, declarator);
    completed_by(declaration, facts.at(initializer))
}
