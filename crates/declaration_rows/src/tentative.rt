// Tentative definitions (C11 6.9.2 p2): objects at file scope without an initializer, whose types have to be complete at the end of the
// unit. What may be one is kept while nodes come in their order, so that the end takes one step for each.
ghost use Rattle.std.specs.Prelude.{◌≡◌, ◌++◌, ◌∷◌, ◌&&◌, not, [], All, List, OnErr, OnOk, length, option_map};
ghost use Rattle.std.specs.List.{flat_map};
ghost use Rattle.meaning_rules.specs.Rules.{least_broken};
ghost use Rattle.meaning_typing.specs.DeclarationRows as meaning;
ghost use Rattle.meaning_typing.specs.Declarators as declarators;
ghost use Rattle.meaning_typing.specs.Facts.{Declared, Fact};
ghost use Rattle.meaning_typing.specs.Names as names;
ghost use Rattle.meaning_typing.specs.Surroundings as around;
ghost use Rattle.meaning_typing.specs.Units.{kind_at as kind_of, node_at as node_of_unit};
ghost use Rattle.c_types.specs.Layouts.{told_in};
ghost use Rattle.c_types.specs.Table.{Extends, IsTypeId, TypeTable, type_at};
ghost use Rattle.decl_judge.specs.Units.{nodes_of};
ghost use Rattle.expression_rows.specs.Rows.{broken_seen};
ghost use Rattle.node_facts.specs.Facts.{IsKnownNodeFact, declared_seen, node_seen, nodes_seen, specified_seen};
ghost use Rattle.node_surroundings.specs.Seen.{surrounding_seen, surroundings_seen};
ghost use Rattle.declaration_rows.specs.Kept.{AreLinked, AreTentative, at_end, declared_by, may_be_tentative, tentative_by};

use crate::complete::{incomplete_name, is_no_object, is_unbounded};
use crate::objects::{has_initializer, in_file, is_declaration_kind};
use crate::standing::standing_at;
use c_tree::{Handle, Unit};
use c_types::Types;
use decl_judge::{kind_at, specifiers_of, token_at};
use expression_rows::{Broken, is_function, lesser};
use linked_names::LinkedNames;
use node_facts::{DeclaredFact, NodeFact, NodeFacts, SpecifiedFact};
use node_surroundings::{Surrounding, Surroundings};
use sparse_model::{NodeKind, TypeId};
use std::alloc::{AllocError, Global};
use std::marker::Model;

// Whether what a declarator that stands so declares is tentative, unless `extern` is said of it.
fn may_be_tentative(
    unit: &Unit,
    types: &Types,
    surrounding: Surrounding,
    declaration: DeclaredFact,
) -> bool
    requires whole { unit.now.first ≡ 0 }
    requires of { IsTypeId types.now declaration.of }
    ensures { result ≡ may_be_tentative (nodes_of unit.now) (surrounding_seen surrounding) (declared_seen types.now declaration) }
{
    is_declaration_kind(kind_at(unit, surrounding.parent))
        && in_file(unit, surrounding)
        && !declaration.is_typedef
        && !is_function(types, declaration.of)
        && !has_initializer(unit, surrounding)
}

fn is_extern_said(specifiers: Option<SpecifiedFact>) -> bool
    ensures { (table : TypeTable) → result ≡ meaning.is_extern_said (option_map (specified_seen table) specifiers) }
{
    match specifiers {
        Some(specifiers) => specifiers.storage.is_extern,
        None => false,
    }
}

// Whether `extern` is among the specifiers of a declaration.
fn is_extern(unit: &Unit, _types: &Types, facts: &NodeFacts, declaration: Handle) -> bool
    requires { unit.now.first ≡ 0 }
    ensures { result ≡ meaning.is_extern_said (declarators.specifiers_of (nodes_of unit.now) (nodes_seen _types.now facts.now) declaration) }
{
    is_extern_said(specifiers_of(unit, facts, declaration))
}

/// Whether what a declarator that stands so declares is tentative.
#[tactic(auto, using(crate::proofs::TentativeLemmas::tentative_told))]
pub fn is_tentative(
    unit: &Unit,
    types: &Types,
    facts: &NodeFacts,
    surrounding: Surrounding,
    declaration: DeclaredFact,
) -> bool
    requires whole { unit.now.first ≡ 0 }
    requires of { IsTypeId types.now declaration.of }
    ensures { result ≡ meaning.is_tentative (nodes_of unit.now) (nodes_seen types.now facts.now) (surrounding_seen surrounding) (declared_seen types.now declaration) }
{
    may_be_tentative(unit, types, surrounding, declaration)
        && !is_extern(unit, types, facts, surrounding.parent)
}

// An initializer has what its declarator declares, and is none.
fn fact_of_declarator(unit: &Unit, handle: Handle, fact: NodeFact) -> NodeFact
    requires { unit.now.first ≡ 0 }
    ensures seen { (table : TypeTable) → node_seen table result ≡ declared_by (kind_of (nodes_of unit.now) handle) (node_seen table fact) }
    ensures known { (table : TypeTable) → IsKnownNodeFact table fact → IsKnownNodeFact table result }
{
    match kind_at(unit, handle) {
        NodeKind::Declarator => fact,
        _ => NodeFact::Unknown,
    }
}

/// What a tentative object, whose name has this type, breaks at its name at the end of the unit: a length may be missing, and behind a
/// function of its name there is no object.
pub fn tentative_broken(types: &Types, token: u32, of: TypeId) -> Option<Broken>
    requires { IsTypeId types.now of }
    ensures { option_map broken_seen result ≡ least_broken (meaning.tentative_broken (told_in types.now) token (type_at types.now of)) }
{
    incomplete_name(
        token,
        !is_function(types, of) && is_no_object(types, of) && !is_unbounded(types, of),
    )
}

/// The type that a declaration gives to its name behind nodes of which this is known, where those with linkage are kept.
pub fn type_of_name(
    types: &Types,
    _facts: &NodeFacts,
    linked: &LinkedNames,
    declaration: DeclaredFact,
) -> TypeId
    requires over { Extends linked.now.over types.now }
    requires linked { AreLinked types.now _facts.now linked.now }
    requires of { IsTypeId types.now declaration.of }
    ensures seen { type_at types.now result ≡ names.type_of_name (nodes_seen types.now _facts.now) (declared_seen types.now declaration) }
    ensures known { IsTypeId types.now result }
{
    if !declaration.has_linkage {
        return declaration.of;
    }
    linked.types_are_known();
    match linked.type_of(declaration.name) {
        Some(of) => of,
        None => declaration.of,
    }
}

/// The objects that are tentative unless `extern` is said of them. Its value is the list of the handles of their declarators, in
/// order.
#[derive(Drop)]
pub struct TentativeObjects {
    handles: Vec<Handle>,
}

impl Model for TentativeObjects {
    ghost use Rattle.std.specs.Prelude.{List, ℕ};

    ghost Value = { List ℕ };

    ghost view = { λ objects. objects.handles.items };
}

impl TentativeObjects {
    ghost use Rattle.meaning_typing.specs.Units.{UnitNodes};

    /// No objects, in no memory.
    pub fn new(alloc: Global) -> TentativeObjects
        ensures none { result ≡ [] }
        ensures before { (nodes : UnitNodes) (surroundings : List around.Surrounding) → AreTentative nodes surroundings [] result }
    {
        TentativeObjects {
            handles: Vec::new(alloc),
        }
    }

    fn keep_declaration(
        &mut self,
        unit: &Unit,
        types: &Types,
        handle: Handle,
        surrounding: Surrounding,
        declaration: DeclaredFact,
    ) -> Result<(), AllocError>
        requires whole { unit.now.first ≡ 0 }
        requires of { IsTypeId types.now declaration.of }
        ensures ok { OnOk result (self.new ≡ self.old ++ tentative_by (nodes_of unit.now) handle (surrounding_seen surrounding) (Declared (declared_seen types.now declaration))) }
        ensures err { OnErr result (self.new ≡ self.old) }
    {
        if may_be_tentative(unit, types, surrounding, declaration) {
            self.handles.push(handle)?;
        }
        Ok(())
    }

    fn keep_fact(
        &mut self,
        unit: &Unit,
        types: &Types,
        handle: Handle,
        surrounding: Surrounding,
        fact: NodeFact,
    ) -> Result<(), AllocError>
        requires whole { unit.now.first ≡ 0 }
        requires fact { IsKnownNodeFact types.now fact }
        ensures ok { OnOk result (self.new ≡ self.old ++ tentative_by (nodes_of unit.now) handle (surrounding_seen surrounding) (node_seen types.now fact)) }
        ensures err { OnErr result (self.new ≡ self.old) }
    {
        match fact {
            NodeFact::Declared(declaration) => {
                self.keep_declaration(unit, types, handle, surrounding, declaration)
            }
            NodeFact::Unknown => Ok(()),
            NodeFact::Expression(_) => Ok(()),
            NodeFact::Specified(_) => Ok(()),
            NodeFact::NamedType(_) => Ok(()),
        }
    }

    /// The next node is known, which stands so: an object that may be tentative is kept. A refusal, which is want of memory, changes
    /// nothing.
    pub fn keep(
        &mut self,
        unit: &Unit,
        types: &Types,
        handle: Handle,
        surrounding: Surrounding,
        fact: NodeFact,
    ) -> Result<(), AllocError>
        requires whole { unit.now.first ≡ 0 }
        requires fact { IsKnownNodeFact types.now fact }
        ensures kept { OnOk result ((surroundings : List around.Surrounding) (known : List Fact) → length known ≡ handle → around.surrounding_at surroundings handle ≡ surrounding_seen surrounding → AreTentative (nodes_of unit.now) surroundings known self.old → AreTentative (nodes_of unit.now) surroundings (known ++ node_seen types.now fact ∷ []) self.new) }
        ensures err { OnErr result (self.new ≡ self.old) }
    {
        let fact = fact_of_declarator(unit, handle, fact);
        self.keep_fact(unit, types, handle, surrounding, fact)
    }
}

// What the declaration with this handle breaks at the end of the unit.
fn declaration_at_end(
    unit: &Unit,
    types: &Types,
    facts: &NodeFacts,
    linked: &LinkedNames,
    handle: Handle,
    surrounding: Surrounding,
    declaration: DeclaredFact,
) -> Option<Broken>
    requires whole { unit.now.first ≡ 0 }
    requires over { Extends linked.now.over types.now }
    requires linked { AreLinked types.now facts.now linked.now }
    requires of { IsTypeId types.now declaration.of }
    ensures { option_map broken_seen result ≡ least_broken (meaning.tentative_of (told_in types.now) (nodes_of unit.now) (nodes_seen types.now facts.now) (node_of_unit (nodes_of unit.now) handle).token (surrounding_seen surrounding) (Declared (declared_seen types.now declaration))) }
{
    if !is_tentative(unit, types, facts, surrounding, declaration) {
        return None;
    }
    let of = type_of_name(types, facts, linked, declaration);
    tentative_broken(types, token_at(unit, handle), of)
}

// What the node with this handle breaks there.
fn node_at_end(
    unit: &Unit,
    surroundings: &Surroundings,
    types: &Types,
    facts: &NodeFacts,
    linked: &LinkedNames,
    handle: Handle,
) -> Option<Broken>
    requires whole { unit.now.first ≡ 0 }
    requires surroundings { length surroundings.now ≡ length unit.now.nodes }
    requires facts { All (IsKnownNodeFact types.now) facts.now }
    requires over { Extends linked.now.over types.now }
    requires linked { AreLinked types.now facts.now linked.now }
    ensures { option_map broken_seen result ≡ least_broken (at_end (told_in types.now) (nodes_of unit.now) (surroundings_seen surroundings.now) (nodes_seen types.now facts.now) handle) }
{
    let surrounding = standing_at(unit, surroundings, handle);
    match fact_of_declarator(unit, handle, facts.at(handle)) {
        NodeFact::Declared(declaration) => {
            declaration_at_end(unit, types, facts, linked, handle, surrounding, declaration)
        }
        _ => None,
    }
}

/// The least that the tentative objects of a unit break at its end, of whose nodes this is known and these are kept: an object that
/// is declared only so has a complete type, but for a length. It takes a few steps for each of them.
pub fn unit_end_broken(
    unit: &Unit,
    surroundings: &Surroundings,
    types: &Types,
    facts: &NodeFacts,
    linked: &LinkedNames,
    objects: &TentativeObjects,
) -> Option<Broken>
    requires whole { unit.now.first ≡ 0 }
    requires surroundings { length surroundings.now ≡ length unit.now.nodes }
    requires facts { All (IsKnownNodeFact types.now) facts.now }
    requires over { Extends linked.now.over types.now }
    requires linked { AreLinked types.now facts.now linked.now }
    requires objects { AreTentative (nodes_of unit.now) (surroundings_seen surroundings.now) (nodes_seen types.now facts.now) objects.now }
    ensures { option_map broken_seen result ≡ least_broken (meaning.unit_end_broken (told_in types.now) (nodes_of unit.now) (surroundings_seen surroundings.now) (nodes_seen types.now facts.now) (length facts.now)) }
{
    all_at_end(unit, surroundings, types, facts, linked, &objects.handles)
}

// What the nodes with these handles break there.
fn all_at_end(
    unit: &Unit,
    surroundings: &Surroundings,
    types: &Types,
    facts: &NodeFacts,
    linked: &LinkedNames,
    handles: &[Handle],
) -> Option<Broken>
    requires whole { unit.now.first ≡ 0 }
    requires surroundings { length surroundings.now ≡ length unit.now.nodes }
    requires facts { All (IsKnownNodeFact types.now) facts.now }
    requires over { Extends linked.now.over types.now }
    requires linked { AreLinked types.now facts.now linked.now }
    ensures { option_map broken_seen result ≡ least_broken (flat_map (at_end (told_in types.now) (nodes_of unit.now) (surroundings_seen surroundings.now) (nodes_seen types.now facts.now)) handles.now) }
{
    let mut least = None;
    for handle in handles {
        least = lesser(
            least,
            node_at_end(unit, surroundings, types, facts, linked, *handle),
        );
    }
    least
}
