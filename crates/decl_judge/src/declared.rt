// What declarators declare, and the types of parameters (C11 6.2.2, 6.2.4, 6.7.6).
ghost use Rattle.std.specs.Prelude.{◌≡◌, ◌<◌, All, IfOk, IfSome, OnOk, option_map};
ghost use Rattle.meaning_tree.specs.Nodes.{end_of};
ghost use Rattle.meaning_typing.specs.Declarators as meaning;
ghost use Rattle.c_types.specs.Table.{IsTypeId, type_at};
ghost use Rattle.c_tree.specs.Seen.{node_of};
ghost use Rattle.node_facts.specs.Facts.{IsKnownNodeFact, declared_seen, name_seen, node_seen, nodes_seen, specified_seen, storage_seen};
ghost use Rattle.node_facts.specs.Growing.{TypesJoin};
ghost use Rattle.decl_judge.specs.Placed.{declared_behind, is_parameter, nameless_told, placed_type, standing};
ghost use Rattle.decl_judge.specs.Units.{handles_of, named_node, nodes_of};

use crate::asked::{declared_type_at, specifiers_of};
use crate::marking::{adjusted, with_marks};
use crate::marks::own_marks;
use crate::nodes::{child_at, kind_at, token_at};
use crate::parameters::{has_declarator, nameless_marks};
use crate::parts::derived_by;
use c_tree::{Handle, Node, Unit};
use c_types::{Outline, Types};
use node_facts::{DeclaredFact, NodeFact, NodeFacts, SpecifiedFact, Storage};
use sparse_model::{NameId, NodeKind, TypeId};
use std::alloc::{AllocError, Global};
use tag_list::TagList;

/// Where a declarator stands.
#[derive(Clone, Copy, Debug, PartialEq, Eq)]
pub struct DeclaratorPlace {
    /// The node above it, and its place among the parts of that, counted from 0.
    pub parent: Handle,
    pub place: u32,
    /// The node that opened its scope.
    pub scope: Handle,
}

fn is_parameter(kind: NodeKind) -> bool
    ensures { result ≡ is_parameter kind }
{
    match kind {
        NodeKind::Parameter => true,
        _ => false,
    }
}

/// Whether a node of this kind is a unit.
pub fn is_unit(kind: NodeKind) -> bool
    ensures { result ≡ meaning.is_unit kind }
{
    match kind {
        NodeKind::TranslationUnit => true,
        _ => false,
    }
}

fn declares_with_linkage(kind: NodeKind) -> bool
    ensures { result ≡ meaning.declares_with_linkage kind }
{
    match kind {
        NodeKind::Declaration => true,
        NodeKind::FunctionDefinition => true,
        _ => false,
    }
}

// The type of a parameter is adjusted.
fn adjusted_in(types: &mut Types, kind: NodeKind, of: TypeId) -> Result<TypeId, AllocError>
    requires { IsTypeId types.old of }
    ensures made { IfOk result (λ id. type_at types.new id ≡ meaning.adjusted_in kind (type_at types.old of)) }
    ensures known { IfOk result (IsTypeId types.new) }
    ensures keeps { OnOk result (TypesJoin types.old types.new) }
{
    if is_parameter(kind) {
        adjusted(types, of)
    } else {
        Ok(of)
    }
}

// A type with what the attributes of the declarator add, adjusted if it is that of a parameter.
fn type_at_place(
    unit: &Unit,
    types: &mut Types,
    at: DeclaratorPlace,
    derived: TypeId,
) -> Result<TypeId, AllocError>
    requires whole { unit.now.first ≡ 0 }
    requires derived { IsTypeId types.old derived }
    ensures made { IfOk result (λ id. type_at types.new id ≡ placed_type (nodes_of unit.now) at.parent at.place (type_at types.old derived)) }
    ensures known { IfOk result (IsTypeId types.new) }
    ensures keeps { OnOk result (TypesJoin types.old types.new) }
{
    let marks = own_marks(unit, at.parent, at.place)?;
    let token = token_at(unit, at.parent);
    let of = with_marks(types, token, marks, derived)?;
    adjusted_in(types, kind_at(unit, at.parent), of)
}

/// The type that a declarator of these parts gives to what its specifiers say.
pub fn declared_type(
    alloc: Global,
    unit: &Unit,
    facts: &NodeFacts,
    types: &mut Types,
    at: DeclaratorPlace,
    parts: &TagList,
    of: TypeId,
) -> Result<Option<TypeId>, AllocError>
    requires whole { unit.now.first ≡ 0 }
    requires facts { All (IsKnownNodeFact types.old) facts.now }
    requires of { IsTypeId types.old of }
    ensures made { IfOk result (λ found. option_map (type_at types.new) found ≡ meaning.declared_type (nodes_of unit.now) (nodes_seen types.old facts.now) at.parent at.place (handles_of parts.now) (type_at types.old of)) }
    ensures known { IfOk result (λ found. IfSome found (IsTypeId types.new)) }
    ensures keeps { OnOk result (TypesJoin types.old types.new) }
{
    let token = token_at(unit, at.parent);
    match derived_by(alloc, unit, facts, types, token, parts, of)? {
        Some(derived) => Ok(Some(type_at_place(unit, types, at, derived)?)),
        None => Ok(None),
    }
}

fn is_function(types: &Types, of: TypeId) -> bool
    requires { IsTypeId types.now of }
    ensures { result ≡ meaning.is_function (type_at types.now of) }
{
    match types.outline(of) {
        Outline::Function => true,
        _ => false,
    }
}

// Whether what is declared has linkage: at file scope, with `extern`, and as a function (6.2.2 p3 to p6).
fn has_linkage(
    unit: &Unit,
    types: &Types,
    at: DeclaratorPlace,
    storage: Storage,
    of: TypeId,
) -> bool
    requires whole { unit.now.first ≡ 0 }
    requires of { IsTypeId types.now of }
    ensures { result ≡ meaning.links_in (nodes_of unit.now) (standing at) (storage_seen storage) (type_at types.now of) }
{
    if !declares_with_linkage(kind_at(unit, at.parent)) || storage.is_typedef {
        return false;
    }
    is_unit(kind_at(unit, at.scope)) || storage.is_extern || is_function(types, of)
}

// What a declarator with this name and this type declares.
fn declared(
    unit: &Unit,
    types: &Types,
    at: DeclaratorPlace,
    name: NameId,
    storage: Storage,
    of: TypeId,
) -> DeclaredFact
    requires whole { unit.now.first ≡ 0 }
    requires of { IsTypeId types.now of }
    ensures seen { declared_seen types.now result ≡ meaning.declared (nodes_of unit.now) (standing at) (name_seen name) (storage_seen storage) (type_at types.now of) }
    ensures of { result.of ≡ of }
{
    let linked = has_linkage(unit, types, at, storage, of);
    DeclaredFact {
        name,
        of,
        is_typedef: storage.is_typedef,
        has_linkage: linked,
        is_static: storage.is_static || linked,
        is_register: storage.is_register,
    }
}

// What is known of a declarator behind these specifiers.
fn declarator_behind(
    alloc: Global,
    unit: &Unit,
    facts: &NodeFacts,
    types: &mut Types,
    at: DeclaratorPlace,
    declarator: &Node,
    specifiers: SpecifiedFact,
) -> Result<NodeFact, AllocError>
    requires whole { unit.now.first ≡ 0 }
    requires facts { All (IsKnownNodeFact types.old) facts.now }
    requires specifiers { IsTypeId types.old specifiers.of }
    ensures fact { IfOk result (λ fact. node_seen types.new fact ≡ declared_behind (nodes_of unit.now) (standing at) (nodes_seen types.old facts.now) (named_node (node_of declarator.now)) (specified_seen types.old specifiers)) }
    ensures known { IfOk result (IsKnownNodeFact types.new) }
    ensures keeps { OnOk result (TypesJoin types.old types.new) }
{
    let parts = &declarator.children;
    match declared_type(alloc, unit, facts, types, at, parts, specifiers.of)? {
        Some(of) => {
            let fact = declared(unit, types, at, declarator.name, specifiers.storage, of);
            Ok(NodeFact::Declared(fact))
        }
        None => Ok(NodeFact::Unknown),
    }
}

/// What is known of the declarator with this handle, which stands at this place. It takes a step a part besides those of its
/// parts and attributes.
pub fn declarator_fact(
    alloc: Global,
    unit: &Unit,
    facts: &NodeFacts,
    types: &mut Types,
    at: DeclaratorPlace,
    handle: Handle,
) -> Result<NodeFact, AllocError>
    requires whole { unit.now.first ≡ 0 }
    requires handle { handle < end_of unit.now }
    requires facts { All (IsKnownNodeFact types.old) facts.now }
    ensures fact { IfOk result (λ fact. node_seen types.new fact ≡ meaning.declarator_fact (nodes_of unit.now) (standing at) (nodes_seen types.old facts.now) handle (meaning.specifiers_of (nodes_of unit.now) (nodes_seen types.old facts.now) at.parent)) }
    ensures known { IfOk result (IsKnownNodeFact types.new) }
    ensures keeps { OnOk result (TypesJoin types.old types.new) }
{
    let declarator = unit.node(handle);
    match specifiers_of(unit, facts, at.parent) {
        Some(specifiers) => {
            declarator_behind(alloc, unit, facts, types, at, declarator, specifiers)
        }
        None => Ok(NodeFact::Unknown),
    }
}

// The type of a parameter without a declarator, of which the specifiers say this.
fn nameless_type(
    unit: &Unit,
    types: &mut Types,
    parameter: Handle,
    specifiers: SpecifiedFact,
) -> Result<TypeId, AllocError>
    requires whole { unit.now.first ≡ 0 }
    requires specifiers { IsTypeId types.old specifiers.of }
    ensures made { IfOk result (λ id. type_at types.new id ≡ meaning.adjusted (meaning.nameless_type (nodes_of unit.now) parameter (specified_seen types.old specifiers))) }
    ensures known { IfOk result (IsTypeId types.new) }
    ensures keeps { OnOk result (TypesJoin types.old types.new) }
{
    let marks = nameless_marks(unit, parameter)?;
    let token = token_at(unit, parameter);
    let of = with_marks(types, token, marks, specifiers.of)?;
    adjusted(types, of)
}

// The same, if the specifiers are known.
fn nameless_type_of(
    unit: &Unit,
    facts: &NodeFacts,
    types: &mut Types,
    parameter: Handle,
) -> Result<Option<TypeId>, AllocError>
    requires whole { unit.now.first ≡ 0 }
    requires facts { All (IsKnownNodeFact types.old) facts.now }
    ensures made { IfOk result (λ found. option_map (type_at types.new) found ≡ nameless_told (nodes_of unit.now) parameter (meaning.specifiers_of (nodes_of unit.now) (nodes_seen types.old facts.now) parameter)) }
    ensures known { IfOk result (λ found. IfSome found (IsTypeId types.new)) }
    ensures keeps { OnOk result (TypesJoin types.old types.new) }
{
    match specifiers_of(unit, facts, parameter) {
        Some(specifiers) => Ok(Some(nameless_type(unit, types, parameter, specifiers)?)),
        None => Ok(None),
    }
}

/// The type of a parameter, if it is known.
pub fn parameter_type(
    unit: &Unit,
    facts: &NodeFacts,
    types: &mut Types,
    parameter: Handle,
) -> Result<Option<TypeId>, AllocError>
    requires whole { unit.now.first ≡ 0 }
    requires facts { All (IsKnownNodeFact types.old) facts.now }
    ensures made { IfOk result (λ found. option_map (type_at types.new) found ≡ meaning.parameter_type (nodes_of unit.now) (nodes_seen types.old facts.now) parameter) }
    ensures known { IfOk result (λ found. IfSome found (IsTypeId types.new)) }
    ensures keeps { OnOk result (TypesJoin types.old types.new) }
{
    if has_declarator(unit, parameter) {
        return Ok(declared_type_at(facts, child_at(unit, parameter, 1)));
    }
    nameless_type_of(unit, facts, types, parameter)
}

/// What is known of a parameter.
pub fn parameter_fact(
    unit: &Unit,
    facts: &NodeFacts,
    types: &mut Types,
    parameter: Handle,
) -> Result<NodeFact, AllocError>
    requires whole { unit.now.first ≡ 0 }
    requires facts { All (IsKnownNodeFact types.old) facts.now }
    ensures fact { IfOk result (λ fact. node_seen types.new fact ≡ meaning.parameter_fact (nodes_of unit.now) (nodes_seen types.old facts.now) parameter) }
    ensures known { IfOk result (IsKnownNodeFact types.new) }
    ensures keeps { OnOk result (TypesJoin types.old types.new) }
{
    match parameter_type(unit, facts, types, parameter)? {
        Some(of) => Ok(NodeFact::NamedType(of)),
        None => Ok(NodeFact::Unknown),
    }
}
