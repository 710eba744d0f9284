// What a node initializes: the object of a declarator, or that of a compound literal.
ghost use Rattle.std.specs.Prelude.{◌≡◌, All, option_map};
ghost use Rattle.meaning_initialized.specs.Initialized as meaning;
ghost use Rattle.meaning_initializers.specs.Reading.{is_static_literal};
ghost use Rattle.meaning_typing.specs.DeclarationRows as rows;
ghost use Rattle.meaning_typing.specs.Declarators as declarators;
ghost use Rattle.meaning_typing.specs.Facts.{fact_at};
ghost use Rattle.meaning_typing.specs.Surroundings.{surrounding_at};
ghost use Rattle.meaning_typing.specs.Units as units;
ghost use Rattle.c_types.specs.Layouts.{told_in};
ghost use Rattle.c_types.specs.Table.{TypeTable};
ghost use Rattle.decl_judge.specs.Units.{nodes_of};
ghost use Rattle.node_facts.specs.Facts.{IsKnownNodeFact, declared_seen, nodes_seen, specified_seen};
ghost use Rattle.node_surroundings.specs.Seen.{surrounding_seen, surroundings_seen};
ghost use Rattle.initialized_judge.specs.Objects.{IsKnownObject, object_seen};

use crate::declarators::declarator_before;
use c_tree::{Handle, Unit};
use c_types::Types;
use decl_judge::{child_at, kind_at, named_type_at, specifiers_of};
use declaration_judge::{in_file, is_no_object, is_unbounded};
use expr_judge::declaration_of;
use node_facts::{DeclaredFact, NodeFacts, SpecifiedFact};
use node_surroundings::{Surrounding, Surroundings};
use sparse_model::{NodeKind, TypeId};

/// What a node initializes.
#[derive(Clone, Copy)]
pub enum Initialized {
    /// Something of which nothing is known, or nothing at all.
    NoObject,
    /// What takes no initializer.
    NoPlace,
    /// Something of a type that no object has.
    Incomplete,
    /// An object of this type, which is static or isn't.
    AnObject(TypeId, bool),
}

fn is_extern_said(specifiers: Option<SpecifiedFact>) -> bool
    ensures { (table : TypeTable) → result ≡ rows.is_extern_said (option_map (specified_seen table) specifiers) }
{
    match specifiers {
        Some(specifiers) => specifiers.storage.is_extern,
        None => false,
    }
}

// Whether `extern` is among the specifiers of a declaration.
fn is_extern(unit: &Unit, _types: &Types, facts: &NodeFacts, declaration: Handle) -> bool
    requires { unit.now.first ≡ 0 }
    ensures { result ≡ rows.is_extern_said (declarators.specifiers_of (nodes_of unit.now) (nodes_seen _types.now facts.now) declaration) }
{
    is_extern_said(specifiers_of(unit, facts, declaration))
}

// Whether what is declared takes no initializer.
fn begins_with_nothing(
    unit: &Unit,
    types: &Types,
    facts: &NodeFacts,
    surrounding: Surrounding,
    declaration: DeclaredFact,
) -> bool
    requires { unit.now.first ≡ 0 }
    ensures { result ≡ meaning.begins_with_nothing (nodes_of unit.now) (surrounding_seen surrounding) (declarators.specifiers_of (nodes_of unit.now) (nodes_seen types.now facts.now) surrounding.parent) (declared_seen types.now declaration) }
{
    declaration.is_typedef
        || !in_file(unit, surrounding) && is_extern(unit, types, facts, surrounding.parent)
}

// What is declared by the node with this handle, whose initializer stands so.
fn declared_object(
    unit: &Unit,
    types: &Types,
    facts: &NodeFacts,
    surrounding: Surrounding,
    declarator: Handle,
) -> Initialized
    requires whole { unit.now.first ≡ 0 }
    requires facts { All (IsKnownNodeFact types.now) facts.now }
    ensures seen { object_seen types.now result ≡ meaning.declared_object (nodes_of unit.now) (surrounding_seen surrounding) (declarators.specifiers_of (nodes_of unit.now) (nodes_seen types.now facts.now) surrounding.parent) (fact_at (nodes_seen types.now facts.now) declarator) }
    ensures known { IsKnownObject types.now result }
{
    match declaration_of(facts.at(declarator)) {
        Some(declaration) => {
            if begins_with_nothing(unit, types, facts, surrounding, declaration) {
                Initialized::NoPlace
            } else {
                Initialized::AnObject(declaration.of, declaration.is_static)
            }
        }
        None => Initialized::NoObject,
    }
}

// The object of a compound literal, whose type is named by the node with this handle.
fn literal_object(types: &Types, facts: &NodeFacts, name: Handle, is_static: bool) -> Initialized
    requires { All (IsKnownNodeFact types.now) facts.now }
    ensures seen { object_seen types.now result ≡ meaning.literal_object (told_in types.now) is_static (fact_at (nodes_seen types.now facts.now) name) }
    ensures known { IsKnownObject types.now result }
{
    match named_type_at(facts, name) {
        Some(of) => {
            if is_no_object(types, of) && !is_unbounded(types, of) {
                Initialized::Incomplete
            } else {
                Initialized::AnObject(of, is_static)
            }
        }
        None => Initialized::NoObject,
    }
}

// Whether the object of a compound literal that stands so is static: no scope but the file's is around it (6.5.2.5 p5).
fn is_static_literal(
    unit: &Unit,
    _surroundings: &Surroundings,
    _handle: Handle,
    surrounding: Surrounding,
) -> bool
    requires whole { unit.now.first ≡ 0 }
    requires stands { surrounding_seen surrounding ≡ surrounding_at (surroundings_seen _surroundings.now) _handle }
    ensures { result ≡ is_static_literal (nodes_of unit.now) (surroundings_seen _surroundings.now) _handle }
{
    in_file(unit, surrounding)
}

/// What the node with this handle initializes, which stands so.
pub fn initialized_at(
    unit: &Unit,
    surroundings: &Surroundings,
    types: &Types,
    facts: &NodeFacts,
    handle: Handle,
    surrounding: Surrounding,
) -> Initialized
    requires whole { unit.now.first ≡ 0 }
    requires stands { surrounding_seen surrounding ≡ surrounding_at (surroundings_seen surroundings.now) handle }
    requires facts { All (IsKnownNodeFact types.now) facts.now }
    ensures seen { object_seen types.now result ≡ meaning.initialized_at (told_in types.now) (nodes_of unit.now) (surroundings_seen surroundings.now) (nodes_seen types.now facts.now) handle }
    ensures known { IsKnownObject types.now result }
{
    match kind_at(unit, handle) {
        NodeKind::Initializer => {
            let declarator = declarator_before(unit, surrounding);
            declared_object(unit, types, facts, surrounding, declarator)
        }
        NodeKind::CompoundLiteral => {
            let is_static = is_static_literal(unit, surroundings, handle, surrounding);
            literal_object(types, facts, child_at(unit, handle, 0), is_static)
        }
        _ => Initialized::NoObject,
    }
}

/// The part of a node that initializes it, an expression or braces.
pub fn initializing_part(unit: &Unit, handle: Handle) -> Handle
    requires { unit.now.first ≡ 0 }
    ensures { result ≡ meaning.initializing_part (nodes_of unit.now) handle }
{
    match kind_at(unit, handle) {
        NodeKind::CompoundLiteral => child_at(unit, handle, 1),
        _ => child_at(unit, handle, 0),
    }
}
