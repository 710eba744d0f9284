// What specifiers say among which structures, unions and enumerations stand (C11 6.7.2): their nodes and what is known of them in,
// the row out. What a specifier with a tag names is known of it.
ghost use Rattle.std.specs.Prelude.{◌≡◌, ◌<◌, Some, All, IfOk, IfSome, OnOk, option_map};
ghost use Rattle.meaning_tree.specs.Nodes.{end_of};
ghost use Rattle.meaning_typing.specs.Tags as meaning;
ghost use Rattle.c_types.specs.Table.{IsTypeId, type_at};
ghost use Rattle.node_facts.specs.Facts.{IsKnownNodeFact, nodes_seen};
ghost use Rattle.node_facts.specs.Growing.{TypesJoin};
ghost use Rattle.expression_rows.specs.Rows.{broken_seen, told};
ghost use Rattle.meaning_rules.specs.Rules.{least_broken};
ghost use Rattle.decl_judge.specs.Seen.{words_seen};
ghost use Rattle.decl_judge.specs.Units.{handles_of, nodes_of};
ghost use Rattle.tag_rows.specs.Seen.{any_naming_handle, row_seen};

use crate::attributes::{bitwise_of_specifiers, marks_of_specifiers};
use crate::row::TagRow;
use body_members::is_tagged;
use c_tree::{Handle, Unit};
use c_types::Types;
use decl_judge::{
    Added, Words, kind_at, named_type_at, names_type, specified_as, type_of_words, words_of,
};
use expression_rows::Broken;
use node_facts::{NodeFact, NodeFacts};
use sparse_model::{NodeKind, TypeId};
use std::alloc::AllocError;
use tag_list::TagList;

fn names_any_type(kind: NodeKind) -> bool
    ensures { result ≡ meaning.names_any_type kind }
{
    names_type(kind) || is_tagged(kind)
}

// The first child that names a type.
fn naming_child(unit: &Unit, children: &TagList) -> Option<Handle>
    requires { unit.now.first ≡ 0 }
    ensures { result ≡ any_naming_handle (nodes_of unit.now) (handles_of children.now) }
{
    for (child, _) in children.iter() {
        if names_any_type(kind_at(unit, child)) {
            return Some(child);
        }
    }
    None
}

// The type by what one of them names, or else by the words; where the named one isn't known, none is.
fn type_said(
    unit: &Unit,
    facts: &NodeFacts,
    types: &mut Types,
    words: Words,
    children: &TagList,
) -> Result<Option<TypeId>, AllocError>
    requires whole { unit.now.first ≡ 0 }
    requires facts { All (IsKnownNodeFact types.old) facts.now }
    ensures made { IfOk result (λ said. option_map (type_at types.new) said ≡ meaning.any_type_said (nodes_of unit.now) (nodes_seen types.old facts.now) (words_seen words) (handles_of children.now)) }
    ensures known { IfOk result (λ said. IfSome said (IsTypeId types.new)) }
    ensures keeps { OnOk result (TypesJoin types.old types.new) }
{
    match naming_child(unit, children) {
        Some(child) => Ok(named_type_at(facts, child)),
        None => Ok(Some(type_of_words(types, words)?)),
    }
}

// What `bitwise` breaks where specifiers say this type.
fn bitwise_broken(unit: &Unit, types: &Types, children: &TagList, said: TypeId) -> Option<Broken>
    requires whole { unit.now.first ≡ 0 }
    requires said { IsTypeId types.now said }
    ensures { option_map broken_seen result ≡ least_broken (meaning.bitwise_broken (nodes_of unit.now) (meaning.attributes_of_specifiers (nodes_of unit.now) (handles_of children.now)) (type_at types.now said)) }
{
    if types.is_integer(said) {
        return None;
    }
    bitwise_of_specifiers(unit, children)
}

// What specifiers say of this type in a declaration that begins at this token.
fn row_of_type(
    unit: &Unit,
    types: &mut Types,
    token: u32,
    children: &TagList,
    words: Words,
    said: TypeId,
) -> Result<TagRow, AllocError>
    requires whole { unit.now.first ≡ 0 }
    requires said { IsTypeId types.old said }
    ensures says { IfOk result (λ row. row_seen types.new row ≡ told (meaning.specifiers_by (nodes_of unit.now) token (meaning.attributes_of_specifiers (nodes_of unit.now) (handles_of children.now)) (words_seen words) (Some (type_at types.old said)))) }
    ensures known { IfOk result (λ row. IsKnownNodeFact types.new row.fact) }
    ensures keeps { OnOk result (TypesJoin types.old types.new) }
{
    if let Some(broken) = bitwise_broken(unit, types, children, said) {
        return Ok(TagRow::breaks(broken));
    }
    let marks = marks_of_specifiers(unit, children)?;
    let added = Added {
        is_const: words.is_const,
        is_volatile: words.is_volatile,
        marks,
    };
    let fact = specified_as(types, token, added, words.storage, said)?;
    Ok(TagRow::known(fact))
}

/// The row of specifiers: their type is that which one of them names, or else that of the words, with what attributes add that
/// stand among them or between a keyword and its tag. Where `bitwise` is among these and the type is none of integers, that is
/// broken, at its word. It takes a step for each specifier, for each part of one that has a tag, and for each attribute.
pub fn specifiers_row(
    unit: &Unit,
    facts: &NodeFacts,
    types: &mut Types,
    handle: Handle,
) -> Result<TagRow, AllocError>
    requires whole { unit.now.first ≡ 0 }
    requires node { handle < end_of unit.now }
    requires facts { All (IsKnownNodeFact types.old) facts.now }
    ensures says { IfOk result (λ row. row_seen types.new row ≡ told (meaning.specifiers_row (nodes_of unit.now) (nodes_seen types.old facts.now) handle)) }
    ensures known { IfOk result (λ row. IsKnownNodeFact types.new row.fact) }
    ensures keeps { OnOk result (TypesJoin types.old types.new) }
{
    let node = unit.node(handle);
    let words = words_of(unit, &node.children);
    match type_said(unit, facts, types, words, &node.children)? {
        Some(said) => row_of_type(unit, types, node.token, &node.children, words, said),
        None => Ok(TagRow::known(NodeFact::Unknown)),
    }
}
