// What specifiers say (C11 6.7.1 to 6.7.3).
ghost use Rattle.std.specs.Prelude.{◌≡◌, All, IfOk, IfSome, OnOk, option_map};
ghost use Rattle.meaning_typing.specs.Facts as facts;
ghost use Rattle.meaning_typing.specs.Specifiers as meaning;
ghost use Rattle.c_types.specs.Table.{IsTypeId, type_at};
ghost use Rattle.node_facts.specs.Facts.{IsKnownNodeFact, node_seen, nodes_seen, storage_seen};
ghost use Rattle.node_facts.specs.Growing.{TypesJoin};
ghost use Rattle.decl_judge.specs.Asked.{naming_handle};
ghost use Rattle.decl_judge.specs.Marking.{added_to};
ghost use Rattle.decl_judge.specs.Seen.{words_seen};
ghost use Rattle.decl_judge.specs.Units.{handles_of, nodes_of};

use crate::asked::named_type_at;
use crate::marking::{Added, make_plain, with_added};
use crate::marks::marks_among;
use crate::nodes::kind_at;
use crate::words::{Words, words_of};
use c_tree::{Handle, Unit};
use c_types::{ShapeBase, Types};
use node_facts::{NodeFact, NodeFacts, SpecifiedFact, Storage};
use sparse_model::{NodeKind, TypeId};
use std::alloc::AllocError;
use tag_list::TagList;

impl Words {
    ghost use Rattle.decl_judge.specs.Seen.{base_of_words};

    // What the type is that they name.
    fn base(self) -> ShapeBase
        ensures { result ≡ base_of_words (words_seen self) }
    {
        if self.has_void {
            ShapeBase::Void
        } else {
            ShapeBase::Integer(self.kind(), None)
        }
    }
}

/// The type that words name.
pub fn type_of_words(types: &mut Types, words: Words) -> Result<TypeId, AllocError>
    ensures made { IfOk result (λ id. type_at types.new id ≡ meaning.type_of_words (words_seen words)) }
    ensures known { IfOk result (IsTypeId types.new) }
    ensures keeps { OnOk result (TypesJoin types.old types.new) }
{
    make_plain(types, words.base())
}

/// Whether a specifier of this kind names a type, so that no words do (C11 6.7.2 p2).
pub fn names_type(kind: NodeKind) -> bool
    ensures { result ≡ meaning.names_type kind }
{
    match kind {
        NodeKind::TypedefName => true,
        NodeKind::TypeofType => true,
        NodeKind::TypeofExpression => true,
        _ => false,
    }
}

// The first child that names a type.
fn naming_child(unit: &Unit, children: &TagList) -> Option<Handle>
    requires { unit.now.first ≡ 0 }
    ensures { result ≡ naming_handle (nodes_of unit.now) (handles_of children.now) }
{
    for (child, _) in children.iter() {
        if names_type(kind_at(unit, child)) {
            return Some(child);
        }
    }
    None
}

// The type by what one of them names, or else by the words; where the named one isn't known, none is.
fn type_said(
    unit: &Unit,
    facts: &NodeFacts,
    types: &mut Types,
    words: Words,
    children: &TagList,
) -> Result<Option<TypeId>, AllocError>
    requires whole { unit.now.first ≡ 0 }
    requires facts { All (IsKnownNodeFact types.old) facts.now }
    ensures made { IfOk result (λ said. option_map (type_at types.new) said ≡ meaning.type_said (nodes_of unit.now) (nodes_seen types.old facts.now) (words_seen words) (handles_of children.now)) }
    ensures known { IfOk result (λ said. IfSome said (IsTypeId types.new)) }
    ensures keeps { OnOk result (TypesJoin types.old types.new) }
{
    match naming_child(unit, children) {
        Some(child) => Ok(named_type_at(facts, child)),
        None => Ok(Some(type_of_words(types, words)?)),
    }
}

/// What is known of specifiers that say this type with what is added to it, and a storage class.
pub fn specified_as(
    types: &mut Types,
    token: u32,
    added: Added,
    storage: Storage,
    said: TypeId,
) -> Result<NodeFact, AllocError>
    requires { IsTypeId types.old said }
    ensures fact { IfOk result (λ fact. node_seen types.new fact ≡ facts.Specified (record { type_ = added_to token added (type_at types.old said); storage = storage_seen storage })) }
    ensures known { IfOk result (IsKnownNodeFact types.new) }
    ensures keeps { OnOk result (TypesJoin types.old types.new) }
{
    let of = with_added(types, token, added, said)?;
    Ok(NodeFact::Specified(SpecifiedFact { of, storage }))
}

/// What is known of specifiers in a declaration that begins at this token, by their children.
pub fn specified(
    unit: &Unit,
    facts: &NodeFacts,
    types: &mut Types,
    token: u32,
    children: &TagList,
) -> Result<NodeFact, AllocError>
    requires whole { unit.now.first ≡ 0 }
    requires facts { All (IsKnownNodeFact types.old) facts.now }
    ensures fact { IfOk result (λ fact. node_seen types.new fact ≡ meaning.specified (nodes_of unit.now) (nodes_seen types.old facts.now) token (handles_of children.now)) }
    ensures known { IfOk result (IsKnownNodeFact types.new) }
    ensures keeps { OnOk result (TypesJoin types.old types.new) }
{
    let words = words_of(unit, children);
    let marks = marks_among(unit, children)?;
    let added = Added {
        is_const: words.is_const,
        is_volatile: words.is_volatile,
        marks,
    };
    match type_said(unit, facts, types, words, children)? {
        Some(said) => specified_as(types, token, added, words.storage, said),
        None => Ok(NodeFact::Unknown),
    }
}
