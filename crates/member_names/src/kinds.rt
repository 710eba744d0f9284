// What nodes are where members are declared (C11 6.7.2.1): a node in, the answer out. Where it stands isn't known here.
ghost use Rattle.std.specs.Prelude.{◌≡◌, drop};
ghost use Rattle.std.specs.List.{list_any};
ghost use Rattle.meaning_typing.specs.MemberDeclarations.{is_empty, is_tagless};
ghost use Rattle.meaning_typing.specs.MemberRows as meaning;
ghost use Rattle.meaning_typing.specs.Units.{kind_at as kind_of, node_at as node_of_unit};
ghost use Rattle.decl_judge.specs.Units.{handles_of, nodes_of};
ghost use Rattle.member_names.specs.Kept.{declares_nameless};

use c_tree::{Handle, Unit};
use decl_judge::{kind_at, node_at};
use sparse_model::NodeKind;
use tag_list::TagList;

/// Whether a node of this kind declares members.
pub fn is_member_declaration(kind: NodeKind) -> bool
    ensures { result ≡ meaning.is_member_declaration kind }
{
    match kind {
        NodeKind::MemberDeclaration => true,
        _ => false,
    }
}

/// Whether a node of this kind is a declarator.
pub fn is_declarator(kind: NodeKind) -> bool
    ensures { result ≡ meaning.is_declarator_kind kind }
{
    match kind {
        NodeKind::Declarator => true,
        _ => false,
    }
}

fn is_nameless(unit: &Unit, handle: Handle) -> bool
    requires { unit.now.first ≡ 0 }
    ensures { result ≡ is_empty (node_of_unit (nodes_of unit.now) handle).name }
{
    match node_at(unit, handle) {
        Some(node) => node.name.0 == 0,
        None => true,
    }
}

/// Whether a node specifies a structure or a union without a tag.
pub fn is_tagless(unit: &Unit, handle: Handle) -> bool
    requires { unit.now.first ≡ 0 }
    ensures { result ≡ is_tagless (nodes_of unit.now) handle (kind_of (nodes_of unit.now) handle) }
{
    match kind_at(unit, handle) {
        NodeKind::StructSpecifier => is_nameless(unit, handle),
        NodeKind::UnionSpecifier => is_nameless(unit, handle),
        _ => false,
    }
}

// Whether a declarator stands behind the first of these parts.
fn has_declarator(unit: &Unit, parts: &TagList) -> bool
    requires { unit.now.first ≡ 0 }
    ensures { result ≡ list_any (λ part. meaning.is_declarator_kind (kind_of (nodes_of unit.now) part)) (drop 1 (handles_of parts.now)) }
{
    let mut parts = parts.iter();
    parts.next();
    for (part, _) in parts {
        if is_declarator(kind_at(unit, part)) {
            return true;
        }
    }
    false
}

/// Whether a node declares members without a declarator. It takes a step for each of its parts.
pub fn declares_nameless(unit: &Unit, declaration: Handle) -> bool
    requires { unit.now.first ≡ 0 }
    ensures { result ≡ declares_nameless (nodes_of unit.now) declaration }
{
    match node_at(unit, declaration) {
        Some(node) => is_member_declaration(node.kind) && !has_declarator(unit, &node.children),
        None => false,
    }
}
