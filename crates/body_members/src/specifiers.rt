// What is written among the specifiers of a member's declaration (C11 6.7.2.1): the alignment for its members, and whether
// they specify a structure or union without a tag. Attributes directly behind a body belong to that, and not to the members.
ghost use Rattle.std.specs.Prelude.{◌≡◌, false, max, nat_eq};
ghost use Rattle.std.specs.List.{list_any};
ghost use Rattle.meaning_typing.specs.MemberDeclarations as meaning;
ghost use Rattle.meaning_typing.specs.Tags as tags;
ghost use Rattle.meaning_typing.specs.Units.{children_at, child_at as child_of, kind_at as kind_of, node_at as node_of_unit};
ghost use Rattle.decl_judge.specs.Units.{handles_of, nodes_of};
ghost use Rattle.body_members.specs.Seen.{is_tagless_number};

use crate::alignment::alignment_of_list;
use c_tree::{Handle, Unit};
use decl_judge::{child_at, kind_at, node_at};
use sparse_model::NodeKind;
use tag_list::TagList;

/// Whether a specifier of this kind is that of a structure, a union or an enumeration.
pub fn is_tagged(kind: NodeKind) -> bool
    ensures { result ≡ tags.is_tagged kind }
{
    match kind {
        NodeKind::StructSpecifier => true,
        NodeKind::UnionSpecifier => true,
        NodeKind::EnumSpecifier => true,
        _ => false,
    }
}

fn is_body(kind: NodeKind) -> bool
    ensures { result ≡ tags.is_body kind }
{
    match kind {
        NodeKind::MemberList => true,
        NodeKind::Enumerator => true,
        _ => false,
    }
}

// Whether members or enumerators are among these children.
fn is_body_among(unit: &Unit, children: &TagList) -> bool
    requires { unit.now.first ≡ 0 }
    ensures { result ≡ list_any (λ child. tags.is_body (kind_of (nodes_of unit.now) child)) (handles_of children.now) }
{
    for (child, _) in children.iter() {
        if is_body(kind_at(unit, child)) {
            return true;
        }
    }
    false
}

/// Whether members or enumerators stand between the braces of a specifier. It takes a step for each of its parts.
pub fn has_body(unit: &Unit, handle: Handle) -> bool
    requires { unit.now.first ≡ 0 }
    ensures { result ≡ tags.has_body (nodes_of unit.now) handle }
{
    match node_at(unit, handle) {
        Some(node) => is_body_among(unit, &node.children),
        None => false,
    }
}

fn is_attribute_list(kind: NodeKind) -> bool
    ensures { result ≡ tags.is_list kind }
{
    match kind {
        NodeKind::AttributeList => true,
        _ => false,
    }
}

// Whether what follows a specifier stands directly behind a body, but for lists of attributes.
fn is_still_behind(unit: &Unit, is_behind_body: bool, handle: Handle) -> bool
    requires { unit.now.first ≡ 0 }
    ensures { result ≡ meaning.is_still_behind (nodes_of unit.now) is_behind_body (kind_of (nodes_of unit.now) handle) handle }
{
    let kind = kind_at(unit, handle);
    if is_attribute_list(kind) {
        return is_behind_body;
    }
    is_tagged(kind) && has_body(unit, handle)
}

// What a specifier adds to an alignment: attributes between the keyword of a tag and the tag say nothing of a layout.
#[tactic(auto, using(crate::proofs::AlignmentLemmas::specifier_attributes))]
fn alignment_of_specifier(unit: &Unit, least: u64, is_behind_body: bool, handle: Handle) -> u64
    requires { unit.now.first ≡ 0 }
    ensures { result ≡ max least (meaning.alignment_among (nodes_of unit.now) (meaning.attributes_in (nodes_of unit.now) is_behind_body (kind_of (nodes_of unit.now) handle) handle)) }
{
    if is_behind_body {
        return least.max(1);
    }
    alignment_of_list(unit, least, handle)
}

fn alignment_among_specifiers(unit: &Unit, specifiers: &TagList) -> u64
    requires { unit.now.first ≡ 0 }
    ensures { result ≡ meaning.alignment_among (nodes_of unit.now) (meaning.attributes_apart (nodes_of unit.now) false (handles_of specifiers.now)) }
{
    let mut largest = 1;
    let mut is_behind_body = false;
    for (specifier, _) in specifiers.iter() {
        largest = alignment_of_specifier(unit, largest, is_behind_body, specifier);
        is_behind_body = is_still_behind(unit, is_behind_body, specifier);
    }
    largest.max(1)
}

/// The alignment that is written among the specifiers of a declaration, for each of its members. It takes a step for each
/// specifier, and for each part of one that has a tag.
pub fn specified_alignment(unit: &Unit, declaration: Handle) -> u64
    requires { unit.now.first ≡ 0 }
    ensures { result ≡ meaning.alignment_among (nodes_of unit.now) (meaning.attributes_apart (nodes_of unit.now) false (children_at (nodes_of unit.now) (child_of (nodes_of unit.now) declaration 0))) }
{
    match node_at(unit, child_at(unit, declaration, 0)) {
        Some(node) => alignment_among_specifiers(unit, &node.children),
        None => 1,
    }
}

/// Whether a node has no name.
pub fn is_nameless(unit: &Unit, handle: Handle) -> bool
    requires { unit.now.first ≡ 0 }
    ensures { result ≡ meaning.is_empty (node_of_unit (nodes_of unit.now) handle).name }
{
    match node_at(unit, handle) {
        Some(node) => node.name.0 == 0,
        None => true,
    }
}

fn is_tagless(unit: &Unit, handle: Handle) -> bool
    requires { unit.now.first ≡ 0 }
    ensures { result ≡ meaning.is_tagless (nodes_of unit.now) handle (kind_of (nodes_of unit.now) handle) }
{
    match kind_at(unit, handle) {
        NodeKind::StructSpecifier => is_nameless(unit, handle),
        NodeKind::UnionSpecifier => is_nameless(unit, handle),
        _ => false,
    }
}

// Whether members stand between the braces of a specifier.
fn has_member_list(unit: &Unit, handle: Handle) -> bool
    requires { unit.now.first ≡ 0 }
    ensures { result ≡ meaning.has_member_list (nodes_of unit.now) handle }
{
    match node_at(unit, handle) {
        Some(node) => is_list_among(unit, &node.children),
        None => false,
    }
}

fn is_list_among(unit: &Unit, children: &TagList) -> bool
    requires { unit.now.first ≡ 0 }
    ensures { result ≡ list_any (λ child. meaning.is_member_list (kind_of (nodes_of unit.now) child)) (handles_of children.now) }
{
    for (child, _) in children.iter() {
        if is_member_list(kind_at(unit, child)) {
            return true;
        }
    }
    false
}

/// Whether a node of this kind is the list of members of a specifier.
pub fn is_member_list(kind: NodeKind) -> bool
    ensures { result ≡ meaning.is_member_list kind }
{
    match kind {
        NodeKind::MemberList => true,
        _ => false,
    }
}

fn has_number(unit: &Unit, number: u32, handle: Handle) -> bool
    requires { unit.now.first ≡ 0 }
    ensures { result ≡ nat_eq (node_of_unit (nodes_of unit.now) handle).number number }
{
    match node_at(unit, handle) {
        Some(node) => node.number == u64::from(number),
        None => number == 0,
    }
}

// Whether a specifier is that of the structure or union with this number, without a tag and with its members.
fn is_tagless_number(unit: &Unit, number: u32, handle: Handle) -> bool
    requires { unit.now.first ≡ 0 }
    ensures { result ≡ is_tagless_number (nodes_of unit.now) number handle }
{
    is_tagless(unit, handle) && has_member_list(unit, handle) && has_number(unit, number, handle)
}

fn is_tagless_among(unit: &Unit, number: u32, specifiers: &TagList) -> bool
    requires { unit.now.first ≡ 0 }
    ensures { result ≡ list_any (λ handle. is_tagless_number (nodes_of unit.now) number handle) (handles_of specifiers.now) }
{
    for (specifier, _) in specifiers.iter() {
        if is_tagless_number(unit, number, specifier) {
            return true;
        }
    }
    false
}

/// Whether the structure or union with this number stands without a tag, and with its members, among the specifiers of a declaration.
/// It takes a step for each specifier, and for each part of one without a tag.
pub fn has_tagless(unit: &Unit, declaration: Handle, number: u32) -> bool
    requires { unit.now.first ≡ 0 }
    ensures { result ≡ list_any (λ handle. is_tagless_number (nodes_of unit.now) number handle) (children_at (nodes_of unit.now) (child_of (nodes_of unit.now) declaration 0)) }
{
    match node_at(unit, child_at(unit, declaration, 0)) {
        Some(node) => is_tagless_among(unit, number, &node.children),
        None => false,
    }
}
