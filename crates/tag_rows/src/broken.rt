// What is broken at a tag (C11 6.7.2.3 p1, p2): a specifier and what is kept of tags in, the constraint out. A tag is named again
// as one of another kind, or a second body is given to it. What the body declares isn't known here.
ghost use Rattle.std.specs.Prelude.{◌≡◌, ℕ, ◌<◌, ◌+◌, ◌||◌, nat_eq, IfOk};
ghost use Rattle.indexmap.specs.IndexMap.{get};
ghost use Rattle.c_tree.specs.Seen.{node_of};
ghost use Rattle.meaning_tree.specs.Nodes.{end_of};
ghost use Rattle.meaning_typing.specs.Tags as meaning;
ghost use Rattle.meaning_typing.specs.Units.{UnitNodes, kind_at as kind_of, node_at as node_of_unit};
ghost use Rattle.decl_judge.specs.Units.{handles_of, named_node, nodes_of};
ghost use Rattle.tag_rows.specs.Kept.{StandsFor, is_before};
ghost use Rattle.tag_rows.specs.Seen.{broken_listed, end_of_list};

use crate::kinds::{are_one_kind, tag_kind};
use crate::seen::TagsSeen;
use body_members::has_body;
use c_tree::{Handle, Node, Unit};
use decl_judge::node_at;
use expression_rows::Broken;
use sparse_model::{ErrorKind, NodeKind};
use std::alloc::AllocError;
use tag_list::TagList;

// Whether a tag is of another kind than that with which it is named first.
fn is_other_kind(tags: &TagsSeen, node: &Node) -> bool
    ensures { (nodes : UnitNodes) (handle : ℕ) → StandsFor nodes tags.now → named_node (node_of node.now) ≡ node_of_unit nodes handle → result ≡ meaning.is_other_kind nodes handle }
{
    !are_one_kind(tags.kind(node.number), tag_kind(node.kind))
}

// Whether a body stands before this token in a specifier with this number.
fn has_body_before(tags: &TagsSeen, number: u64, token: u32) -> bool
    ensures { result ≡ is_before (get nat_eq tags.now.bodies number) token }
{
    match tags.least_body(number) {
        Some(least) => least < token,
        None => false,
    }
}

// Whether a second body is given to a tag.
fn is_defined_again(unit: &Unit, tags: &TagsSeen, handle: Handle, node: &Node) -> bool
    requires whole { unit.now.first ≡ 0 }
    requires node { named_node (node_of node.now) ≡ node_of_unit (nodes_of unit.now) handle }
    requires tags { StandsFor (nodes_of unit.now) tags.now }
    ensures { result ≡ meaning.is_defined_again (nodes_of unit.now) handle }
{
    has_body(unit, handle) && has_body_before(tags, node.number, node.token)
}

fn is_redeclared(unit: &Unit, tags: &TagsSeen, handle: Handle, node: &Node) -> bool
    requires whole { unit.now.first ≡ 0 }
    requires node { named_node (node_of node.now) ≡ node_of_unit (nodes_of unit.now) handle }
    requires tags { StandsFor (nodes_of unit.now) tags.now }
    ensures { result ≡ (meaning.is_other_kind (nodes_of unit.now) handle || meaning.is_defined_again (nodes_of unit.now) handle) }
{
    is_other_kind(tags, node) || is_defined_again(unit, tags, handle, node)
}

// A number that tells a token. No node that was read has one of more than 32 bits, so one that has is want of memory.
fn token_told(number: u64) -> Result<u32, AllocError>
    ensures { IfOk result (λ token. token ≡ number) }
{
    match u32::try_from(number) {
        Ok(token) => Ok(token),
        Err(_) => Err(AllocError),
    }
}

// What the number of a node tells, if it is a list of attributes: the token behind it.
fn list_end(unit: &Unit, handle: Handle) -> Option<u64>
    requires { unit.now.first ≡ 0 }
    ensures { result ≡ end_of_list (kind_of (nodes_of unit.now) handle) (node_of_unit (nodes_of unit.now) handle).number }
{
    let node = node_at(unit, handle)?;
    match node.kind {
        NodeKind::AttributeList => Some(node.number),
        _ => None,
    }
}

// The token behind the lists of attributes that stand first among children, where this token is before them.
fn token_behind(unit: &Unit, before: u32, children: &TagList) -> Result<u32, AllocError>
    requires { unit.now.first ≡ 0 }
    ensures { IfOk result (λ token. token ≡ meaning.behind_lists (nodes_of unit.now) before (handles_of children.now)) }
{
    let mut token = before;
    for (child, _) in children.iter() {
        match list_end(unit, child) {
            Some(end) => token = token_told(end)?,
            None => return Ok(token),
        }
    }
    Ok(token)
}

// The token of a tag: the one behind the keyword, or behind the last list of attributes that stands between.
fn tag_token(unit: &Unit, node: &Node) -> Result<u32, AllocError>
    requires { unit.now.first ≡ 0 }
    ensures { IfOk result (λ token. token ≡ meaning.behind_lists (nodes_of unit.now) (node.now.token + 1) (handles_of node.now.children)) }
{
    match node.token.checked_add(1) {
        Some(before) => token_behind(unit, before, &node.children),
        None => Err(AllocError),
    }
}

/// What is broken at the tag of a specifier: `TagRedeclared` at the tag, if it is named as one of another kind than at first, or
/// if it has a body and another one stands at an earlier token. It takes a few steps, and one for each of its parts. A token
/// above those that a unit has is want of memory.
pub fn tag_broken(
    unit: &Unit,
    tags: &TagsSeen,
    handle: Handle,
) -> Result<Option<Broken>, AllocError>
    requires whole { unit.now.first ≡ 0 }
    requires node { handle < end_of unit.now }
    requires tags { StandsFor (nodes_of unit.now) tags.now }
    ensures { IfOk result (λ broken. broken_listed broken ≡ meaning.tag_broken (nodes_of unit.now) handle) }
{
    let node = unit.node(handle);
    if is_redeclared(unit, tags, handle, node) {
        let token = tag_token(unit, node)?;
        return Ok(Some(Broken {
            constraint: ErrorKind::TagRedeclared,
            token,
            name: node.name,
        }));
    }
    Ok(None)
}
