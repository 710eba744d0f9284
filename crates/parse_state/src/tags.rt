// Tags that are declared alone (C11 6.7.2.3 p7). A declaration's specifiers arrive, and leave with another number. What the
// tag stands for isn't known here.
ghost use Rattle.std.specs.Prelude.{◌≡◌, List, Option, is_some, not, option_map, true, ℕ};
ghost use Rattle.std.specs.List.{list_all};
ghost use Rattle.meaning_scopes.specs.Scopes.{Found};
ghost use Rattle.meaning_tree.specs.Nodes.{end_of};
ghost use Rattle.meaning_derivation.specs.Scoping.{found_here, is_lone_tag, is_member_list, is_structure};
ghost use Rattle.parse_state.specs.Giving.{is_below};
ghost use Rattle.parse_state.specs.Looking.{found_told};
ghost use Rattle.parse_state.specs.Storage.{has_child};

use crate::asking::tree_at;
use crate::declaring::name_of_node;
use crate::state::ParseState;
use crate::unwrapping::only_child;
use c_scope::{Bound, NameSpace};
use c_tree::{Handle, Unit};
use std::alloc::AllocError;
use tag_list::TagList;
use vocabulary::NodeKind;

// Some child is a list of members.
fn has_members(unit: &Unit, children: &TagList) -> bool
    requires first { unit.now.first ≡ 0 }
    requires below { list_all (is_below (end_of unit.now)) children.now ≡ true }
    ensures { result ≡ has_child is_member_list unit.now children.now }
{
    let mut found = false;
    for (child, _) in children.iter() {
        let kind = unit.kind(child);
        found = found || is_member_list(kind);
    }
    found
}

fn is_member_list(kind: NodeKind) -> bool
    ensures { result ≡ is_member_list kind }
{
    match kind {
        NodeKind::MemberList => true,
        _ => false,
    }
}

// A structure's or a union's specifier.
fn is_structure(kind: NodeKind) -> bool
    ensures { result ≡ is_structure kind }
{
    match kind {
        NodeKind::StructSpecifier | NodeKind::UnionSpecifier => true,
        _ => false,
    }
}

// A structure's or a union's tag without members.
fn is_lone_tag(kind: NodeKind, tag: &[u8], has_members: bool) -> bool
    ensures { result ≡ is_lone_tag kind tag.now has_members }
{
    if tag.is_empty() {
        return false;
    }
    is_structure(kind) && !has_members
}

// The innermost scope doesn't have what was looked for.
fn is_new_here(found: Option<(Handle, Bound, bool)>) -> bool
    ensures { (seen : Option (Found (List ℕ))) → found ≡ option_map found_told seen → result ≡ not (is_some (found_here seen)) }
{
    match found {
        Some((_, _, true)) => false,
        _ => true,
    }
}

impl<'t> ParseState<'t> {
    ghost use Rattle.std.specs.Prelude.{◌≡◌, IfNone, IfSome, OnOk, false, true};
    ghost use Rattle.meaning_derivation.specs.Values.{value_at as value_below};
    ghost use Rattle.meaning_derivation.specs.State.{Goes};
    ghost use Rattle.meaning_derivation.specs.Scoping.{tag_declared};
    ghost use Rattle.c_tree.specs.Seen.{HasNodeWith};
    ghost use Rattle.parse_state.specs.Seen.{state_of};
    ghost use Rattle.parse_state.specs.Tags.{IsLone, is_new_tag};

    /// The specifiers on top are a declaration on their own. Where they are a structure's or a union's tag without members,
    /// which the innermost scope doesn't have, its own keyword first names it from here on.
    pub fn declare_tag(&mut self) -> Result<(), AllocError>
        ensures state { OnOk result (tag_declared (state_of self.old) (value_below (state_of self.old).values 0) ≡ Goes (state_of self.new)) }
        ensures names { self.new.names ≡ self.old.names }
    {
        let Some(specifier) = self.lone_specifier() else {
            return Ok(());
        };
        if !self.is_new_tag(specifier) {
            return Ok(());
        }
        self.bind_own_keyword(specifier)
    }

    // The only specifier of the tree on top.
    fn lone_specifier(&self) -> Option<Handle>
        ensures lone { IfSome result (IsLone self.now) }
        ensures none { IfNone result (tag_declared (state_of self.now) (value_below (state_of self.now).values 0) ≡ Goes (state_of self.now)) }
    {
        self.unit.each_node_stands_for_one_tree();
        match tree_at(&self.values, 0) {
            Some(tree) => only_child(self.unit.children(tree)),
            None => None,
        }
    }

    // A specifier is a structure's or a union's tag without members, which the innermost scope doesn't have.
    fn is_new_tag(&self, specifier: Handle) -> bool
        requires lone { IsLone self.now specifier }
        ensures new { HasNodeWith self.now.list specifier (λ node. result ≡ is_new_tag self.now node) }
        ensures kept { result ≡ false → tag_declared (state_of self.now) (value_below (state_of self.now).values 0) ≡ Goes (state_of self.now) }
    {
        self.names.apart();
        self.unit.each_node_stands_for_one_tree();
        let node = self.unit.node(specifier);
        let has_members = has_members(&self.unit, &node.children);
        is_lone_tag(node.kind, self.names.spelling(node.name), has_members)
            && is_new_here(self.scopes.find(NameSpace::Tags, node.name))
    }

    // Its own keyword is the specifier's number, and the tag is bound to it.
    fn bind_own_keyword(&mut self, specifier: Handle) -> Result<(), AllocError>
        requires lone { IsLone self.old specifier }
        requires new { HasNodeWith self.old.list specifier (λ node. is_new_tag self.old node ≡ true) }
        ensures state { OnOk result (tag_declared (state_of self.old) (value_below (state_of self.old).values 0) ≡ Goes (state_of self.new)) }
        ensures names { self.new.names ≡ self.old.names }
    {
        self.unit.each_node_stands_for_one_tree();
        let tag = name_of_node(&self.unit, specifier);
        self.scopes
            .bind(NameSpace::Tags, tag.name, tag.token, Bound::Tag)?;
        self.unit.set_number(specifier, u64::from(tag.token));
        Ok(())
    }
}
