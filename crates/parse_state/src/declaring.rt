// What is asked of specifiers and declarators where a name is declared, and the name that is bound. Depths arrive, and answers
// leave, or a scope with one name more. What is declared next isn't known here.
ghost use Rattle.std.specs.Prelude.{◌≡◌, ◌<◌, ◌≤◌, option_map, reverse, slice_get, true};
ghost use Rattle.std.specs.List.{list_all};
ghost use Rattle.meaning_tree.specs.Nodes.{end_of};
ghost use Rattle.meaning_derivation.specs.Storage.{is_extern, is_typedef};
ghost use Rattle.parse_state.specs.Declaring.{first_in, first_of, list_in, told_here};
ghost use Rattle.c_tree.specs.Seen.{HasNodeWith};
ghost use Rattle.parse_state.specs.Giving.{is_below};
ghost use Rattle.parse_state.specs.Storage.{children_class, class_of};

use crate::asking::tree_at;
use crate::children::value_at;
use crate::state::ParseState;
use crate::storage::StorageClass;
use crate::value::Value;
use c_scope::{Bound, NameSpace, is_redeclared};
use c_tree::{Handle, Unit};
use sparse_model::NameId;
use std::alloc::AllocError;
use tag_list::TagList;
use vocabulary::NodeKind;

/// A name that is declared, and the index of the token at which its declarator stands.
#[derive(Clone, Copy, Debug, PartialEq, Eq)]
pub struct DeclaredName {
    pub name: NameId,
    pub token: u32,
}

/// The children of a list.
pub(crate) fn list_at(values: &[Value], depth: usize) -> Option<&TagList>
    ensures { option_map (λ children. children.now) result ≡ list_in (slice_get (reverse values.now) depth) }
{
    match value_at(values, depth) {
        Some(Value::List(children)) => Some(children),
        _ => None,
    }
}

// The storage class of these children.
fn class_of_children(unit: &Unit, children: &TagList) -> StorageClass
    requires first { unit.now.first ≡ 0 }
    requires below { list_all (is_below (end_of unit.now)) children.now ≡ true }
    ensures { class_of result ≡ children_class unit.now children.now }
{
    let mut has_typedef = false;
    let mut has_extern = false;
    for (child, _) in children.iter() {
        let kind = unit.kind(child);
        has_typedef = has_typedef || is_typedef(kind);
        has_extern = has_extern || is_extern(kind);
    }
    StorageClass::with_words(has_typedef, has_extern)
}

fn is_typedef(kind: NodeKind) -> bool
    ensures { result ≡ is_typedef kind }
{
    match kind {
        NodeKind::TypedefSpecifier => true,
        _ => false,
    }
}

fn is_extern(kind: NodeKind) -> bool
    ensures { result ≡ is_extern kind }
{
    match kind {
        NodeKind::ExternSpecifier => true,
        _ => false,
    }
}

/// The name and the token of a node.
pub(crate) fn name_of_node(unit: &Unit, handle: Handle) -> DeclaredName
    requires from { unit.now.first ≤ handle }
    requires below { handle < end_of unit.now }
    ensures { HasNodeWith unit.now handle (λ node. (node.name ≡ result.name) × (node.token ≡ result.token)) }
{
    let node = unit.node(handle);
    DeclaredName {
        name: node.name,
        token: node.token,
    }
}

// The first tree of a list.
fn first_at(values: &[Value], depth: usize) -> Option<Handle>
    ensures { result ≡ first_in (slice_get (reverse values.now) depth) }
{
    match value_at(values, depth) {
        Some(Value::List(children)) => first_child(children),
        _ => None,
    }
}

// The first of children.
fn first_child(children: &TagList) -> Option<Handle>
    ensures { result ≡ first_of children.now }
{
    match children.iter().next() {
        Some((first, _)) => Some(first),
        None => None,
    }
}

// What the innermost scope itself says of a name that was looked for.
fn bound_here(found: Option<(Handle, Bound, bool)>) -> Option<Bound>
    ensures { result ≡ told_here found }
{
    match found {
        Some((_, old, true)) => Some(old),
        _ => None,
    }
}

impl<'t> ParseState<'t> {
    ghost use Rattle.std.specs.Prelude.{◌≡◌, IfSome, OnOk, option_map};
    ghost use Rattle.vocabulary.specs.declared.scope.NameSpace.TheVariants.{Ordinary};
    ghost use Rattle.meaning_scopes.specs.Redeclaration.{bound_here, is_redeclared};
    ghost use Rattle.meaning_derivation.specs.Storage.{noted_class, storage_class};
    ghost use Rattle.meaning_derivation.specs.Values.{name_of, parts_of, stands_at, value_at as value_below};
    ghost use Rattle.meaning_derivation.specs.Scoping.{bound, found_name, last_handle};
    ghost use Rattle.c_tokens.specs.Seen.{IsKnown, text_of};
    ghost use Rattle.parse_state.specs.Declaring.{declared_seen, first_name, name_and_token};
    ghost use Rattle.parse_state.specs.Seen.{state_of};
    ghost use Rattle.parse_state.specs.Storage.{class_of};

    /// The storage class of the specifiers in a list.
    pub fn storage_class(&self, depth: usize) -> StorageClass
        ensures { class_of result ≡ storage_class (parts_of (value_below (state_of self.now).values depth)) }
    {
        self.unit.each_node_stands_for_one_tree();
        match list_at(&self.values, depth) {
            Some(parts) => class_of_children(&self.unit, parts),
            None => StorageClass::Other,
        }
    }

    /// The storage class that a node of specifiers has the number of.
    pub fn noted_class(&self, depth: usize) -> StorageClass
        ensures { class_of result ≡ noted_class (value_below (state_of self.now).values depth) }
    {
        self.unit.each_node_stands_for_one_tree();
        match tree_at(&self.values, depth) {
            Some(tree) => StorageClass::of_number(self.unit.node(tree).number),
            None => StorageClass::Other,
        }
    }

    /// The name of a tree.
    pub fn declared_name(&self, depth: usize) -> DeclaredName
        ensures known { IsKnown self.now.names result.name }
        ensures name { text_of self.now.names result.name ≡ name_of (value_below (state_of self.now).values depth) }
        ensures token { result.token ≡ stands_at (value_below (state_of self.now).values depth) }
    {
        self.names.apart();
        self.unit.each_node_stands_for_one_tree();
        match tree_at(&self.values, depth) {
            Some(tree) => name_of_node(&self.unit, tree),
            None => DeclaredName {
                name: NameId(0),
                token: 0,
            },
        }
    }

    /// The name of the first tree of a list, if it has one.
    pub fn first_name(&self, depth: usize) -> Option<DeclaredName>
        ensures known { IfSome result (λ declared. IsKnown self.now.names declared.name) }
        ensures name { option_map (declared_seen self.now.names) result ≡ first_name (parts_of (value_below (state_of self.now).values depth)) }
    {
        self.names.apart();
        self.unit.each_node_stands_for_one_tree();
        match first_at(&self.values, depth) {
            Some(first) => self.with_name(name_of_node(&self.unit, first)),
            None => None,
        }
    }

    // This, if it has a name.
    fn with_name(&self, declared: DeclaredName) -> Option<DeclaredName>
        requires { IsKnown self.now.names declared.name }
        ensures known { IfSome result (λ named. IsKnown self.now.names named.name) }
        ensures name { option_map (declared_seen self.now.names) result ≡ name_and_token (text_of self.now.names declared.name) declared.token }
    {
        if self.names.spelling(declared.name).is_empty() {
            None
        } else {
            Some(declared)
        }
    }

    /// Whether the innermost scope has declared a name so that it can't be declared as this.
    pub fn redeclares(&self, name: NameId, kind: Bound) -> bool
        requires { IsKnown self.now.names name }
        ensures { result ≡ is_redeclared (bound_here (found_name (state_of self.now) Ordinary (text_of self.now.names name))) kind }
    {
        self.names.apart();
        is_redeclared(
            bound_here(self.scopes.find(NameSpace::Ordinary, name)),
            kind,
        )
    }

    /// Binds a name in the innermost scope: it stands for the node that was made last.
    pub fn bind_last(&mut self, name: NameId, kind: Bound) -> Result<(), AllocError>
        requires { IsKnown self.old.names name }
        ensures ok { OnOk result (state_of self.new ≡ bound (state_of self.old) Ordinary (text_of self.old.names name) (last_handle (state_of self.old)) kind) }
        ensures names { self.new.names ≡ self.old.names }
    {
        let last = self.unit.len().saturating_sub(1);
        self.scopes.bind(NameSpace::Ordinary, name, last, kind)?;
        Ok(())
    }
}
