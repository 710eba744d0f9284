// Parameter lists that are closed, and bodies that open their scopes again: a scope is kept by the token of its list, and put
// back where a body awaits it. What the parameters are isn't known here.
ghost use Rattle.std.specs.Prelude.{◌≡◌, ◌<◌, ◌≤◌, map, true};
ghost use Rattle.std.specs.List.{list_all};
ghost use Rattle.meaning_tree.specs.Nodes.{end_of};
ghost use Rattle.meaning_derivation.specs.Scoping.{awaited_entries, entries_at};
ghost use Rattle.c_scope.specs.Seen.{entry_of};
ghost use Rattle.c_tree.specs.Seen.{HasNodeWith};
ghost use Rattle.parse_state.specs.Giving.{is_below};
ghost use Rattle.parse_state.specs.Parameters.{is_without_form, nearer_list, own_list};
ghost use Rattle.parse_state.specs.Seen.{closed_seen};

use crate::asking::tree_at;
use crate::marks::ClosedParameters;
use crate::state::ParseState;
use c_scope::{Binding, Scopes};
use c_tree::{Handle, Unit};
use std::alloc::AllocError;
use tag_list::TagList;
use vocabulary::NodeKind;

impl<'t> ParseState<'t> {
    ghost use Rattle.std.specs.Prelude.{◌≡◌, OnOk};
    ghost use Rattle.meaning_derivation.specs.Values.{value_at as value_below};
    ghost use Rattle.meaning_derivation.specs.Scoping.{body_awaited, body_opened, own_parameters, parameters_closed, parts_below, without_closed};
    ghost use Rattle.parse_state.specs.Seen.{state_of};

    /// Closes the scope of a parameter list that begins at this token. What it bound is kept for a body if no other scope is
    /// open.
    pub fn close_parameters(&mut self, token: u32) -> Result<(), AllocError>
        ensures state { OnOk result (state_of self.new ≡ parameters_closed (state_of self.old) token) }
        ensures names { self.new.names ≡ self.old.names }
    {
        if !self.scopes.is_open() {
            self.scopes = Scopes::new(self.alloc);
            return Ok(());
        }
        let bindings = self.scopes.keep()?;
        if self.scopes.is_open() {
            return Ok(());
        }
        self.closed.push(ClosedParameters { token, bindings })?;
        Ok(())
    }

    /// No parameter list of an earlier declaration is a body's.
    pub fn forget_closed(&mut self)
        ensures state { state_of self.new ≡ without_closed (state_of self.old) }
        ensures names { self.new.names ≡ self.old.names }
    {
        self.closed.clear();
    }

    /// Where the parameter list begins that stands directly at the name of a declarator, if one does.
    pub fn own_parameters(&self, depth: usize) -> Option<u32>
        ensures { result ≡ own_parameters (parts_below (value_below (state_of self.now).values depth)) }
    {
        self.unit.each_node_stands_for_one_tree();
        match tree_at(&self.values, depth) {
            Some(declarator) => parameters_of(&self.unit, declarator),
            None => None,
        }
    }

    /// The body of the declarator below the top comes next.
    pub fn await_body(&mut self)
        ensures state { state_of self.new ≡ body_awaited (state_of self.old) (value_below (state_of self.old).values 1) }
        ensures names { self.new.names ≡ self.old.names }
    {
        let parameters = self.own_parameters(1);
        self.hide_own_name();
        self.awaited = parameters;
    }

    /// Opens the scope of a body: that of the parameters again, if it is awaited.
    pub fn open_body(&mut self) -> Result<(), AllocError>
        ensures state { OnOk result (state_of self.new ≡ body_opened (state_of self.old)) }
        ensures names { self.new.names ≡ self.old.names }
    {
        self.scopes
            .reopen(awaited_bindings(&self.closed, self.awaited))?;
        self.awaited = None;
        Ok(())
    }
}

// Where the parameter list begins that stands directly at the name, among the children of a node.
fn parameters_of(unit: &Unit, handle: Handle) -> Option<u32>
    requires from { unit.now.first ≡ 0 }
    requires below { handle < end_of unit.now }
    ensures { HasNodeWith unit.now handle (λ node. result ≡ own_list unit.now node.children) }
{
    unit.each_node_stands_for_one_tree();
    parameters_among(unit, unit.children(handle))
}

// Where it begins among these.
fn parameters_among(unit: &Unit, children: &TagList) -> Option<u32>
    requires first { unit.now.first ≡ 0 }
    requires below { list_all (is_below (end_of unit.now)) children.now ≡ true }
    ensures { result ≡ own_list unit.now children.now }
{
    let mut found = None;
    for (child, _) in children.iter() {
        let part = unit.node(child);
        found = nearer_list(found, part.kind, part.token);
    }
    found
}

// Attributes in parentheses leave a declarator what it is without them.
fn is_without_form(kind: NodeKind) -> bool
    ensures { result ≡ is_without_form kind }
{
    match kind {
        NodeKind::ParenthesizedAttributes => true,
        _ => false,
    }
}

/// A part of this kind stands nearer to the name than what was found.
pub(crate) fn nearer_list(found: Option<u32>, kind: NodeKind, token: u32) -> Option<u32>
    ensures { result ≡ nearer_list found kind token }
{
    if is_without_form(kind) {
        return found;
    }
    match kind {
        NodeKind::FunctionDeclarator => Some(token),
        _ => None,
    }
}

// What the parameter list bound that is awaited.
fn awaited_bindings(closed: &[ClosedParameters], awaited: Option<u32>) -> &[Binding]
    ensures { map entry_of result.now ≡ awaited_entries (map closed_seen closed.now) awaited }
{
    match awaited {
        Some(token) => bindings_at(closed, token),
        None => &[],
    }
}

// What the parameter list bound that begins at this token.
fn bindings_at(closed: &[ClosedParameters], token: u32) -> &[Binding]
    ensures { map entry_of result.now ≡ entries_at (map closed_seen closed.now) token }
{
    for list in closed {
        if list.token == token {
            return &list.bindings;
        }
    }
    &[]
}
