// A parameter of its function's own name, which hides the function (C11 6.2.1 p4). A declarator whose body comes next arrives, and its
// parameter leaves with the function's handle and one as its number. What the body is isn't known here.
ghost use Rattle.std.specs.Prelude.{◌≡◌, ◌<◌, None, true};
ghost use Rattle.std.specs.List.{list_all};
ghost use Rattle.meaning_tree.specs.Nodes.{end_of};
ghost use Rattle.parse_state.specs.Giving.{is_below};
ghost use Rattle.parse_state.specs.OwnNames.{declarator_in, first_child, handle_behind, is_declarator_of, is_named, own_parameter, parameter_among, told_by_body};

use crate::asking::tree_at;
use crate::declaring::name_of_node;
use crate::parameters::nearer_list;
use crate::state::ParseState;
use c_scope::{Bound, NameSpace};
use c_tree::{Handle, Unit};
use sparse_model::NameId;
use tag_list::TagList;
use vocabulary::NodeKind;

// The handle of what a look-up told and one, or 0.
fn told_by_body(found: Option<(Handle, Bound, bool)>) -> u64
    ensures { result ≡ told_by_body found }
{
    match found {
        Some((declaration, _, _)) => u64::from(declaration) + 1,
        None => 0,
    }
}

// A declarator of this name.
fn is_declarator_of(kind: NodeKind, own: NameId, name: NameId) -> bool
    ensures { result ≡ is_declarator_of kind own name }
{
    match kind {
        NodeKind::Declarator => own.0 == name.0,
        _ => false,
    }
}

// The first declarator of this name among children.
fn declarator_among(unit: &Unit, children: &TagList, name: NameId) -> Option<Handle>
    requires first { unit.now.first ≡ 0 }
    requires below { list_all (is_below (end_of unit.now)) children.now ≡ true }
    ensures { result ≡ first_child (is_named unit.now name) children.now }
{
    for (child, _) in children.iter() {
        let part = unit.node(child);
        if is_declarator_of(part.kind, part.name, name) {
            return Some(child);
        }
    }
    None
}

// The first one in a parameter.
fn declarator_in(unit: &Unit, parameter: Handle, name: NameId) -> Option<Handle>
    requires first { unit.now.first ≡ 0 }
    requires below { parameter < end_of unit.now }
    ensures { result ≡ declarator_in unit.now name parameter }
{
    unit.each_node_stands_for_one_tree();
    declarator_among(unit, unit.children(parameter), name)
}

// That of the first of these parameters that has one.
fn parameter_among(unit: &Unit, children: &TagList, name: NameId) -> Option<Handle>
    requires first { unit.now.first ≡ 0 }
    requires below { list_all (is_below (end_of unit.now)) children.now ≡ true }
    ensures { result ≡ parameter_among unit.now name children.now }
{
    for (child, _) in children.iter() {
        if let Some(found) = declarator_in(unit, child, name) {
            return Some(found);
        }
    }
    None
}

// The parameter list directly at the name, among the children of a declarator.
fn list_among(unit: &Unit, children: &TagList) -> Option<Handle>
    requires first { unit.now.first ≡ 0 }
    requires below { list_all (is_below (end_of unit.now)) children.now ≡ true }
    ensures { result ≡ handle_behind unit.now None children.now }
{
    let mut found = None;
    for (child, _) in children.iter() {
        found = nearer_list(found, unit.kind(child), child);
    }
    found
}

// The declarator of this name among its parameters.
fn own_parameter(unit: &Unit, declarator: Handle, name: NameId) -> Option<Handle>
    requires first { unit.now.first ≡ 0 }
    requires below { declarator < end_of unit.now }
    ensures { result ≡ own_parameter unit.now name declarator }
{
    unit.each_node_stands_for_one_tree();
    match list_among(unit, unit.children(declarator)) {
        Some(parameters) => parameter_among(unit, unit.children(parameters), name),
        None => None,
    }
}

impl<'t> ParseState<'t> {
    ghost use Rattle.std.specs.Prelude.{◌≡◌};
    ghost use Rattle.meaning_derivation.specs.Values.{value_at as value_below};
    ghost use Rattle.meaning_derivation.specs.Scoping.{own_name_hidden};
    ghost use Rattle.parse_state.specs.Seen.{state_of};

    /// A parameter of the declarator below the top that has its name hides the function.
    pub(crate) fn hide_own_name(&mut self)
        ensures state { state_of self.new ≡ own_name_hidden (state_of self.old) (value_below (state_of self.old).values 1) }
        ensures names { self.new.names ≡ self.old.names }
    {
        self.unit.each_node_stands_for_one_tree();
        self.names.apart();
        let Some(declarator) = tree_at(&self.values, 1) else {
            return;
        };
        let named = name_of_node(&self.unit, declarator);
        let number = told_by_body(self.scopes.find(NameSpace::Ordinary, named.name));
        match own_parameter(&self.unit, declarator, named.name) {
            Some(parameter) => self.unit.set_number(parameter, number),
            None => {}
        }
    }
}
