// Nodes and lists that are made of the last values. A shape arrives, and one value leaves in the place of those that it names.
// What its kind means isn't known here.
ghost use Rattle.std.specs.Prelude.{◌≡◌, ◌<◌, ◌≤◌, ◌∷◌, ◌++◌, [], OnOk, drop, take, true, vec_len};
ghost use Rattle.std.specs.List.{list_all};
ghost use Rattle.meaning_tree.specs.Nodes.{end_of, with_node};
ghost use Rattle.parse_state.specs.Giving.{children_in, has_handles_below, is_small};
ghost use Rattle.parse_state.specs.declared.value.Value.TheVariants as kinds;
ghost use Rattle.parse_state.specs.Making.{node_with, start_of};

use crate::asking::name_of_word;
use crate::children::take_children;
use crate::fault::ActionFault;
use crate::shape::{Shape, Source};
use crate::state::ParseState;
use crate::value::Value;
use c_tree::{Node, Unit};
use sparse_model::NameId;
use std::alloc::{AllocError, Global};
use vocabulary::LimitKind;

// How many nodes a unit may have.
const MOST_NODES: u32 = 16_000_000;

// Adds a node of this shape and name to a unit, and puts it in the place of the last values.
fn add_node(
    alloc: Global,
    values: &mut Vec<Value>,
    unit: &mut Unit,
    shape: &Shape<'_>,
    name: NameId,
) -> Result<(), AllocError>
    requires known { list_all (has_handles_below (end_of unit.old)) values.old.items ≡ true }
    requires first { unit.old.first ≡ 0 }
    requires room { end_of unit.old < 16000000 }
    ensures values { OnOk result (values.new.items ≡ take (start_of values.old.items shape.now.takes) values.old.items ++ kinds.Tree (end_of unit.old) ∷ []) }
    ensures unit { OnOk result (unit.new ≡ with_node unit.old (node_with shape.now name (children_in (drop (start_of values.old.items shape.now.takes) values.old.items) shape.now.sources.now))) }
{
    let from = values.len().saturating_sub(shape.takes);
    let children = take_children(alloc, values, from, shape.sources)?;
    let node = Node {
        kind: shape.kind,
        token: shape.token,
        name,
        number: shape.number,
        children,
    };
    match unit.add(node) {
        Ok(handle) => {
            values.push(Value::Tree(handle))?;
            Ok(())
        }
        Err(_) => Err(AllocError),
    }
}

/// What stands where memory ran out: nothing.
pub(crate) fn forget(alloc: Global, values: &mut Vec<Value>, unit: &mut Unit)
    ensures values { values.new.items ≡ [] }
    ensures unit { unit.new ≡ record { first = 0; nodes = [] } }
{
    values.clear();
    *unit = Unit::new(alloc);
}

impl<'t> ParseState<'t> {
    ghost use Rattle.std.specs.Prelude.{◌≡◌, IfErr, OnOk};
    ghost use Rattle.meaning_derivation.specs.Values.{ListValue};
    ghost use Rattle.meaning_derivation.specs.State.{Goes, made, with_value};
    ghost use Rattle.parse_state.specs.Steps.{IsToldBy};
    ghost use Rattle.parse_state.specs.Seen.{state_of};
    ghost use Rattle.parse_state.specs.Sources.{IsCovered, made_tree, parts_given};

    /// Makes a node of the last values, which is a tree in their place, or tells of the limit of nodes.
    ///
    /// Where memory runs out no value is left.
    pub fn make(&mut self, shape: &Shape<'_>) -> Result<(), ActionFault>
        requires covers { IsCovered (state_of self.old).values shape.now.takes shape.now.sources.now }
        ensures goes { OnOk result (made (state_of self.old) shape.now.takes (made_tree shape.now (state_of self.old).values) ≡ Goes (state_of self.new)) }
        ensures told { IfErr result (IsToldBy (made (state_of self.old) shape.now.takes (made_tree shape.now (state_of self.old).values))) }
        ensures names { self.new.names ≡ self.old.names }
    {
        if self.unit.len() >= MOST_NODES {
            return Err(ActionFault::Limit(LimitKind::Nodes, self.next_token));
        }
        self.names.apart();
        let name = name_of_word(&self.values, shape.name);
        let added = add_node(self.alloc, &mut self.values, &mut self.unit, shape, name);
        if added.is_err() {
            forget(self.alloc, &mut self.values, &mut self.unit);
            return Err(ActionFault::Memory);
        }
        Ok(())
    }

    /// Puts the trees and the lists among the last values into one list in their place.
    ///
    /// Where memory runs out no value is left.
    pub fn collect(&mut self, takes: usize, sources: &[Source]) -> Result<(), AllocError>
        requires covers { IsCovered (state_of self.old).values takes sources.now }
        ensures list { OnOk result (state_of self.new ≡ with_value (state_of self.old) takes (ListValue (parts_given (state_of self.old).values sources.now))) }
        ensures names { self.new.names ≡ self.old.names }
    {
        let from = self.values.len().saturating_sub(takes);
        let collected = put_list(self.alloc, &mut self.values, from, sources);
        if collected.is_err() {
            forget(self.alloc, &mut self.values, &mut self.unit);
        }
        collected
    }
}

// Puts a list of the children that the last values give in their place.
fn put_list(
    alloc: Global,
    values: &mut Vec<Value>,
    from: usize,
    sources: &[Source],
) -> Result<(), AllocError>
    requires within { from ≤ vec_len values.old }
    requires small { list_all is_small values.old.items ≡ true }
    ensures { OnOk result (values.new.items ≡ take from values.old.items ++ kinds.List (children_in (drop from values.old.items) sources.now) ∷ []) }
{
    let children = take_children(alloc, values, from, sources)?;
    values.push(Value::List(children))?;
    Ok(())
}
