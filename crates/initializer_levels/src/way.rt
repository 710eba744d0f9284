// Where the designators of an item lead (C11 6.7.9 p6, p7): the parts on the way from an object down, or that they lead nowhere.
ghost use Rattle.std.specs.Prelude.{◌≡◌, All, IfOk};
ghost use Rattle.meaning_typing.specs.Facts.{fact_at};
ghost use Rattle.meaning_typing.specs.Units as units;
ghost use Rattle.meaning_initializers.specs.Designators.{Leads, step_of};
ghost use Rattle.meaning_initializers.specs.Items.{ElementAt};
ghost use Rattle.meaning_initializers.specs.Parts.{Aggregates};
ghost use Rattle.meaning_initializers.specs.Reading.{designators_of, target_of};
ghost use Rattle.c_types.specs.Table.{IsTypeId};
ghost use Rattle.node_facts.specs.Facts.{IsKnownNodeFact, name_seen, node_seen, nodes_seen};
ghost use Rattle.decl_judge.specs.Units.{nodes_of};
ghost use Rattle.initializer_levels.specs.Parts.{type_seen};
ghost use Rattle.initializer_levels.specs.Steps.{AreKnownIn, IsKnownStep, index_of, step_seen};
ghost use Rattle.initializer_levels.specs.Ways.{IsKnownWay, way_seen};

use crate::items::count_of_parts;
use crate::parts::{Part, PartType, parts_of};
use crate::steps::{Index, Step, step_to_element, step_to_member};
use c_tree::{Handle, Unit};
use c_types::Types;
use decl_judge::{child_at, kind_at, node_at};
use node_facts::{NodeFact, NodeFacts, part_of};
use sparse_model::{NameId, NodeKind};
use std::alloc::{AllocError, Global};

/// Where designators lead.
#[derive(Drop)]
pub enum Way {
    /// To the last of these parts, through the others, from the outermost on.
    Along(Vec<Part>),
    /// The designator with this handle names no part.
    NoPart(Handle),
    /// Nothing is known of an index.
    Unknown,
}

// What is known of an index, by what is known of its expression.
fn index_of(types: &Types, fact: NodeFact) -> Index
    requires { IsKnownNodeFact types.now fact }
    ensures { index_of (node_seen types.now fact) ≡ result }
{
    match fact {
        NodeFact::Expression(expression) => { Index::Known(part_of(types, expression.node).number) }
        _ => Index::Unknown,
    }
}

fn name_at(unit: &Unit, handle: Handle) -> NameId
    requires { unit.now.first ≡ 0 }
    ensures { name_seen result ≡ (units.node_at (nodes_of unit.now) handle).name }
{
    match node_at(unit, handle) {
        Some(node) => node.name,
        None => NameId(0),
    }
}

// What an index names.
fn step_at_index(
    unit: &Unit,
    types: &Types,
    facts: &NodeFacts,
    of: PartType,
    designator: Handle,
) -> Step
    requires whole { unit.now.first ≡ 0 }
    requires facts { All (IsKnownNodeFact types.now) facts.now }
    requires type_ { IsTypeId types.now of.of }
    ensures step { (aggregates : Aggregates) → step_seen types.now result ≡ step_of aggregates (type_seen types.now of) (ElementAt (fact_at (nodes_seen types.now facts.now) (units.child_at (nodes_of unit.now) designator 0))) }
    ensures known { IsKnownStep types.now result }
{
    let index = index_of(types, facts.at(child_at(unit, designator, 0)));
    step_to_element(types, parts_of(types, of), of, index)
}

// By the kind of a designator.
fn step_by(
    unit: &Unit,
    types: &Types,
    facts: &NodeFacts,
    of: PartType,
    designator: Handle,
    kind: NodeKind,
) -> Step
    requires whole { unit.now.first ≡ 0 }
    requires facts { All (IsKnownNodeFact types.now) facts.now }
    requires type_ { IsTypeId types.now of.of }
    ensures step { (aggregates : Aggregates) → AreKnownIn types.now aggregates → step_seen types.now result ≡ step_of aggregates (type_seen types.now of) (target_of (nodes_of unit.now) (nodes_seen types.now facts.now) designator kind) }
    ensures known { IsKnownStep types.now result }
{
    match kind {
        NodeKind::MemberDesignator => {
            step_to_member(types, parts_of(types, of), of, name_at(unit, designator))
        }
        _ => step_at_index(unit, types, facts, of, designator),
    }
}

/// Where the designators of an item lead from an object of this type. It takes a step for each designator, and for each member without
/// a name on the way; more than 2^32 of them are want of memory.
pub fn way_to(
    alloc: Global,
    unit: &Unit,
    types: &Types,
    facts: &NodeFacts,
    of: PartType,
    item: Handle,
) -> Result<Way, AllocError>
    requires whole { unit.now.first ≡ 0 }
    requires facts { All (IsKnownNodeFact types.now) facts.now }
    requires type_ { IsTypeId types.now of.of }
    ensures leads { (aggregates : Aggregates) → AreKnownIn types.now aggregates → IfOk result (λ way. Leads aggregates (type_seen types.now of) (designators_of (nodes_of unit.now) (nodes_seen types.now facts.now) item) (way_seen (nodes_of unit.now) (nodes_seen types.now facts.now) types.now way)) }
    ensures known { IfOk result (IsKnownWay types.now) }
{
    let count = count_of_parts(unit, item).saturating_sub(1);
    let mut parts = Vec::new(alloc);
    let mut within = of;
    let mut at = 0;
    for _step in 0..u32::MAX {
        if at >= count {
            return Ok(Way::Along(parts));
        }
        let designator = child_at(unit, item, at);
        let kind = kind_at(unit, designator);
        match step_by(unit, types, facts, within, designator, kind) {
            Step::ToPart(part) => {
                parts.push(part)?;
                within = part.of;
                at += 1;
                continue;
            }
            Step::Into(part) => {
                parts.push(part)?;
                within = part.of;
                continue;
            }
            Step::NoPart => return Ok(Way::NoPart(designator)),
            Step::Unknown => return Ok(Way::Unknown),
        }
    }
    Err(AllocError)
}
