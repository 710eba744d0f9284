// What an initializer as a whole makes of an object: an expression, a string in braces, or items in braces (C11 6.7.9 p11, p13, p14,
// p16). What the expressions become isn't known here.
ghost use Rattle.std.specs.Prelude.{◌≡◌, [], true, false, All, Bool, IfOk, List};
ghost use Rattle.meaning_tree.specs.Nodes.{ChildrenStandBefore};
ghost use Rattle.meaning_typing.specs.Facts.{Fact};
ghost use Rattle.meaning_typing.specs.Units.{kind_at, unit_list};
ghost use Rattle.meaning_initializers.specs.Parts.{Aggregates};
ghost use Rattle.c_types.specs.Table.{IsTypeId, TypeTable, type_at};
ghost use Rattle.decl_judge.specs.Units.{nodes_of};
ghost use Rattle.node_facts.specs.Facts.{IsKnownNodeFact, nodes_seen};
ghost use Rattle.initializer_levels.specs.Met.{IsFindingIn, IsMetIn, found_with, met_plan};
ghost use Rattle.initializer_levels.specs.Reading.{is_braces};
ghost use Rattle.initializer_levels.specs.Steps.{AreKnownIn};
ghost use Rattle.initializer_levels.specs.Turns.{found_behind, nothing_found};
ghost use Rattle.init_judge.specs.Whole.{IsReceived};

use crate::strings::length_of;
use c_tree::{Handle, Unit};
use c_types::Types;
use initializer_levels::{
    Finding, Met, PartType, Paths, Placed, Plan, initializers_are_of_parts, is_braced, items_at,
    parts_of, push_met, string_in, walk_items, walks_come_to_plans,
};
use node_facts::NodeFacts;
use sparse_model::TypeId;
use std::alloc::{AllocError, Global};

// The object takes this, and an array without a length gets that one.
fn plan_met(alloc: Global, unit: &Unit, met: Met, length: u64) -> Result<Plan, AllocError>
    requires { unit.now.first ≡ 0 }
    ensures found { (facts : List Fact) (is_static : Bool) (table : TypeTable) → IfOk result (λ plan. found_with (nodes_of unit.now) facts is_static table plan.paths nothing_found plan.findings.items ≡ found_behind nothing_found (met_plan (nodes_of unit.now) facts is_static table [] met)) }
    ensures length { IfOk result (λ plan. plan.length ≡ length) }
    ensures known { (table : TypeTable) → IsMetIn table [] met → IfOk result (λ plan. All (IsFindingIn table plan.paths) plan.findings.items) }
{
    let paths = Paths::new(alloc);
    let mut findings = Vec::new(alloc);
    push_met(unit, &mut findings, met)?;
    Ok(Plan {
        findings,
        paths,
        length,
    })
}

// The object takes an expression.
fn plan_of_value(
    alloc: Global,
    unit: &Unit,
    types: &Types,
    object: TypeId,
    init: Handle,
) -> Result<Plan, AllocError>
    requires whole { unit.now.first ≡ 0 }
    requires order { ChildrenStandBefore (unit_list (nodes_of unit.now)) }
    requires object { IsTypeId types.now object }
    requires value { is_braces (kind_at (nodes_of unit.now) init) ≡ false }
    ensures received { (aggregates : Aggregates) (facts : List Fact) (is_static : Bool) → IfOk result (IsReceived aggregates is_static types.now (nodes_of unit.now) facts object init) }
    ensures known { IfOk result (λ plan. All (IsFindingIn types.now plan.paths) plan.findings.items) }
{
    initializers_are_of_parts();
    let of = PartType {
        of: object,
        is_member: false,
    };
    let parts = parts_of(types, of);
    let length = length_of(unit, types, parts, init);
    let placed = Placed {
        of,
        path: None,
        initializer: init,
        is_moved: false,
    };
    plan_met(alloc, unit, Met::One(Finding::Leaf(placed)), length)
}

// The object takes braces, in which a string may stand first.
fn plan_of_braces(
    alloc: Global,
    unit: &Unit,
    types: &Types,
    facts: &NodeFacts,
    object: TypeId,
    init: Handle,
) -> Result<Plan, AllocError>
    requires whole { unit.now.first ≡ 0 }
    requires order { ChildrenStandBefore (unit_list (nodes_of unit.now)) }
    requires facts { All (IsKnownNodeFact types.now) facts.now }
    requires object { IsTypeId types.now object }
    requires braced { is_braces (kind_at (nodes_of unit.now) init) ≡ true }
    ensures received { (aggregates : Aggregates) (is_static : Bool) → AreKnownIn types.now aggregates → IfOk result (IsReceived aggregates is_static types.now (nodes_of unit.now) (nodes_seen types.now facts.now) object init) }
    ensures known { IfOk result (λ plan. All (IsFindingIn types.now plan.paths) plan.findings.items) }
{
    initializers_are_of_parts();
    walks_come_to_plans();
    let of = PartType {
        of: object,
        is_member: false,
    };
    let items = items_at(alloc, unit, init, false)?;
    let parts = parts_of(types, of);
    match string_in(unit, types, parts, &items) {
        Some(string) => {
            let length = length_of(unit, types, parts, string);
            let placed = Placed {
                of,
                path: None,
                initializer: string,
                is_moved: false,
            };
            plan_met(
                alloc,
                unit,
                Met::StringAlone(placed, items.behind()),
                length,
            )
        }
        None => walk_items(alloc, unit, types, facts, of, items),
    }
}

/// What the initializer with this handle makes of an object of this type. It takes a few steps for each item, and for each part that
/// is opened.
pub fn plan_of(
    alloc: Global,
    unit: &Unit,
    types: &Types,
    facts: &NodeFacts,
    object: TypeId,
    init: Handle,
) -> Result<Plan, AllocError>
    requires whole { unit.now.first ≡ 0 }
    requires order { ChildrenStandBefore (unit_list (nodes_of unit.now)) }
    requires facts { All (IsKnownNodeFact types.now) facts.now }
    requires object { IsTypeId types.now object }
    ensures received { (aggregates : Aggregates) (is_static : Bool) → AreKnownIn types.now aggregates → IfOk result (IsReceived aggregates is_static types.now (nodes_of unit.now) (nodes_seen types.now facts.now) object init) }
    ensures known { IfOk result (λ plan. All (IsFindingIn types.now plan.paths) plan.findings.items) }
{
    if is_braced(unit, init) {
        plan_of_braces(alloc, unit, types, facts, object, init)
    } else {
        plan_of_value(alloc, unit, types, object, init)
    }
}
