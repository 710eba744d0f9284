// What an initializer makes of an object (C11 6.7.9): which expression is for which part, what has no place, and how many elements an array
// without a length gets. What the expressions become, and what is constant, isn't known here.
ghost use Rattle.std.specs.Prelude.{◌≡◌, [], All, Bool, IfOk, List};
ghost use Rattle.meaning_tree.specs.Nodes.{ChildrenStandBefore};
ghost use Rattle.meaning_typing.specs.Facts.{Fact};
ghost use Rattle.meaning_typing.specs.Units.{UnitNodes, unit_list};
ghost use Rattle.meaning_initializers.specs.Parts.{Aggregates};
ghost use Rattle.c_types.specs.Table.{IsTypeId};
ghost use Rattle.node_facts.specs.Facts.{IsKnownNodeFact, nodes_seen};
ghost use Rattle.decl_judge.specs.Units.{nodes_of};
ghost use Rattle.initializer_levels.specs.Items.{items_left};
ghost use Rattle.initializer_levels.specs.Met.{IsFindingIn, found_with};
ghost use Rattle.initializer_levels.specs.Parts.{type_seen};
ghost use Rattle.initializer_levels.specs.Steps.{AreKnownIn};
ghost use Rattle.initializer_levels.specs.Turns.{Comes, begun, nothing_found};
ghost use Rattle.initializer_levels.specs.Walks.{IsKnownWalk, walk_seen};

use crate::items::ItemList;
use crate::level::Level;
use crate::listing::push_met;
use crate::met::Finding;
use crate::parts::PartType;
use crate::paths::Paths;
use crate::turn::{Turn, take_turn};
use crate::walk::{Turned, Walk};
use c_tree::Unit;
use c_types::Types;
use node_facts::NodeFacts;
use std::alloc::{AllocError, Global};

/// What an initializer makes of an object.
#[derive(Drop)]
pub struct Plan {
    /// In the order in which they are written.
    pub findings: Vec<Finding>,
    /// Where the parts of the leaves stand.
    pub paths: Paths,
    /// How many elements it gives an array that has no length.
    pub length: u64,
}

// How a walk over the items of braces begins: behind them there are none.
fn begun(alloc: Global, types: &Types, object: PartType, items: ItemList) -> Walk
    requires { IsTypeId types.now object.of }
    ensures walk { (nodes : UnitNodes) (facts : List Fact) → walk_seen types.now [] (items_left nodes facts) nothing_found result ≡ begun (type_seen types.now object) (items_left nodes facts items) }
    ensures known { IsKnownWalk types.now [] result }
{
    let none = ItemList {
        left: Vec::new(alloc),
        is_moved: false,
        is_led: false,
    };
    Walk {
        level: Level::opened(types, object, None, Some(none)),
        levels: Vec::new(alloc),
        items,
    }
}

/// What a walk over the items of braces finds, turn by turn. More than 2^64 turns are want of memory.
pub fn walk_items(
    alloc: Global,
    unit: &Unit,
    types: &Types,
    facts: &NodeFacts,
    object: PartType,
    items: ItemList,
) -> Result<Plan, AllocError>
    requires whole { unit.now.first ≡ 0 }
    requires order { ChildrenStandBefore (unit_list (nodes_of unit.now)) }
    requires facts { All (IsKnownNodeFact types.now) facts.now }
    requires object { IsTypeId types.now object.of }
    ensures comes { (aggregates : Aggregates) (is_static : Bool) → AreKnownIn types.now aggregates → IfOk result (λ plan. Comes aggregates is_static (begun (type_seen types.now object) (items_left (nodes_of unit.now) (nodes_seen types.now facts.now) items)) (found_with (nodes_of unit.now) (nodes_seen types.now facts.now) is_static types.now plan.paths nothing_found plan.findings.items) plan.length) }
    ensures known { IfOk result (λ plan. All (IsFindingIn types.now plan.paths) plan.findings.items) }
{
    let mut paths = Paths::new(alloc);
    let mut findings = Vec::new(alloc);
    let mut walk = begun(alloc, types, object, items);
    for _turn in 0..u64::MAX {
        let turn = take_turn(alloc, unit, types, facts, &mut paths, walk)?;
        let Turn { turned, met } = turn;
        push_met(unit, &mut findings, met)?;
        match turned {
            Turned::Done(length) => {
                return Ok(Plan {
                    findings,
                    paths,
                    length,
                });
            }
            Turned::Goes(next) => walk = next,
        }
    }
    Err(AllocError)
}
