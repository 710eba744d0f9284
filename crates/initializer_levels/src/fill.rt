// A part of the innermost level of a walk takes the next item: as an expression or in braces, or its own first parts do (C11 6.7.9 p13,
// p14, p16, p20). How expressions are converted isn't known here.
ghost use Rattle.std.specs.Prelude.{◌≡◌, ◌∷◌, [], ℕ, All, IfOk, List, OnOk, Some, option_map, true};
ghost use Rattle.meaning_tree.specs.Nodes.{ChildrenStandBefore};
ghost use Rattle.meaning_typing.specs.Facts.{Fact};
ghost use Rattle.meaning_typing.specs.Units.{UnitNodes, kind_at, unit_list};
ghost use Rattle.meaning_initializers.specs.Items.{Item, Items, Value};
ghost use Rattle.meaning_initializers.specs.Reading.{given_at, initializer_at};
ghost use Rattle.c_types.specs.Table.{IsLonger, IsTypeId, TypeTable};
ghost use Rattle.node_facts.specs.Facts.{IsKnownNodeFact, nodes_seen};
ghost use Rattle.decl_judge.specs.Units.{nodes_of};
ghost use Rattle.initializer_levels.specs.Going.{GoesTo, IsKnownGoing, behind_seen, filled_seen, received_seen};
ghost use Rattle.initializer_levels.specs.Items.{items_behind, items_left};
ghost use Rattle.initializer_levels.specs.Kept.{IsKnownLevel, level_seen};
ghost use Rattle.initializer_levels.specs.Levels as meaning;
ghost use Rattle.initializer_levels.specs.Met.{IsMetIn};
ghost use Rattle.initializer_levels.specs.Parts.{IsKnownPart, part_seen, type_seen};
ghost use Rattle.initializer_levels.specs.Paths.{IsPathIn, path_at};
ghost use Rattle.initializer_levels.specs.Reading.{is_braces};
ghost use Rattle.initializer_levels.specs.Turns as turns;
ghost use Rattle.initializer_levels.specs.Walks.{IsKnownWalk, inner_walk, levels_seen};

use crate::going::Going;
use crate::items::{ItemList, items_at};
use crate::level::Level;
use crate::met::{Finding, Met, Placed};
use crate::parts::{Part, parts_of};
use crate::paths::{Paths, path_of_part};
use crate::reading::{is_braced, string_in, takes_whole};
use crate::walk::{Walk, descend};
use c_tree::{Handle, Unit};
use c_types::Types;
use node_facts::NodeFacts;
use std::alloc::{AllocError, Global};

// A level is opened for the part, in braces with these items behind it, or without.
#[tactic(auto, using(crate::proofs::GoingLemmas::nothing_found))]
fn open_placed(
    types: &Types,
    placed: Placed,
    behind: Option<ItemList>,
    walk: Walk,
) -> Result<Going, AllocError>
    requires { IsTypeId types.now placed.of.of }
    ensures walk { (nodes : UnitNodes) (facts : List Fact) (paths : List (List ℕ)) → IfOk result (λ going. GoesTo nodes facts types.now paths going (λ is_static found. inner_walk found (meaning.opened (type_seen types.now placed.of) (path_at paths placed.path) (option_map (items_left nodes facts) behind)) (level_seen types.now paths (items_left nodes facts) walk.level) (levels_seen types.now paths (items_left nodes facts) walk.levels.items) (items_left nodes facts walk.items))) }
    ensures known { (paths : List (List ℕ)) → IsKnownWalk types.now paths walk → IsPathIn paths placed.path → IfOk result (IsKnownGoing types.now paths) }
{
    let inner = Level::opened(types, placed.of, placed.path, behind);
    let walk = descend(inner, walk.level, walk.levels, walk.items)?;
    Ok(Going {
        walk,
        met: Met::Nothing,
    })
}

// Behind the part, which took an item whole.
fn behind_placed(met: Met, walk: Walk) -> Result<Going, AllocError>
    ensures walk { (nodes : UnitNodes) (facts : List Fact) (table : TypeTable) (paths : List (List ℕ)) → IsKnownLevel table paths walk.level
        → IfOk result (λ going. GoesTo nodes facts table paths going (behind_seen nodes facts table paths met walk)) }
    ensures known { (table : TypeTable) (paths : List (List ℕ)) → IsKnownWalk table paths walk → IsMetIn table paths met → IfOk result (IsKnownGoing table paths) }
{
    let level = walk.level.behind_part(true)?;
    Ok(Going {
        walk: Walk {
            level,
            levels: walk.levels,
            items: walk.items,
        },
        met,
    })
}

// The items of braces are for the parts of the part, unless a string stands first in them.
fn receive_braces(
    alloc: Global,
    unit: &Unit,
    types: &Types,
    placed: Placed,
    walk: Walk,
) -> Result<Going, AllocError>
    requires whole { unit.now.first ≡ 0 }
    requires order { ChildrenStandBefore (unit_list (nodes_of unit.now)) }
    requires type_ { IsTypeId types.now placed.of.of }
    requires braced { is_braces (kind_at (nodes_of unit.now) placed.initializer) ≡ true }
    ensures walk { (facts : List Fact) (paths : List (List ℕ)) → IsKnownLevel types.now paths walk.level
        → IfOk result (λ going. GoesTo (nodes_of unit.now) facts types.now paths going (received_seen (nodes_of unit.now) facts types.now paths placed walk (initializer_at (nodes_of unit.now) facts placed.initializer))) }
    ensures known { (paths : List (List ℕ)) → IsKnownWalk types.now paths walk → IsPathIn paths placed.path → IfOk result (IsKnownGoing types.now paths) }
{
    let inner = items_at(alloc, unit, placed.initializer, placed.is_moved)?;
    match string_in(unit, types, parts_of(types, placed.of), &inner) {
        Some(string) => {
            let placed = Placed {
                initializer: string,
                ..placed
            };
            behind_placed(Met::StringAlone(placed, inner.behind()), walk)
        }
        None => open_placed(
            types,
            placed,
            Some(walk.items),
            Walk {
                level: walk.level,
                levels: walk.levels,
                items: inner,
            },
        ),
    }
}

// The part takes an initializer whole, with the items of the walk behind it.
fn receive(
    alloc: Global,
    unit: &Unit,
    types: &Types,
    placed: Placed,
    walk: Walk,
) -> Result<Going, AllocError>
    requires whole { unit.now.first ≡ 0 }
    requires order { ChildrenStandBefore (unit_list (nodes_of unit.now)) }
    requires type_ { IsTypeId types.now placed.of.of }
    ensures walk { (facts : List Fact) (paths : List (List ℕ)) → IsKnownLevel types.now paths walk.level
        → IfOk result (λ going. GoesTo (nodes_of unit.now) facts types.now paths going (received_seen (nodes_of unit.now) facts types.now paths placed walk (initializer_at (nodes_of unit.now) facts placed.initializer))) }
    ensures known { (paths : List (List ℕ)) → IsKnownWalk types.now paths walk → IsPathIn paths placed.path → IfOk result (IsKnownGoing types.now paths) }
{
    if is_braced(unit, placed.initializer) {
        receive_braces(alloc, unit, types, placed, walk)
    } else {
        behind_placed(Met::One(Finding::Leaf(placed)), walk)
    }
}

// The part takes the first item of the walk, or its parts do.
fn fill_placed(
    alloc: Global,
    unit: &Unit,
    types: &Types,
    facts: &NodeFacts,
    placed: Placed,
    walk: Walk,
) -> Result<Going, AllocError>
    requires whole { unit.now.first ≡ 0 }
    requires order { ChildrenStandBefore (unit_list (nodes_of unit.now)) }
    requires facts { All (IsKnownNodeFact types.now) facts.now }
    requires type_ { IsTypeId types.now placed.of.of }
    requires first { items_left (nodes_of unit.now) (nodes_seen types.now facts.now) walk.items ≡ Item [] placed.is_moved (initializer_at (nodes_of unit.now) (nodes_seen types.now facts.now) placed.initializer) (items_behind (nodes_of unit.now) (nodes_seen types.now facts.now) walk.items) }
    ensures walk { (paths : List (List ℕ)) → IsKnownLevel types.now paths walk.level
        → IfOk result (λ going. GoesTo (nodes_of unit.now) (nodes_seen types.now facts.now) types.now paths going (filled_seen (nodes_of unit.now) (nodes_seen types.now facts.now) types.now paths placed walk)) }
    ensures known { (paths : List (List ℕ)) → IsKnownWalk types.now paths walk → IsPathIn paths placed.path → IfOk result (IsKnownGoing types.now paths) }
{
    let parts = parts_of(types, placed.of);
    if takes_whole(unit, types, facts, parts, placed.initializer) {
        receive(
            alloc,
            unit,
            types,
            placed,
            Walk {
                level: walk.level,
                levels: walk.levels,
                items: walk.items.behind(),
            },
        )
    } else {
        open_placed(types, placed, None, walk)
    }
}

/// A part of the innermost level of a walk takes the first item of the walk, or its own first parts do, which then are a level: the
/// item is that of this initializer, and its designators were followed. A refusal, which is want of memory, may have added paths.
pub fn fill_part(
    alloc: Global,
    unit: &Unit,
    types: &Types,
    facts: &NodeFacts,
    paths: &mut Paths,
    part: Part,
    initializer: Handle,
    is_moved: bool,
    walk: Walk,
) -> Result<Going, AllocError>
    requires whole { unit.now.first ≡ 0 }
    requires order { ChildrenStandBefore (unit_list (nodes_of unit.now)) }
    requires facts { All (IsKnownNodeFact types.now) facts.now }
    requires part { IsKnownPart types.now part }
    requires walk { IsKnownWalk types.now paths.old walk }
    requires first { items_left (nodes_of unit.now) (nodes_seen types.now facts.now) walk.items ≡ Item [] is_moved (initializer_at (nodes_of unit.now) (nodes_seen types.now facts.now) initializer) (items_behind (nodes_of unit.now) (nodes_seen types.now facts.now) walk.items) }
    ensures walk { IfOk result (λ going. GoesTo (nodes_of unit.now) (nodes_seen types.now facts.now) types.now paths.new going (λ is_static found. turns.filled is_static found (part_seen types.now part) (level_seen types.now paths.old (items_left (nodes_of unit.now) (nodes_seen types.now facts.now)) walk.level) (levels_seen types.now paths.old (items_left (nodes_of unit.now) (nodes_seen types.now facts.now)) walk.levels.items) is_moved (initializer_at (nodes_of unit.now) (nodes_seen types.now facts.now) initializer) (items_behind (nodes_of unit.now) (nodes_seen types.now facts.now) walk.items))) }
    ensures known { IfOk result (IsKnownGoing types.now paths.new) }
    ensures keeps { OnOk result (IsLonger paths.old paths.new) }
{
    let path = path_of_part(paths, walk.level.parts, walk.level.path, part)?;
    let placed = Placed {
        of: part.of,
        path,
        initializer,
        is_moved,
    };
    fill_placed(alloc, unit, types, facts, placed, walk)
}
