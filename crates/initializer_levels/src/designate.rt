// Designators go down from the object or part for which braces are (C11 6.7.9 p7, p17, p18): each part on the way is a level.
ghost use Rattle.std.specs.Prelude.{◌≡◌, ◌∷◌, [], ℕ, All, IfOk, List, OnOk, Some, map, true};
ghost use Rattle.meaning_tree.specs.Nodes.{ChildrenStandBefore};
ghost use Rattle.meaning_typing.specs.Facts.{Fact};
ghost use Rattle.meaning_typing.specs.Units.{unit_list};
ghost use Rattle.meaning_initializers.specs.Designators.{Along};
ghost use Rattle.meaning_initializers.specs.Items.{Item, Items};
ghost use Rattle.meaning_initializers.specs.Parts.{Aggregates};
ghost use Rattle.meaning_initializers.specs.Reading.{designators_of, initializer_at};
ghost use Rattle.c_types.specs.Table.{IsLonger, TypeTable};
ghost use Rattle.node_facts.specs.Facts.{IsKnownNodeFact, nodes_seen};
ghost use Rattle.decl_judge.specs.Units.{nodes_of};
ghost use Rattle.initializer_levels.specs.Arriving.{GoesAlong, IsKnownArrived, IsOpened, along_seen, nowhere_seen, place_seen};
ghost use Rattle.initializer_levels.specs.Going.{GoesTo, IsKnownGoing};
ghost use Rattle.initializer_levels.specs.Items.{items_behind, items_left, led_list};
ghost use Rattle.initializer_levels.specs.Kept.{level_seen};
ghost use Rattle.initializer_levels.specs.Levels as meaning;
ghost use Rattle.initializer_levels.specs.Met.{IsMetIn};
ghost use Rattle.initializer_levels.specs.Parts.{IsKnownPart, part_seen, type_seen};
ghost use Rattle.initializer_levels.specs.Steps.{AreKnownIn};
ghost use Rattle.initializer_levels.specs.Walks.{IsKnownWalk, levels_seen};

use crate::fill::fill_part;
use crate::going::{Arrived, Going};
use crate::items::{ItemList, NextItem};
use crate::level::Level;
use crate::met::{Finding, Met};
use crate::parts::Part;
use crate::paths::{Paths, path_of_part};
use crate::walk::{Walk, descend};
use crate::way::{Way, way_to};
use c_tree::{Handle, Unit};
use c_types::Types;
use node_facts::NodeFacts;
use std::alloc::{AllocError, Global};

// A part on the way is a level of its own.
fn open_part(types: &Types, paths: &mut Paths, part: Part, walk: Walk) -> Result<Walk, AllocError>
    requires part { IsKnownPart types.now part }
    requires walk { IsKnownWalk types.now paths.old walk }
    ensures opened { (read : ItemList → Items) → IfOk result (IsOpened types.now paths.old paths.new read part walk) }
    ensures known { IfOk result (IsKnownWalk types.now paths.new) }
    ensures keeps { OnOk result (IsLonger paths.old paths.new) }
{
    let path = path_of_part(paths, walk.level.parts, walk.level.path, part)?;
    let level = walk.level.designated_part(part.number);
    let inner = descend(
        Level::opened(types, part.of, path, None),
        level,
        walk.levels,
        walk.items,
    )?;
    Ok(inner)
}

// The last part of a way, from the innermost level of a walk on. A refusal, which is want of memory, may have added paths.
fn open_along(
    types: &Types,
    paths: &mut Paths,
    first: Part,
    others: &[Part],
    walk: Walk,
) -> Result<Arrived, AllocError>
    requires first { IsKnownPart types.now first }
    requires others { All (IsKnownPart types.now) others.now }
    requires walk { IsKnownWalk types.now paths.old walk }
    ensures place { (read : ItemList → Items) → IfOk result (λ arrived. place_seen types.now paths.new read arrived ≡ meaning.place_along (level_seen types.now paths.old read walk.level) (levels_seen types.now paths.old read walk.levels.items) (part_seen types.now first) (map (part_seen types.now) others.now)) }
    ensures items { IfOk result (λ arrived. arrived.walk.items ≡ walk.items) }
    ensures known { IfOk result (IsKnownArrived types.now paths.new) }
    ensures keeps { OnOk result (IsLonger paths.old paths.new) }
{
    let mut part = first;
    let mut walk = walk;
    let mut rest = others;
    'parts: while let Some((next, more)) = rest.split_first() {
        walk = open_part(types, paths, part, walk)?;
        part = *next;
        rest = more;
    }
    let level = walk.level.designated_part(part.number);
    Ok(Arrived {
        part,
        walk: Walk {
            level,
            levels: walk.levels,
            items: walk.items,
        },
    })
}

// Where designators lead nowhere, neither the item nor those behind it up to the next designator have a place.
fn go_nowhere(unit: &Unit, met: Met, walk: Walk) -> Going
    requires { unit.now.first ≡ 0 }
    ensures walk { (facts : List Fact) (table : TypeTable) (paths : List (List ℕ)) → GoesTo (nodes_of unit.now) facts table paths result (nowhere_seen (nodes_of unit.now) facts table paths met walk) }
    ensures known { (table : TypeTable) (paths : List (List ℕ)) → IsKnownWalk table paths walk → IsMetIn table paths met → IsKnownGoing table paths result }
{
    let level = walk.level.ended();
    Going {
        walk: Walk {
            level,
            levels: walk.levels,
            items: walk.items.behind().from_designator(unit),
        },
        met,
    }
}

// The part at the end of a way takes the first item of the walk, which is that of this initializer.
fn go_along(
    alloc: Global,
    unit: &Unit,
    types: &Types,
    facts: &NodeFacts,
    paths: &mut Paths,
    way: &[Part],
    initializer: Handle,
    walk: Walk,
) -> Result<Going, AllocError>
    requires whole { unit.now.first ≡ 0 }
    requires order { ChildrenStandBefore (unit_list (nodes_of unit.now)) }
    requires facts { All (IsKnownNodeFact types.now) facts.now }
    requires way { All (IsKnownPart types.now) way.now }
    requires walk { IsKnownWalk types.now paths.old walk }
    requires first { items_left (nodes_of unit.now) (nodes_seen types.now facts.now) (led_list walk.items) ≡ Item [] true (initializer_at (nodes_of unit.now) (nodes_seen types.now facts.now) initializer) (items_behind (nodes_of unit.now) (nodes_seen types.now facts.now) walk.items) }
    ensures walk { IfOk result (λ going. GoesTo (nodes_of unit.now) (nodes_seen types.now facts.now) types.now paths.new going (along_seen (nodes_of unit.now) (nodes_seen types.now facts.now) types.now paths.old initializer walk (Along (map (part_seen types.now) way.now)))) }
    ensures known { IfOk result (IsKnownGoing types.now paths.new) }
    ensures keeps { OnOk result (IsLonger paths.old paths.new) }
{
    let Some((first, others)) = way.split_first() else {
        let level = walk.level.ended();
        return Ok(Going {
            walk: Walk {
                level,
                levels: walk.levels,
                items: walk.items.behind(),
            },
            met: Met::Nothing,
        });
    };
    let arrived = open_along(types, paths, *first, others, walk)?;
    let walk = Walk {
        level: arrived.walk.level,
        levels: arrived.walk.levels,
        items: arrived.walk.items.led(),
    };
    fill_part(
        alloc,
        unit,
        types,
        facts,
        paths,
        arrived.part,
        initializer,
        true,
        walk,
    )
}

/// An item with designators, which go down from the innermost level of a walk. A refusal, which is want of memory, may have added paths.
pub fn go_by_designators(
    alloc: Global,
    unit: &Unit,
    types: &Types,
    facts: &NodeFacts,
    paths: &mut Paths,
    next: NextItem,
    walk: Walk,
) -> Result<Going, AllocError>
    requires whole { unit.now.first ≡ 0 }
    requires order { ChildrenStandBefore (unit_list (nodes_of unit.now)) }
    requires facts { All (IsKnownNodeFact types.now) facts.now }
    requires walk { IsKnownWalk types.now paths.old walk }
    requires first { items_left (nodes_of unit.now) (nodes_seen types.now facts.now) (led_list walk.items) ≡ Item [] true (initializer_at (nodes_of unit.now) (nodes_seen types.now facts.now) next.initializer) (items_behind (nodes_of unit.now) (nodes_seen types.now facts.now) walk.items) }
    ensures walk { (aggregates : Aggregates) → AreKnownIn types.now aggregates → IfOk result (GoesAlong aggregates (nodes_of unit.now) (nodes_seen types.now facts.now) types.now paths.old paths.new next walk) }
    ensures known { IfOk result (IsKnownGoing types.now paths.new) }
    ensures keeps { OnOk result (IsLonger paths.old paths.new) }
{
    let way = way_to(alloc, unit, types, facts, walk.level.of, next.item)?;
    match way {
        Way::Along(parts) => go_along(
            alloc,
            unit,
            types,
            facts,
            paths,
            parts.as_slice(),
            next.initializer,
            walk,
        ),
        Way::NoPart(designator) => {
            Ok(go_nowhere(unit, Met::One(Finding::NoPart(designator)), walk))
        }
        Way::Unknown => Ok(go_nowhere(unit, Met::Nothing, walk)),
    }
}
