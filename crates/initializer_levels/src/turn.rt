// One turn of a walk over the items of an initializer (C11 6.7.9 p17 to p20): where the next item goes, and what it comes to there. What
// expressions become, and what is constant, isn't known here.
ghost use Rattle.std.specs.Prelude.{◌≡◌, [], ℕ, All, Bool, IfOk, IfSome, List, None, OnOk, Some, false, if◌then◌else◌, option_map, true};
ghost use Rattle.meaning_tree.specs.Nodes.{ChildrenStandBefore};
ghost use Rattle.meaning_typing.specs.Facts.{Fact};
ghost use Rattle.meaning_typing.specs.Units.{UnitNodes, unit_list};
ghost use Rattle.meaning_initializers.specs.Items.{Item, NoItems};
ghost use Rattle.meaning_initializers.specs.Reading.{initializer_at};
ghost use Rattle.meaning_initializers.specs.Parts.{Aggregates, part_from};
ghost use Rattle.c_types.specs.Table.{IsLonger, TypeTable};
ghost use Rattle.node_facts.specs.Facts.{IsKnownNodeFact, nodes_seen};
ghost use Rattle.decl_judge.specs.Units.{nodes_of};
ghost use Rattle.initializer_levels.specs.Items.{items_behind, items_left};
ghost use Rattle.initializer_levels.specs.Kept.{IsKnownLevel, level_seen};
ghost use Rattle.initializer_levels.specs.Parts.{AreMembersIn, IsKnownPart, part_seen, type_seen};
ghost use Rattle.initializer_levels.specs.Steps.{AreKnownIn};
ghost use Rattle.initializer_levels.specs.Taken.{IsKnownTurn, IsNext, TurnsTo};
ghost use Rattle.initializer_levels.specs.Turns as turns;
ghost use Rattle.initializer_levels.specs.Walks.{IsKnownWalk};

use crate::designate::go_by_designators;
use crate::fill::fill_part;
use crate::items::NextItem;
use crate::level::Level;
use crate::met::{Finding, Met};
use crate::next::next_part;
use crate::parts::Part;
use crate::paths::Paths;
use crate::walk::{Turned, Walk, leave};
use c_tree::{Handle, Unit};
use c_types::Types;
use node_facts::NodeFacts;
use std::alloc::{AllocError, Global};

/// What comes of a turn, and what it met.
#[derive(Drop)]
pub struct Turn {
    pub turned: Turned,
    pub met: Met,
}

// The part of a level that takes an item without designators, if one may.
fn part_for(types: &Types, level: &Level) -> Option<Part>
    requires { (paths : List (List ℕ)) × IsKnownLevel types.now paths level.now }
    ensures next { (aggregates : Aggregates) → AreMembersIn types.now aggregates → option_map (part_seen types.now) result ≡ (if level.now.is_over then None else part_from aggregates (type_seen types.now level.now.of) level.now.number) }
    ensures known { IfSome result (IsKnownPart types.now) }
{
    if level.is_over {
        return None;
    }
    next_part(types, level.parts, level.of, level.number)
}

// Out of a level without braces, behind which the next item is for a part of the level around.
fn turn_out(walk: Walk) -> Result<Turn, AllocError>
    ensures turns { (aggregates : Aggregates) (nodes : UnitNodes) (facts : List Fact) (table : TypeTable) (paths : List (List ℕ)) → All (IsKnownLevel table paths) walk.levels.items
        → turns.next_part aggregates (level_seen table paths (items_left nodes facts) walk.level) (items_left nodes facts walk.items) ≡ None → walk.level.behind ≡ None
        → IfOk result (TurnsTo aggregates nodes facts table paths paths walk) }
    ensures known { (table : TypeTable) (paths : List (List ℕ)) → All (IsKnownLevel table paths) walk.levels.items → IfOk result (IsKnownTurn table paths) }
{
    let turned = leave(
        walk.level.length,
        walk.levels,
        walk.level.is_filled,
        walk.items,
    )?;
    Ok(Turn {
        turned,
        met: Met::Nothing,
    })
}

// At the end of braces, or of the items around a level without them.
fn turn_at_end(walk: Walk) -> Result<Turn, AllocError>
    ensures turns { (aggregates : Aggregates) (nodes : UnitNodes) (facts : List Fact) (table : TypeTable) (paths : List (List ℕ)) → All (IsKnownLevel table paths) walk.levels.items
        → items_left nodes facts walk.items ≡ NoItems → IfOk result (TurnsTo aggregates nodes facts table paths paths walk) }
    ensures known { (table : TypeTable) (paths : List (List ℕ)) → All (IsKnownLevel table paths) walk.levels.items → IfOk result (IsKnownTurn table paths) }
{
    let Walk {
        level,
        levels,
        items,
    } = walk;
    let Level {
        behind,
        length,
        is_filled,
        ..
    } = level;
    match behind {
        Some(behind) => {
            let turned = leave(length, levels, true, behind)?;
            Ok(Turn {
                turned,
                met: Met::Nothing,
            })
        }
        None => {
            let turned = leave(length, levels, is_filled, items)?;
            Ok(Turn {
                turned,
                met: Met::Nothing,
            })
        }
    }
}

// An item that no part of what the braces are for takes has no place (p2).
fn turn_without_part(initializer: Handle, walk: Walk) -> Result<Turn, AllocError>
    ensures turns { (aggregates : Aggregates) (nodes : UnitNodes) (facts : List Fact) (table : TypeTable) (paths : List (List ℕ)) (is_moved : Bool) → All (IsKnownLevel table paths) walk.levels.items
        → items_left nodes facts walk.items ≡ Item [] is_moved (initializer_at nodes facts initializer) (items_behind nodes facts walk.items)
        → turns.next_part aggregates (level_seen table paths (items_left nodes facts) walk.level) (items_left nodes facts walk.items) ≡ None
        → IfOk result (TurnsTo aggregates nodes facts table paths paths walk) }
    ensures known { (table : TypeTable) (paths : List (List ℕ)) → IsKnownWalk table paths walk → IfOk result (IsKnownTurn table paths) }
{
    if walk.level.has_braces() {
        let level = walk.level.ended();
        let items = walk.items.behind();
        Ok(Turn {
            turned: Turned::Goes(Walk {
                level,
                levels: walk.levels,
                items,
            }),
            met: Met::One(Finding::Extra(initializer)),
        })
    } else {
        turn_out(walk)
    }
}

// An item without designators is for the next part of the innermost level.
fn turn_to_part(
    alloc: Global,
    unit: &Unit,
    types: &Types,
    facts: &NodeFacts,
    paths: &mut Paths,
    next: NextItem,
    walk: Walk,
) -> Result<Turn, AllocError>
    requires whole { unit.now.first ≡ 0 }
    requires order { ChildrenStandBefore (unit_list (nodes_of unit.now)) }
    requires facts { All (IsKnownNodeFact types.now) facts.now }
    requires walk { IsKnownWalk types.now paths.old walk }
    requires next { IsNext (nodes_of unit.now) (nodes_seen types.now facts.now) walk.items next }
    requires undesignated { next.is_designated ≡ false }
    ensures turns { (aggregates : Aggregates) → AreKnownIn types.now aggregates → IfOk result (TurnsTo aggregates (nodes_of unit.now) (nodes_seen types.now facts.now) types.now paths.old paths.new walk) }
    ensures known { IfOk result (IsKnownTurn types.now paths.new) }
    ensures keeps { OnOk result (IsLonger paths.old paths.new) }
{
    match part_for(types, &walk.level) {
        None => turn_without_part(next.initializer, walk),
        Some(part) => {
            let level = walk.level.at_part(part.number);
            let going = fill_part(
                alloc,
                unit,
                types,
                facts,
                paths,
                part,
                next.initializer,
                next.is_moved,
                Walk {
                    level,
                    levels: walk.levels,
                    items: walk.items,
                },
            )?;
            Ok(Turn {
                turned: Turned::Goes(going.walk),
                met: going.met,
            })
        }
    }
}

// An item with designators is for a part of what the innermost braces are for.
fn turn_by_designators(
    alloc: Global,
    unit: &Unit,
    types: &Types,
    facts: &NodeFacts,
    paths: &mut Paths,
    next: NextItem,
    walk: Walk,
) -> Result<Turn, AllocError>
    requires whole { unit.now.first ≡ 0 }
    requires order { ChildrenStandBefore (unit_list (nodes_of unit.now)) }
    requires facts { All (IsKnownNodeFact types.now) facts.now }
    requires walk { IsKnownWalk types.now paths.old walk }
    requires next { IsNext (nodes_of unit.now) (nodes_seen types.now facts.now) walk.items next }
    requires designated { next.is_designated ≡ true }
    ensures turns { (aggregates : Aggregates) → AreKnownIn types.now aggregates → IfOk result (TurnsTo aggregates (nodes_of unit.now) (nodes_seen types.now facts.now) types.now paths.old paths.new walk) }
    ensures known { IfOk result (IsKnownTurn types.now paths.new) }
    ensures keeps { OnOk result (IsLonger paths.old paths.new) }
{
    if walk.level.has_braces() {
        let going = go_by_designators(alloc, unit, types, facts, paths, next, walk)?;
        Ok(Turn {
            turned: Turned::Goes(going.walk),
            met: going.met,
        })
    } else {
        turn_out(walk)
    }
}

/// One turn of a walk: a part takes the next item, or its own first parts do, or a level is left. A refusal, which is want of memory,
/// may have added paths.
pub fn take_turn(
    alloc: Global,
    unit: &Unit,
    types: &Types,
    facts: &NodeFacts,
    paths: &mut Paths,
    walk: Walk,
) -> Result<Turn, AllocError>
    requires whole { unit.now.first ≡ 0 }
    requires order { ChildrenStandBefore (unit_list (nodes_of unit.now)) }
    requires facts { All (IsKnownNodeFact types.now) facts.now }
    requires walk { IsKnownWalk types.now paths.old walk }
    ensures turns { (aggregates : Aggregates) → AreKnownIn types.now aggregates → IfOk result (TurnsTo aggregates (nodes_of unit.now) (nodes_seen types.now facts.now) types.now paths.old paths.new walk) }
    ensures known { IfOk result (IsKnownTurn types.now paths.new) }
    ensures keeps { OnOk result (IsLonger paths.old paths.new) }
{
    match walk.items.next(unit) {
        None => turn_at_end(walk),
        Some(next) => {
            if next.is_designated {
                turn_by_designators(alloc, unit, types, facts, paths, next, walk)
            } else {
                turn_to_part(alloc, unit, types, facts, paths, next, walk)
            }
        }
    }
}
