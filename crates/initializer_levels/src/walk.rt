// A walk over the items of an initializer, as it is kept: the innermost level, those around it, and the items that are left.
ghost use Rattle.std.specs.Prelude.{◌≡◌, ℕ, All, IfOk, List};
ghost use Rattle.meaning_initializers.specs.Items.{Items};
ghost use Rattle.c_types.specs.Table.{TypeTable};
ghost use Rattle.initializer_levels.specs.Kept.{IsKnownLevel, level_seen};
ghost use Rattle.initializer_levels.specs.Turns as meaning;
ghost use Rattle.initializer_levels.specs.Walks.{IsKnownTurned, IsKnownWalk, inner_walk, left_behind, levels_seen, turned_seen, walk_seen};

use crate::items::ItemList;
use crate::level::Level;
use std::alloc::AllocError;

/// A walk that isn't over.
#[derive(Drop)]
pub struct Walk {
    /// The innermost one.
    pub level: Level,
    /// Those around it, from the outermost on.
    pub levels: Vec<Level>,
    /// What is left in the innermost braces.
    pub items: ItemList,
}

/// What comes of a turn.
#[derive(Drop)]
pub enum Turned {
    Goes(Walk),
    /// The walk is over, and an array that has no length gets this one.
    Done(u64),
}

// Behind a level of this length, which took an item or didn't. The whole object stands in no level.
pub fn leave(
    length: u64,
    levels: Vec<Level>,
    is_filled: bool,
    items: ItemList,
) -> Result<Turned, AllocError>
    ensures turned { (table : TypeTable) (paths : List (List ℕ)) (read : ItemList → Items) (found : meaning.Found) → All (IsKnownLevel table paths) levels.items
        → IfOk result (λ turned. turned_seen table paths read found turned ≡ left_behind found length is_filled (levels_seen table paths read levels.items) (read items)) }
    ensures known { (table : TypeTable) (paths : List (List ℕ)) → All (IsKnownLevel table paths) levels.items → IfOk result (IsKnownTurned table paths) }
{
    let mut levels = levels;
    match levels.pop() {
        None => Ok(Turned::Done(length)),
        Some(outer) => {
            let level = outer.behind_part(is_filled)?;
            Ok(Turned::Goes(Walk {
                level,
                levels,
                items,
            }))
        }
    }
}

// Into a part of the innermost level.
#[tactic(auto, using(crate::proofs::WalkLemmas::levels_pushed, crate::proofs::WalkLemmas::levels_known_more))]
pub fn descend(
    inner: Level,
    level: Level,
    levels: Vec<Level>,
    items: ItemList,
) -> Result<Walk, AllocError>
    ensures walk { (table : TypeTable) (paths : List (List ℕ)) (read : ItemList → Items) (found : meaning.Found)
        → IfOk result (λ walk. walk_seen table paths read found walk ≡ inner_walk found (level_seen table paths read inner) (level_seen table paths read level) (levels_seen table paths read levels.items) (read items)) }
    ensures items { IfOk result (λ walk. walk.items ≡ items) }
    ensures known { (table : TypeTable) (paths : List (List ℕ)) → IsKnownLevel table paths inner → IsKnownLevel table paths level → All (IsKnownLevel table paths) levels.items
        → IfOk result (IsKnownWalk table paths) }
{
    let mut levels = levels;
    levels.push(level)?;
    Ok(Walk {
        level: inner,
        levels,
        items,
    })
}
