// A substituted body goes back to what is read. How it was made isn't known here.
ghost use Rattle.std.specs.Prelude.{◌≡◌, ◌+◌, ◌≤◌, ◌<◌, ◌++◌, ◌∷◌, ℕ, List, [], length, take, drop, map, All, OnOk};
ghost use Rattle.number_sets.specs.NumberSets.{Extends, IsSet, Table};
ghost use Rattle.c_macros.specs.Laid.{LaidItems, Lays, ends_of, items_of};
ghost use Rattle.c_macros.specs.Lay.{PutOn, LaidOn, with_space};
ghost use Rattle.c_macros.specs.Reading.{HasSet};
ghost use Rattle.c_macros.specs.Run.{IsKnownItem};
ghost use Rattle.c_macros.specs.Stops.{KeepsBelow};
ghost use Rattle.c_macros.specs.Waiting.{backwards};
ghost use Rattle.c_macros.specs.declared.item.Item.{Item};

use crate::item::Item;
use crate::laid::{Laid, LaidEnd};
use number_sets::{NumberSets, SetId};
use std::alloc::AllocError;

/// Puts the parts of a body on what is read, each token with these names hidden too. White space before a
/// part goes to the next token above the floor.
pub(crate) fn lay(
    work: &mut Vec<Item>,
    floor: usize,
    sets: &mut NumberSets,
    hides: SetId,
    laid: &mut Laid,
) -> Result<(), AllocError>
    requires hides { IsSet sets.old hides }
    requires items { All (HasSet sets.old) laid.old.items.items }
    ensures lays { (parts : List LaidItems) → Lays laid.old parts → (below now : List Item) → work.old.items ≡ below ++ backwards now → floor ≡ length below →
        OnOk result (LaidOn sets.new hides parts below now work.new.items) }
    ensures count { (parts : List LaidItems) → Lays laid.old parts → (below now : List Item) → work.old.items ≡ below ++ backwards now → floor ≡ length below →
        OnOk result (length work.new.items ≡ length work.old.items + length laid.old.items.items) }
    ensures below { OnOk result (KeepsBelow work.old.items work.new.items) }
    ensures known { (names : List (List ℕ)) → All (IsKnownItem names sets.old) laid.old.items.items → All (IsKnownItem names sets.old) work.old.items → OnOk result (All (IsKnownItem names sets.new) work.new.items) }
    ensures sets { Extends sets.old sets.new }
{
    while let Some(part) = laid.ends.pop() {
        let first = end_of(&laid.ends);
        put_part(work, sets, hides, &mut laid.items, first)?;
        put_space(work, floor, part.space);
    }
    Ok(())
}

// Where the last of the parts ends.
fn end_of(ends: &Vec<LaidEnd>) -> usize
    ensures { (parts : List LaidItems) → ends.now.items ≡ ends_of parts → result ≡ length (items_of parts) }
{
    match ends.last() {
        Some(part) => part.end,
        None => 0,
    }
}

// The tokens from the first on, with these names hidden too.
fn put_part(
    work: &mut Vec<Item>,
    sets: &mut NumberSets,
    hides: SetId,
    items: &mut Vec<Item>,
    first: usize,
) -> Result<(), AllocError>
    requires hides { IsSet sets.old hides }
    requires items { All (HasSet sets.old) items.old.items }
    ensures put { (before part : List Item) → items.old.items ≡ before ++ part → first ≡ length before → OnOk result ((items.new.items ≡ before) × PutOn sets.new hides part work.old.items work.new.items) }
    ensures below { OnOk result (KeepsBelow work.old.items work.new.items) }
    ensures rest { OnOk result (All (HasSet sets.new) items.new.items) }
    ensures count { OnOk result (length work.new.items + length items.new.items ≡ length work.old.items + length items.old.items) }
    ensures known { (names : List (List ℕ)) → All (IsKnownItem names sets.old) items.old.items → All (IsKnownItem names sets.old) work.old.items → OnOk result (All (IsKnownItem names sets.new) work.new.items × All (IsKnownItem names sets.new) items.new.items) }
    ensures sets { Extends sets.old sets.new }
{
    while items.len() > first {
        let Some(item) = items.pop() else {
            return Ok(());
        };
        let hidden = sets.union(item.hides, hides)?;
        work.push(Item {
            token: item.token,
            hides: hidden,
        })?;
    }
    Ok(())
}

/// White space goes before the next token above the floor.
pub(crate) fn put_space(work: &mut Vec<Item>, floor: usize, space: bool)
    ensures stand { (below now : List Item) → work.old.items ≡ below ++ backwards now → floor ≡ length below → work.new.items ≡ below ++ backwards (with_space space now) }
    ensures below { KeepsBelow work.old.items work.new.items }
    ensures count { length work.new.items ≡ length work.old.items }
    ensures known { (names : List (List ℕ)) (table : Table) → All (IsKnownItem names table) work.old.items → All (IsKnownItem names table) work.new.items }
{
    let count = work.len();
    if space && count > floor {
        work[count - 1].token.space_before = true;
    }
}
