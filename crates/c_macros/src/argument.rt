// An argument before it is expanded. What it becomes isn't known here.
ghost use Rattle.std.specs.Prelude.{◌≡◌, ◌≤◌, ◌++◌, ℕ, List, All, length, OnOk};
ghost use Rattle.number_sets.specs.NumberSets.{Table};
ghost use Rattle.c_macros.specs.Argument.{if_asked};
ghost use Rattle.c_macros.specs.Run.{IsKnownItem};
ghost use Rattle.c_macros.specs.Stops.{AreClosings};
ghost use Rattle.c_macros.specs.Waiting.{backwards};
ghost use Rattle.c_macros.specs.declared.item.Item.{Item};

use crate::item::Item;
use crate::operand::ParameterUse;
use std::alloc::AllocError;

/// Keeps an argument as it was written, where the body asks for it so, and drops it where the body
/// doesn't ask for it expanded. It stands on top of what is read, above the floor.
pub(crate) fn begin_argument(
    work: &mut Vec<Item>,
    floor: usize,
    raw: &mut Vec<Item>,
    taken: ParameterUse,
) -> Result<(), AllocError>
    ensures work { (below now : List Item) → work.old.items ≡ below ++ backwards now → floor ≡ length below → OnOk result (work.new.items ≡ below ++ backwards (if_asked taken.apart now)) }
    ensures raw { (below now : List Item) → work.old.items ≡ below ++ backwards now → floor ≡ length below → OnOk result (raw.new.items ≡ raw.old.items ++ if_asked taken.raw now) }
    ensures count { OnOk result (length work.new.items ≤ length work.old.items) }
    ensures closings { (closings : List ℕ) → AreClosings work.old.items closings → OnOk result (AreClosings work.new.items closings) }
    ensures known_work { (names : List (List ℕ)) (table : Table) → All (IsKnownItem names table) work.old.items → OnOk result (All (IsKnownItem names table) work.new.items) }
    ensures known_raw { (names : List (List ℕ)) (table : Table) → All (IsKnownItem names table) work.old.items → All (IsKnownItem names table) raw.old.items → OnOk result (All (IsKnownItem names table) raw.new.items) }
{
    if taken.raw {
        keep(work, floor, raw)?;
    }
    if !taken.apart {
        work.truncate(floor);
    }
    Ok(())
}

// The items above the floor behind the others, the top first.
fn keep(work: &Vec<Item>, floor: usize, raw: &mut Vec<Item>) -> Result<(), AllocError>
    ensures raw { (below now : List Item) → work.now.items ≡ below ++ backwards now → floor ≡ length below → OnOk result (raw.new.items ≡ raw.old.items ++ now) }
    ensures known { (names : List (List ℕ)) (table : Table) → All (IsKnownItem names table) work.now.items → All (IsKnownItem names table) raw.old.items → OnOk result (All (IsKnownItem names table) raw.new.items) }
{
    let mut rest = work.as_slice();
    while rest.len() > floor {
        let Some((item, below)) = rest.split_last() else {
            return Ok(());
        };
        raw.push(*item)?;
        rest = below;
    }
    Ok(())
}
