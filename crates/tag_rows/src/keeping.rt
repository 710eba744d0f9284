// What is kept of each number in a map: of values the first, of tokens the least. What the numbers are isn't known here.
ghost use Rattle.std.specs.Prelude.{◌≡◌, ℕ, Some, None, OnOk, nat_eq, if◌then◌else◌};
ghost use Rattle.std.specs.Option.{option_or};
ghost use Rattle.indexmap.specs.IndexMap.{get};
ghost use Rattle.tag_rows.specs.Kept.{least_of};

use indexmap::IndexMap;
use std::alloc::AllocError;

/// Keeps a value by a number, unless there is one.
pub fn keep_first<V: Drop>(
    kept: &mut IndexMap<u64, V>,
    number: u64,
    value: V,
) -> Result<(), AllocError>
    ensures { OnOk result ((other : ℕ) → get nat_eq kept.new other ≡ option_or (get nat_eq kept.old other) (if nat_eq number other then Some value else None)) }
{
    if kept.contains_key(&number) {
        return Ok(());
    }
    kept.insert(number, value)?;
    Ok(())
}

/// Keeps a token by a number, unless there is a lower one.
pub fn keep_least(kept: &mut IndexMap<u64, u32>, number: u64, token: u32) -> Result<(), AllocError>
    ensures { OnOk result ((other : ℕ) → get nat_eq kept.new other ≡ least_of (get nat_eq kept.old other) (if nat_eq number other then Some token else None)) }
{
    let least = match kept.get(&number) {
        Some(before) => token.min(*before),
        None => token,
    };
    kept.insert(number, least)?;
    Ok(())
}
