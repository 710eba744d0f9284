// The call behind a function-like macro's name (C11 6.10.3 p4, p10 to p12). What becomes of it isn't known here.
ghost use Rattle.std.specs.Prelude.{◌≡◌, ◌+◌, ◌≤◌, ◌++◌, ◌∷◌, List, All, length, IfOk, OnOk, option_map, slice_get};
ghost use Rattle.meaning_macros.specs.Calls.{matched, most_cuts};
ghost use Rattle.meaning_macros.specs.Hiding.{Hiding};
ghost use Rattle.number_sets.specs.NumberSets.{Table};
ghost use Rattle.c_macros.specs.Calls.{HasClosing, ReadsCall, fitted, is_nil};
ghost use Rattle.c_macros.specs.Reading.{HasSet};
ghost use Rattle.c_macros.specs.Stops.{AreClosings};
ghost use Rattle.c_macros.specs.Seen.{Spelling, macro_by};
ghost use Rattle.c_macros.specs.Waiting.{backwards};
ghost use Rattle.c_macros.specs.declared.item.Item.{Item};

use crate::definition::Macro;
use crate::item::Item;
use crate::stops::{item_at, note_stops};
use std::alloc::{AllocError, Global};

/// What stands behind the `(` of a call.
#[derive(Clone, Copy)]
pub(crate) enum CallRead {
    /// No `)` ends it.
    Open,
    /// Its arguments aren't as many as the parameters.
    Wrong,
    /// They are: whether the variable one isn't there, and the `)`.
    Fits { absent: bool, closing: Item },
}

/// Notes how far the arguments of a call are read. The items behind its `(` stand on top, above the floor.
pub(crate) fn read_call(
    alloc: Global,
    work: &[Item],
    floor: usize,
    m: &Macro,
    closings: &mut Vec<usize>,
    stops: &mut Vec<usize>,
) -> Result<CallRead, AllocError>
    requires above { floor ≤ length work.now }
    requires closings { AreClosings work.now closings.old.items }
    ensures read { (below now : List Item) → work.now ≡ below ++ backwards now → floor ≡ length below → IfOk result (ReadsCall m.now below now stops.old.items stops.new.items) }
    ensures closings { OnOk result (AreClosings work.now closings.new.items) }
    ensures closing { (table : Table) → All (HasSet table) work.now → IfOk result (HasClosing table) }
{
    let before = stops.len();
    if !note_stops(alloc, work, floor, cuts_of(m), closings, stops)? {
        return Ok(CallRead::Open);
    }
    let noted = stops.as_slice();
    let Some(first) = number_at(noted, before) else {
        return Err(AllocError);
    };
    let Some(last) = noted.last().copied() else {
        return Err(AllocError);
    };
    let found = noted.len() - before;
    if last == 0 {
        return Err(AllocError);
    }
    let Some(closing) = item_at(work, last - 1) else {
        return Err(AllocError);
    };
    match fits(m, found, first == work.len()) {
        Some(absent) => Ok(CallRead::Fits { absent, closing }),
        None => Ok(CallRead::Wrong),
    }
}

// How many commas may part arguments.
fn cuts_of(m: &Macro) -> usize
    ensures { (s : Spelling) → result ≡ most_cuts (macro_by s m.now) }
{
    let count = m.parameters().len();
    if m.variadic {
        return count.saturating_sub(1);
    }
    count
}

// Whether the variable argument isn't there, where so many arguments are right, of which the first has no token.
fn fits(m: &Macro, found: usize, is_empty: bool) -> Option<bool>
    ensures { (s : Spelling) (first : List Hiding) (later : List (List Hiding)) → found ≡ length later + 1 → is_empty ≡ is_nil first → matched (macro_by s m.now) (first ∷ later) ≡ option_map (fitted (macro_by s m.now) first later) result }
{
    let count = m.parameters().len();
    if count == 0 {
        if found == 1 && is_empty {
            return Some(false);
        }
        return None;
    }
    if found == count {
        return Some(false);
    }
    if m.variadic && found == count - 1 {
        return Some(true);
    }
    None
}

/// The number at this place, where there is one.
pub(crate) fn number_at(numbers: &[usize], index: usize) -> Option<usize>
    ensures { result ≡ slice_get numbers.now index }
{
    if index < numbers.len() {
        return Some(numbers[index]);
    }
    None
}
