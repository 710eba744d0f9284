// Where the arguments of a call end (C11 6.10.3 p4, p10 to p12). What becomes of them isn't known here.
ghost use Rattle.std.specs.Prelude.{◌≡◌, ◌+◌, ◌-◌, ◌<◌, ◌≤◌, ◌^◌, ◌&&◌, ◌⊎◌, ℕ, suc, Some, nat_eq, nat_lt, length, slice_get, drop, IfOk, IfSome, OnOk};
ghost use Rattle.meaning_macros.specs.Signs.{is_comma, is_left_parenthesis, is_right_parenthesis};
ghost use Rattle.c_macros.specs.Stops.{AreClosings, Finds, stops_from};
ghost use Rattle.c_macros.specs.Waiting.{backwards};

use crate::item::Item;
use sparse_model::TokenKind;
use std::alloc::{AllocError, Global};

/// Notes how far each argument of a call is read, the first argument's first. So many commas part
/// arguments at most. The items behind its `(` stand on top, above the floor. False where no `)` closes
/// the call.
///
/// Each `)` that is met on the way is noted at its `(`, and no later walk goes between the two: items are
/// walked once where they stand within parentheses, and once as those of a call.
pub(crate) fn note_stops(
    alloc: Global,
    work: &[Item],
    floor: usize,
    cuts: usize,
    closings: &mut Vec<usize>,
    stops: &mut Vec<usize>,
) -> Result<bool, AllocError>
    requires count { length work.now < 2 ^ 64 }
    requires closings { AreClosings work.now closings.old.items }
    ensures stops { floor ≤ length work.now → IfOk result (λ closed. Finds stops.old.items stops.new.items closed (stops_from floor 0 cuts (backwards (drop floor work.now)))) }
    ensures closings { OnOk result (AreClosings work.now closings.new.items) }
{
    let mut openings = Vec::new(alloc);
    let mut top = work.len();
    let mut left = cuts;
    'walk: while top > floor {
        top -= 1;
        let Some(item) = item_at(work, top) else {
            return Err(AllocError);
        };
        if closes(&item) {
            let Some(opening) = openings.pop() else {
                stops.push(top + 1)?;
                return Ok(true);
            };
            note(closings, opening, top + 1)?;
            continue 'walk;
        }
        if opens(&item) {
            if let Some(closing) = closing_of(closings, top, floor) {
                top = closing;
                continue 'walk;
            }
            openings.push(top)?;
            continue 'walk;
        }
        if parts(&item, openings.len(), left) {
            stops.push(top + 1)?;
            left -= 1;
            continue 'walk;
        }
    }
    Ok(false)
}

// Notes at a `(` how far is read down to its `)`.
fn note(closings: &mut Vec<usize>, opening: usize, stop: usize) -> Result<(), AllocError>
    requires { opening < 2 ^ 64 - 1 }
    ensures { OnOk result ((i n : ℕ) → slice_get closings.new.items i ≡ Some (suc n) → (slice_get closings.old.items i ≡ Some (suc n)) ⊎ ((i ≡ opening) × (stop ≡ suc n))) }
{
    if closings.len() <= opening {
        closings.resize(opening + 1, 0)?;
    }
    closings[opening] = stop;
    Ok(())
}

// Where the `)` of a `(` stands, where that was noted. Both are above the floor.
fn closing_of(closings: &Vec<usize>, opening: usize, floor: usize) -> Option<usize>
    ensures noted { IfSome result (λ closing. slice_get closings.now.items opening ≡ Some (suc closing)) }
    ensures above { IfSome result (λ closing. floor ≤ closing) }
    ensures below { IfSome result (λ closing. closing < opening) }
{
    if opening >= closings.len() {
        return None;
    }
    let stop = closings[opening];
    if stop <= floor || stop > opening {
        return None;
    }
    Some(stop - 1)
}

fn closes(item: &Item) -> bool
    ensures { result ≡ is_right_parenthesis item.now.token.kind }
{
    item.token.kind == TokenKind::RightParenthesis
}

fn opens(item: &Item) -> bool
    ensures { result ≡ is_left_parenthesis item.now.token.kind }
{
    item.token.kind == TokenKind::LeftParenthesis
}

// It is a comma that parts two arguments, where so many parentheses are open and so many commas are left.
fn parts(item: &Item, depth: usize, left: usize) -> bool
    ensures { result ≡ (is_comma item.now.token.kind && nat_eq depth 0 && nat_lt 0 left) }
{
    item.token.kind == TokenKind::Comma && depth == 0 && left > 0
}

/// The item at this place, where there is one.
pub(crate) fn item_at(items: &[Item], index: usize) -> Option<Item>
    ensures { result ≡ slice_get items.now index }
{
    if index < items.len() {
        return Some(items[index]);
    }
    None
}
