// Who may be around a node: a few settings, which nodes name by their numbers. Nodes whose handles are near share a list of
// settings, so a number of two bytes does.
ghost use Rattle.std.specs.Prelude.{◌≡◌, ◌<◌, ◌/◌, ◌∷◌, [], ℕ, Some, get_or, length, replicate, slice_get, true, IfOk, OnErr};
ghost use Rattle.node_surroundings.specs.Kept.{IsLonger, lists_of};

use crate::surrounding::Around;
use c_tree::Handle;
use std::alloc::{AllocError, Global};

/// So many nodes, by their handles, share a list of settings.
const SHARING: u32 = 32_768;

/// How many settings a list may have. Fewer nodes share it, and none of them brings more than one.
const MAX_SETTINGS: usize = 65_536;

/// The number of the list whose settings a node names.
pub fn list_of(handle: Handle) -> usize
    ensures { result ≡ handle / 32768 }
{
    (handle / SHARING) as usize
}

/// So many lists, each with this setting alone.
pub fn lists_with(
    alloc: Global,
    count: usize,
    around: Around,
) -> Result<Vec<Vec<Around>>, AllocError>
    ensures { IfOk result (λ lists. lists_of lists.items ≡ replicate count (around ∷ [])) }
{
    let mut lists = Vec::new(alloc);
    for _number in 0..count {
        let list = vec![in alloc; around; 1]?;
        lists.push(list)?;
    }
    Ok(lists)
}

// Whether this setting has that number.
fn is_at(settings: &[Around], number: usize, around: Around) -> bool
    ensures { result ≡ true → slice_get settings.now number ≡ Some around }
{
    match settings.get(number) {
        Some(setting) => *setting == around,
        None => false,
    }
}

// The number of a setting: the one that is tried, or that of the last one, where it is the same, or that of a new one.
fn number_of(settings: &mut Vec<Around>, tried: u16, around: Around) -> Result<u16, AllocError>
    ensures stands { IfOk result (λ number. slice_get settings.new.items number ≡ Some around) }
    ensures grows { IsLonger settings.old.items settings.new.items }
    ensures err { OnErr result (settings.new.items ≡ settings.old.items) }
{
    if is_at(settings, tried as usize, around) {
        return Ok(tried);
    }
    let count = settings.len();
    if count >= MAX_SETTINGS {
        return Err(AllocError);
    }
    if count > 0 && is_at(settings, count - 1, around) {
        return Ok((count - 1) as u16);
    }
    settings.push(around)?;
    Ok(count as u16)
}

/// The number of a setting in a list, where this one is tried first.
pub fn number_in(
    lists: &mut Vec<Vec<Around>>,
    list: usize,
    tried: u16,
    around: Around,
) -> Result<u16, AllocError>
    requires { list < length lists.old.items }
    ensures stands { IfOk result (λ number. slice_get (get_or (lists_of lists.new.items) list []) number ≡ Some around) }
    ensures grows { (other : ℕ) → IsLonger (get_or (lists_of lists.old.items) other []) (get_or (lists_of lists.new.items) other []) }
    ensures err { OnErr result (lists_of lists.new.items ≡ lists_of lists.old.items) }
{
    number_of(&mut lists[list], tried, around)
}
