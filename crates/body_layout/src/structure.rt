// The layout of a structure.
ghost use Rattle.std.specs.Prelude.{◌≡◌, ◌<◌, ◌≤◌, ◌^◌, All, IfOk, map};
ghost use Rattle.meaning_layout.specs.Layouts.{layout_of};
ghost use Rattle.body_layout.specs.Seen.{IsPlaced, layout_seen, structure_body};

use crate::member::{MOST_BYTES, PlacedMember};
use crate::multiple::next_multiple;
use crate::placing::{Placing, place_members};
use std::alloc::{AllocError, Global};

/// Where the members of a body lie.
#[derive(Drop)]
pub struct BodyLayout {
    /// The first bit of each member.
    pub first_bits: Vec<u64>,
    /// In bytes.
    pub size: u64,
    pub align: u64,
}

/// The layout of a structure, or none where it would have more than 2^40 bytes. `written` is the alignment in
/// bytes that is written at it, or 1.
pub fn structure_layout(
    alloc: Global,
    packed: bool,
    written: u32,
    members: &[PlacedMember],
) -> Result<Option<BodyLayout>, AllocError>
    requires members { All IsPlaced members.now }
    requires written { 0 < written }
    ensures { IfOk result (λ made. layout_seen made ≡ layout_of (structure_body packed written members.now)) }
{
    let Some(placing) = place_members(alloc, packed, members)? else {
        return Ok(None);
    };
    let Placing {
        first_bits,
        next,
        align,
    } = placing;
    let align = align.max(u64::from(written));
    let size = next_multiple(align, (next + 7) / 8);
    if size > MOST_BYTES {
        return Ok(None);
    }
    Ok(Some(BodyLayout {
        first_bits,
        size,
        align,
    }))
}
