// The size and the alignment of a union.
ghost use Rattle.std.specs.Prelude.{◌≡◌, ◌<◌, ◌≤◌, ◌^◌, All, map};
ghost use Rattle.meaning_layout.specs.Layouts.{layout_of};
ghost use Rattle.body_layout.specs.Seen.{IsPlaced, union_body, union_seen};

use crate::member::{MOST_BYTES, PlacedMember};
use crate::multiple::next_multiple;

/// A size and an alignment, in bytes.
#[derive(Clone, Copy)]
pub struct Extent {
    pub size: u64,
    pub align: u64,
}

/// The size and the alignment of a union, all of whose members begin with the first bit, or none where it would
/// have more than 2^40 bytes. `written` is the alignment in bytes that is written at it, or 1.
pub fn union_extent(packed: bool, written: u32, members: &[PlacedMember]) -> Option<Extent>
    requires members { All IsPlaced members.now }
    requires written { 0 < written }
    ensures { union_seen (map (λ member. 0) members.now) result ≡ layout_of (union_body packed written members.now) }
{
    let mut bits = 0;
    let mut align = 1;
    let mut rest = members;
    'members: while let Some((member, others)) = rest.split_first() {
        bits = member.bits().max(bits);
        align = member.gives_align(packed).max(align);
        rest = others;
    }
    let align = align.max(u64::from(written));
    let size = next_multiple(align, (bits + 7) / 8);
    if size > MOST_BYTES {
        return None;
    }
    Some(Extent { size, align })
}
