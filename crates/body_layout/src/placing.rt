// Members of a structure, one behind the other.
ghost use Rattle.std.specs.Prelude.{◌≡◌, ◌<◌, ◌≤◌, ◌*◌, ◌^◌, All, IfOk, IfSome, IfNone, map};
ghost use Rattle.meaning_layout.specs.Layouts.{most_bytes};
ghost use Rattle.meaning_layout.specs.Placing.{bit_behind};
ghost use Rattle.body_layout.specs.Seen.{IsPlaced, Places, member_seen};

use crate::member::{MOST_BYTES, PlacedMember};
use std::alloc::{AllocError, Global};

/// How far a structure was placed.
#[derive(Drop)]
pub struct Placing {
    /// The first bit of each member.
    pub first_bits: Vec<u64>,
    /// The bit behind them.
    pub next: u64,
    /// The largest alignment that they give, in bytes.
    pub align: u64,
}

/// Places members from the first bit on, unless they go on behind the most bytes of an object.
pub fn place_members(
    alloc: Global,
    packed: bool,
    members: &[PlacedMember],
) -> Result<Option<Placing>, AllocError>
    requires { All IsPlaced members.now }
    ensures some { IfOk result (λ made. IfSome made (Places packed (map member_seen members.now))) }
    ensures none { IfOk result (λ made. IfNone made (8 * most_bytes < bit_behind packed (map member_seen members.now) 0)) }
{
    let mut placing = Placing {
        first_bits: Vec::new(alloc),
        next: 0,
        align: 1,
    };
    let mut rest = members;
    'members: while let Some((member, others)) = rest.split_first() {
        let first = member.first_bit(packed, placing.next);
        placing.first_bits.push(first)?;
        placing.next = first + member.bits();
        placing.align = placing.align.max(member.gives_align(packed));
        if placing.next > 8 * MOST_BYTES {
            return Ok(None);
        }
        rest = others;
    }
    Ok(Some(placing))
}
