// A handle and its tag in one number.
ghost use Rattle.std.specs.Prelude.{◌≡◌, ◌^◌, ◌<◌};
ghost use Rattle.tag_list.specs.Tagged.{IsTagged};

use std::marker::Model;

/// A place in a region: a number below 2^30.
pub type Handle = u32;

// How many tags there are.
const TAGS: u32 = 4;

// The tag is in the two low bits, the handle in the 30 bits above them.
#[derive(Clone, Copy)]
pub struct Tagged {
    bits: u32,
}

impl Model for Tagged {
    ghost use Rattle.std.specs.Prelude.{ℕ, ◌+◌, ◌*◌, ◌/◌, ◌%◌};

    ghost Value = { ℕ × ℕ };

    ghost view = { λ entry. (entry.bits / 4, entry.bits % 4) };

    ghost inverse = { λ entry. record { bits = entry.0 * 4 + entry.1 } };
}

// What fills the places of a link that aren't used.
impl Default for Tagged {
    fn default() -> Tagged {
        Tagged { bits: 0 }
    }
}

impl Tagged {
    pub fn pack(handle: Handle, tag: u8) -> Tagged
        requires handle { handle < 2 ^ 30 }
        requires tag { tag < 4 }
        ensures { result ≡ (handle, tag) }
    {
        Tagged {
            bits: handle * TAGS + u32::from(tag),
        }
    }

    pub fn unpack(self) -> (Handle, u8)
        ensures value { result ≡ self }
        ensures tagged { IsTagged result }
    {
        (self.bits / TAGS, (self.bits % TAGS) as u8)
    }
}
