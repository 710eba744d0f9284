// The front of a text: up to a byte, and up to a block.
ghost use Rattle.std.specs.Prelude.{◌≡◌, ◌≤◌, ◌-◌, length};
ghost use Rattle.flows.specs.Lines.{before_byte, behind_byte, from_block};

use crate::number::behind_spaces;
use memchr::memchr;

/// What stands before the first byte that is this one, and what stands behind it; all and nothing, where none is.
pub(crate) fn split_at_byte(text: &[u8], mark: u8) -> (&[u8], &[u8])
    ensures before { result.0.now ≡ before_byte mark text.now }
    ensures behind { result.1.now ≡ behind_byte mark text.now }
    ensures within { length result.0.now ≤ length text.now }
    ensures shorter { length result.1.now ≤ length text.now - 1 }
{
    match memchr(mark, text) {
        Some(end) => (&text[..end], &text[end + 1..]),
        None => (text, &[]),
    }
}

/// The text from the block of this number on, which stands behind as many `|`.
pub(crate) fn from_block(text: &[u8], number: usize) -> &[u8]
    ensures { result.now ≡ from_block number text.now }
{
    let mut left = number;
    let mut rest = text;
    'bars: while left > 0 {
        rest = split_at_byte(rest, b'|').1;
        left -= 1;
    }
    behind_spaces(rest)
}
