// Numbers in decimal, behind a mark.
ghost use Rattle.std.specs.Prelude.{◌≡◌, ◌++◌, OnOk};
ghost use Rattle.std.specs.Fmt.{decimal, signed_decimal};
ghost use Rattle.control_flow.specs.Shown.{shown_change};

use itoa::Buffer;
use std::alloc::AllocError;

/// Appends a number behind this text.
pub fn push_number(text: &mut Vec<u8>, front: &[u8], number: u64) -> Result<(), AllocError>
    ensures { OnOk result (text.new.items ≡ text.old.items ++ front.now ++ decimal number) }
{
    let mut buffer = Buffer::new();
    text.extend_from_slice(front)?;
    text.extend_from_slice(buffer.format(number).as_bytes())
}

/// Appends a count behind this text, with a sign where it is below 0.
pub fn push_count(text: &mut Vec<u8>, front: &[u8], count: i64) -> Result<(), AllocError>
    ensures { OnOk result (text.new.items ≡ text.old.items ++ front.now ++ signed_decimal count) }
{
    let mut buffer = Buffer::new();
    text.extend_from_slice(front)?;
    text.extend_from_slice(buffer.format(count).as_bytes())
}

/// Appends by how much a count changes, always with a sign.
pub fn push_change(text: &mut Vec<u8>, by: i64) -> Result<(), AllocError>
    ensures { OnOk result (text.new.items ≡ text.old.items ++ shown_change by) }
{
    if by < 0 {
        push_count(text, b"", by)
    } else {
        push_count(text, b"+", by)
    }
}
