ghost use Rattle.std.specs.Prelude.{◌≡◌, ◌++◌, OnOk, OnErr};

use itoa::{Buffer, Integer};
use std::alloc::AllocError;

/// Appends the number in decimal, with a minus if it is negative. Without memory nothing is
/// appended.
pub fn push_integer<I: Integer>(out: &mut Vec<u8>, value: I) -> Result<(), AllocError>
    ensures ok { OnOk result (out.new.items ≡ out.old.items ++ I.text value) }
    ensures err { OnErr result (out.new.items ≡ out.old.items) }
{
    let mut buffer = Buffer::new();
    out.extend_from_slice(buffer.format(value).as_bytes())
}
