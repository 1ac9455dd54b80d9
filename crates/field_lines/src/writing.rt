//! Writing numbers in decimal, and their lengths.

ghost use Rattle.std.specs.Prelude.{◌≡◌, ◌≤◌, ◌++◌, OnOk, decimal, length};

use itoa::Buffer;
use std::alloc::AllocError;

/// Appends a `number` to `out` in plain decimal. Returns an error only if memory was refused.
pub fn push_number(out: &mut Vec<u8>, number: u64) -> Result<(), AllocError>
    ensures { OnOk result (out.new.items ≡ out.old.items ++ decimal number) }
{
    let mut buffer = Buffer::new();
    out.extend_from_slice(buffer.format(number).as_bytes())
}

/// Returns how many digits a `number` has in plain decimal, at most 20.
pub fn decimal_length(number: u64) -> usize
    ensures value { result ≡ length (decimal number) }
    ensures small { result ≤ 20 }
{
    let mut buffer = Buffer::new();
    buffer.format(number).len()
}
