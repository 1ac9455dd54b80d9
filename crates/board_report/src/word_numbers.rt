//! Numbers in the lines that are written.

ghost use Rattle.std.specs.Prelude.{◌≡◌, ◌++◌, OnOk, decimal};

use field_lines::push_number;
use std::alloc::AllocError;

/// Appends `words` and then a `number` in plain decimal.
pub fn push_words_number(out: &mut Vec<u8>, words: &[u8], number: u64) -> Result<(), AllocError>
    ensures { OnOk result (out.new.items ≡ out.old.items ++ (words.now ++ decimal number)) }
{
    out.extend_from_slice(words)?;
    push_number(out, number)
}
