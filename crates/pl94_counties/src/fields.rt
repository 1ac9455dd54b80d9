//! The fields of a line of the geographic header or of segment 1.

ghost use Rattle.std.specs.{Prelude.{◌≡◌, ◌+◌, OnSome, drop}, List.slice_get, Option.option_map};

use field_lines::Fields;

/// What stands between two fields of a line.
pub(crate) const DELIMITER: u8 = b'|';

/// Returns the field after `skipped` others, and moves `fields` behind it. `None` if there are too few fields.
pub(crate) fn field_after<'a>(fields: &mut Fields<'a>, skipped: usize) -> Option<&'a [u8]>
    ensures field { option_map (λ s. s.now) result ≡ slice_get fields.old skipped }
    ensures rest { OnSome result (fields.new ≡ drop (skipped + 1) fields.old) }
{
    fields.nth(skipped)
}
