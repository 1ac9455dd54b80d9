//! Writing of the lines in front of a tree, with their values as they stand.

ghost use Rattle.std.specs.Prelude.{◌≡◌, ◌≤◌, ◌++◌, OnOk};
ghost use Rattle.certificate_lines.specs.{Fitting.IsSet, Spelling.item_line, Writing.WritesLine};
ghost use Rattle.certificate_lines.specs.declared.item.Item.TheVariants as item;

use crate::fault::WriteFault;
use crate::fitting::group_fits;
use crate::item::Version;
use crate::lines::{PLAIN_HEAD_ONE, PLAIN_HEAD_TWO, WIDE_HEAD_ONE, WIDE_HEAD_TWO};
use crate::writing_words::{
    push_codes_line, push_count_line, push_number_and_codes_line, push_number_line,
    push_two_numbers_line,
};
use certificate_data::Format;
use county_codes::{CountyCode, Group, Tolerance};
use std::alloc::AllocError;

/// Appends the head that names the `format` and the `version`.
pub fn push_head(out: &mut Vec<u8>, format: Format, version: Version) -> Result<(), AllocError>
    ensures { OnOk result (out.new.items ≡ out.old.items ++ item_line (item.Head format version)) }
{
    out.extend_from_slice(match (format, version) {
        (Format::Plain, Version::One) => PLAIN_HEAD_ONE,
        (Format::Wide, Version::One) => WIDE_HEAD_ONE,
        (Format::Plain, Version::Two) => PLAIN_HEAD_TWO,
        (Format::Wide, Version::Two) => WIDE_HEAD_TWO,
    })?;
    out.extend_from_slice(b"\n")
}

/// Appends the line that names `tolerance`: `window`, its numerator and its denominator.
pub fn push_tolerance(out: &mut Vec<u8>, tolerance: Tolerance) -> Result<(), AllocError>
    ensures { OnOk result (out.new.items ≡ out.old.items ++ item_line (item.Within tolerance)) }
{
    push_two_numbers_line(
        out,
        b"window ",
        u32::from(tolerance.numerator),
        u32::from(tolerance.denominator),
    )
}

/// Appends the line of the `order`.
pub fn push_order(out: &mut Vec<u8>, order: &[CountyCode]) -> Result<(), AllocError>
    ensures { OnOk result (out.new.items ≡ out.old.items ++ item_line (item.Order order.now)) }
{
    push_codes_line(out, b"order", order)
}

/// Appends the line of the `limit`.
pub fn push_limit(out: &mut Vec<u8>, limit: u16) -> Result<(), AllocError>
    ensures { OnOk result (out.new.items ≡ out.old.items ++ item_line (item.Limit limit)) }
{
    push_number_line(out, b"limit ", u32::from(limit))
}

/// Appends the line that says how many `groups` the target has, or that there is no target.
pub fn push_target_line(out: &mut Vec<u8>, groups: Option<usize>) -> Result<(), AllocError>
    ensures { OnOk result (out.new.items ≡ out.old.items ++ item_line (item.Target groups)) }
{
    match groups {
        Some(count) => push_count_line(out, b"target ", count),
        None => out.extend_from_slice(b"target none\n"),
    }
}

/// Appends the line of a `group` of the target, whatever its numbers are.
pub fn push_group_line(out: &mut Vec<u8>, group: &Group) -> Result<(), AllocError>
    ensures { OnOk result (out.new.items ≡ out.old.items ++ item_line (item.Grouped group.now)) }
{
    push_number_and_codes_line(out, b"group ", group.seats, group.codes.as_slice())
}

/// Appends the line of a `group` of the target.
///
/// # Errors
///
/// Returns `NoSpelling` if no line spells the group, and `Memory` if memory was refused.
pub fn push_group(out: &mut Vec<u8>, group: &Group) -> Result<(), WriteFault>
    ensures { WritesLine ((group.now.seats ≤ 65535)
        × IsSet group.now.codes) (item.Grouped group.now) out.old.items result out.new.items }
{
    if !group_fits(group) {
        return Err(WriteFault::NoSpelling);
    }
    push_group_line(out, group)?;
    Ok(())
}
