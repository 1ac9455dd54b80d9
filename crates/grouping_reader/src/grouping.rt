//! Groupings, read from their lines.

ghost use Rattle.std.specs.Prelude.{◌≡◌};
ghost use Rattle.field_lines.specs.Values.{GivesUnless, AddsUnless};
ghost use Rattle.grouping_reader.specs.{Faults.IsCodeLineMemory, GroupingLines.{group_on, grouping_list}};
ghost use Rattle.grouping_reader.specs.declared.fault.CodeLineKind.TheVariants.{Memory};

use crate::fault::{CodeLineFault, CodeLineKind};
use crate::seats::seats_and_codes;
use county_codes::{Group, Grouping};
use field_lines::Lines;
use std::alloc::Global;

/// Reads the group on a `line`.
fn group_in(alloc: Global, line: &[u8]) -> Result<Group, CodeLineKind>
    ensures { GivesUnless (λ k. k ≡ Memory) (λ s. s) result (group_on line.now) }
{
    let (seats, codes) = seats_and_codes(alloc, line, 0, u16::MAX)?;
    Ok(Group { seats, codes })
}

/// Reads the group on a `line`, and appends it to `groups`.
fn add_group(alloc: Global, groups: &mut Vec<Group>, line: &[u8]) -> Result<(), CodeLineKind>
    ensures { AddsUnless (λ k. k ≡ Memory) groups.old.items (group_on line.now) result groups.new.items }
{
    let group = group_in(alloc, line)?;
    groups.push(group)?;
    Ok(())
}

/// Reads the grouping of the text `bytes`, with its groups in the order of the lines. The text is a cut text (`Lines`
/// of `field_lines`), and a line is cut into fields at each pipe. Field 1 is the number of seats, 0 to 65,535. Each
/// field from the second on is a code of five digits. A text without lines gives no groups.
///
/// # Errors
///
/// Returns the fault of the first line at fault. Of several kinds on that line the first is told: `TooFewFields` if it
/// has fewer than 2 fields, then `BadSeats`, then `BadCode`. A line that can't be read (`Lower`) is told after the
/// faults of the lines before it. `Memory` may come in the place of any answer if memory was refused.
pub fn read_grouping(alloc: Global, bytes: &[u8]) -> Result<Grouping, CodeLineFault>
    ensures { GivesUnless IsCodeLineMemory (λ g. g.groups.items) result (grouping_list bytes.now) }
{
    let mut groups = Vec::new(alloc);
    let mut lines = Lines::new(bytes);
    loop {
        match lines.next_line() {
            Ok(Some((number, line))) => {
                if let Err(kind) = add_group(alloc, &mut groups, line) {
                    return Err(CodeLineFault { kind, line: number });
                }
            }
            Ok(None) => return Ok(Grouping { groups }),
            Err(fault) => return Err(CodeLineFault::of_cut(fault)),
        }
    }
}
