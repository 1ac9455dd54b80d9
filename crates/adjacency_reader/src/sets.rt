//! Withdrawn sets, read from their lines: the seats of a set and the codes of its counties.

ghost use Rattle.std.specs.Prelude.{◌≡◌};
ghost use Rattle.field_lines.specs.Values.{GivesUnless, AddsUnless};
ghost use Rattle.grouping_reader.specs.{Faults.IsCodeLineMemory, declared.fault.CodeLineKind.TheVariants.Memory};
ghost use Rattle.adjacency_reader.specs.WithdrawnSets.{set_on, withdrawn_list};

use county_codes::Withdrawn;
use field_lines::Lines;
use grouping_reader::{CodeLineFault, CodeLineKind, seats_and_codes};
use std::alloc::Global;

/// The least number of seats of a withdrawn set.
const LEAST_SEATS: u16 = 1;

/// The greatest number of seats of a withdrawn set.
const GREATEST_SEATS: u16 = 1_000;

/// Returns the withdrawn set on the `line`, or the kind of the line's first fault.
fn set_in(alloc: Global, line: &[u8]) -> Result<Withdrawn, CodeLineKind>
    ensures { GivesUnless (λ k. k ≡ Memory) (λ w. w) result (set_on line.now) }
{
    let (seats, codes) = seats_and_codes(alloc, line, LEAST_SEATS, GREATEST_SEATS)?;
    Ok(Withdrawn { seats, codes })
}

/// Appends the withdrawn set on the `line` to those of the lines before.
fn add_set(alloc: Global, sets: &mut Vec<Withdrawn>, line: &[u8]) -> Result<(), CodeLineKind>
    ensures { AddsUnless (λ k. k ≡ Memory) sets.old.items (set_on line.now) result sets.new.items }
{
    let set = set_in(alloc, line)?;
    sets.push(set)?;
    Ok(())
}

/// Reads the withdrawn sets of the text `bytes`, in order. These are counties that were taken out beforehand, with
/// their seats.
///
/// The text is a cut text (`Lines` of `field_lines`), and a line is cut into fields at each pipe. Field 1 is the number
/// of seats, 1 to 1,000, and each field from the second on is a code of five digits. The format is this project's own.
///
/// Taking such counties out first is the rule of *Stephenson v. Bartlett*, 355 N.C. 354 (2002) and 357 N.C. 301 (2003),
/// on the North Carolina Constitution, art. II, secs. 2 to 5. By this rule, the districts that the Voting Rights Act
/// requires are formed before the others.
///
/// # Errors
///
/// Returns the fault of the first line that has one, and if it has several, the first kind: `TooFewFields` if the line
/// has fewer than 2 fields, then `BadSeats`, then `BadCode`. Returns `Lower` for a line that can't be read, after the
/// faults of the lines before it. `Memory` may come in the place of any answer.
pub fn read_withdrawn(alloc: Global, bytes: &[u8]) -> Result<Vec<Withdrawn>, CodeLineFault>
    ensures value { GivesUnless IsCodeLineMemory (λ v. v.items) result (withdrawn_list bytes.now) }
{
    let mut sets = Vec::new(alloc);
    let mut lines = Lines::new(bytes);
    loop {
        match lines.next_line() {
            Ok(Some((number, line))) => {
                if let Err(kind) = add_set(alloc, &mut sets, line) {
                    return Err(CodeLineFault { kind, line: number });
                }
            }
            Ok(None) => return Ok(sets),
            Err(fault) => return Err(CodeLineFault::of_cut(fault)),
        }
    }
}
