//! The rows of an adjacency file: each names a county and a neighbour.

ghost use Rattle.std.specs.Prelude.{◌≡◌};
ghost use Rattle.field_lines.specs.Values.{GivesUnless, AddsUnless};
ghost use Rattle.grouping_reader.specs.{Faults.IsCodeLineMemory, declared.fault.CodeLineKind.TheVariants.Memory};
ghost use Rattle.adjacency_reader.specs.Rows.{row_on, is_header, row_list};

use county_codes::CountyCode;
use field_lines::{Lines, field_at, five_digits};
use grouping_reader::{CodeLineFault, CodeLineKind, DELIMITER, code_in};
use std::alloc::Global;

/// Returns the county and its neighbour on the `line`, or the first kind of fault that the line has.
#[tactic(auto, unfolding(crate::specs::Rows::row_on))]
fn row_in(line: &[u8]) -> Result<(CountyCode, CountyCode), CodeLineKind>
    ensures { result ≡ row_on line.now }
{
    let (Some(county), Some(neighbour)) = (
        field_at(line, DELIMITER, 1),
        field_at(line, DELIMITER, 3),
    ) else {
        return Err(CodeLineKind::TooFewFields);
    };
    let (Some(county), Some(neighbour)) = (code_in(county), code_in(neighbour)) else {
        return Err(CodeLineKind::BadCode);
    };
    Ok((county, neighbour))
}

/// Returns whether the second field of the `line` is missing or isn't five digits.
fn is_header(line: &[u8]) -> bool
    ensures { result ≡ is_header line.now }
{
    match field_at(line, DELIMITER, 1) {
        Some(field) => five_digits(field).is_none(),
        None => true,
    }
}

/// Appends the row on the `line` to those of the lines before.
fn add_row(rows: &mut Vec<(CountyCode, CountyCode)>, line: &[u8]) -> Result<(), CodeLineKind>
    ensures { AddsUnless (λ k. k ≡ Memory) rows.old.items (row_on line.now) result rows.new.items }
{
    let row = row_in(line)?;
    rows.push(row)?;
    Ok(())
}

/// Reads the rows of the adjacency file `bytes` in their order, each with its county before its neighbour. A header is
/// dropped. Returns the fault of the first line that has one. `Memory` may come in the place of any answer.
pub(crate) fn read_rows(
    alloc: Global,
    bytes: &[u8],
) -> Result<Vec<(CountyCode, CountyCode)>, CodeLineFault>
    ensures { GivesUnless IsCodeLineMemory (λ v. v.items) result (row_list bytes.now) }
{
    let mut rows = Vec::new(alloc);
    let mut lines = Lines::new(bytes);
    let mut at_first = true;
    loop {
        match lines.next_line() {
            Ok(Some((_, line))) if at_first && is_header(line) => {}
            Ok(Some((number, line))) => {
                if let Err(kind) = add_row(&mut rows, line) {
                    return Err(CodeLineFault { kind, line: number });
                }
            }
            Ok(None) => return Ok(rows),
            Err(fault) => return Err(CodeLineFault::of_cut(fault)),
        }
        at_first = false;
    }
}
