//! The assignments of a block assignment file, read from its lines: a census block and the label of its district.

ghost use Rattle.std.specs.Prelude.{◌≡◌, ◌≤◌, IfOk, OnOk, vec_len};
ghost use Rattle.field_lines.specs.Values.{GivesUnless};
ghost use Rattle.baf_auditor.specs.Assignments.{IsAssignmentMemory, AddsUnlessMemory, has_pipe, delimiter_of, is_assignment_header, assignment_on, rows_after, assignment_list};
ghost use Rattle.baf_auditor.specs.declared.fault.AssignmentKind.TheVariants.{Memory};

use crate::fault::{AssignmentFault, AssignmentKind};
use crate::label::Label;
use field_lines::{Lines, field_at, fifteen_digits};
use std::alloc::Global;

/// The most assignments that there may be.
const MOST: usize = 4_000_000;

/// The district that a file gives to a census block.
#[derive(Debug, Drop)]
pub struct Assignment {
    /// The fifteen digits of the block's GEOCODE as a number.
    pub block: u64,
    /// The label of the district.
    pub label: Label,
}

/// Returns whether `line` has a pipe.
fn has_pipe(line: &[u8]) -> bool
    ensures { result ≡ has_pipe line.now }
{
    line.iter().any(|b| *b == b'|')
}

/// Returns what stands between two fields if `line` is the first line: a pipe if it has one, else a comma.
fn delimiter_in(line: &[u8]) -> u8
    ensures { result ≡ delimiter_of line.now }
{
    if has_pipe(line) { b'|' } else { b',' }
}

/// Returns whether the first field of `line` isn't fifteen digits.
fn is_header(delimiter: u8, line: &[u8]) -> bool
    ensures { result ≡ is_assignment_header delimiter line.now }
{
    match field_at(line, delimiter, 0) {
        Some(field) => fifteen_digits(field).is_none(),
        None => true,
    }
}

/// Returns the assignment on `line`.
///
/// # Errors
///
/// Returns `TooFewFields` if `line` has fewer than two fields, then `BadCode`, and then `BadLabel`. Returns `Memory` if
/// memory was refused.
#[tactic(auto, unfolding(crate::specs::Assignments::assignment_on))]
fn assignment_in(alloc: Global, delimiter: u8, line: &[u8]) -> Result<Assignment, AssignmentKind>
    ensures { GivesUnless (λ k. k ≡ Memory) (λ a. a) result (assignment_on delimiter line.now) }
{
    let block = field_at(line, delimiter, 0).ok_or(AssignmentKind::TooFewFields)?;
    let label = field_at(line, delimiter, 1).ok_or(AssignmentKind::TooFewFields)?;
    let block = fifteen_digits(block).ok_or(AssignmentKind::BadCode)?;
    let label = Label::new(alloc, label).map_err(|_| AssignmentKind::Memory)?;
    let label = label.ok_or(AssignmentKind::BadLabel)?;
    Ok(Assignment { block, label })
}

/// Appends the assignment on `line` to the `assignments` of the lines before.
///
/// # Errors
///
/// Returns the first fault of `line`. Returns `TooMany` if there are 4,000,000 assignments before, and `Memory` if
/// memory was refused.
fn add_assignment(
    alloc: Global,
    assignments: &mut Vec<Assignment>,
    delimiter: u8,
    line: &[u8],
) -> Result<(), AssignmentKind>
    ensures value { AddsUnlessMemory assignments.old.items (assignment_on delimiter line.now) result assignments.new.items }
    ensures few { OnOk result (vec_len assignments.new ≤ 4000000) }
{
    let assignment = assignment_in(alloc, delimiter, line)?;
    if assignments.len() >= MOST {
        return Err(AssignmentKind::TooMany);
    }
    assignments
        .push(assignment)
        .map_err(|_| AssignmentKind::Memory)
}

/// Returns the `assignments` of the lines before, and then those of the `lines` that are left, or the first fault.
fn read_rows(
    alloc: Global,
    mut assignments: Vec<Assignment>,
    delimiter: u8,
    mut lines: Lines<'_>,
) -> Result<Vec<Assignment>, AssignmentFault>
    requires { vec_len assignments ≤ 4000000 }
    ensures value { GivesUnless IsAssignmentMemory (λ v. v.items) result (rows_after delimiter assignments.items lines.entry.lines lines.entry.fault) }
    ensures few { IfOk result (λ v. vec_len v ≤ 4000000) }
{
    loop {
        match lines.next_line() {
            Ok(Some((number, line))) => {
                if let Err(kind) = add_assignment(alloc, &mut assignments, delimiter, line) {
                    return Err(AssignmentFault { kind, line: number });
                }
            }
            Ok(None) => return Ok(assignments),
            Err(fault) => return Err(AssignmentFault::of_cut(fault)),
        }
    }
}

/// Reads the assignments of the text `bytes` in the order of their lines. Each has a block's GEOCODE and the label of
/// its district. The text is a cut text (`Lines` of `field_lines`). A line is cut into fields at each pipe if the first
/// line that isn't blank has one, else at each comma. That first line is a header, and is dropped, if its first field
/// isn't fifteen digits. On every other line, field 1 is a block of fifteen digits and field 2 is a label.
///
/// # Errors
///
/// Returns the fault of the first line at fault. If that line has several, the first of these kinds is returned:
/// `TooFewFields` if it has fewer than two fields, then `BadCode`, `BadLabel`, and `TooMany` on the assignment after
/// the 4,000,000th. A line that can't be read (`Lower`) is a fault after those of the lines before it. `Memory` may
/// stand in the place of any answer.
pub fn read_assignments(alloc: Global, bytes: &[u8]) -> Result<Vec<Assignment>, AssignmentFault>
    ensures value { GivesUnless IsAssignmentMemory (λ v. v.items) result (assignment_list bytes.now) }
    ensures few { IfOk result (λ v. vec_len v ≤ 4000000) }
{
    let mut lines = Lines::new(bytes);
    let mut assignments = Vec::new(alloc);
    let first = lines
        .next_line()
        .map_err(|fault| AssignmentFault::of_cut(fault))?;
    let Some((number, line)) = first else {
        return Ok(assignments);
    };
    let delimiter = delimiter_in(line);
    if !is_header(delimiter, line) {
        add_assignment(alloc, &mut assignments, delimiter, line).map_err(|kind| AssignmentFault {
            kind,
            line: number,
        })?;
    }
    read_rows(alloc, assignments, delimiter, lines)
}
