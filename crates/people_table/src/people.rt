//! The counties of a state with their people, from a table.

ghost use Rattle.std.specs.Prelude.{◌≡◌, [], IfOk, map};
ghost use Rattle.field_lines.specs.{Cut.cut, Values.GivesUnless};
ghost use Rattle.pl94_counties.specs.CountyNames.{county_name};
ghost use Rattle.people_table.specs.TableFaults.{IsPeopleMemory};
ghost use Rattle.people_table.specs.CountyLines.{delimiter_of, without_header};
ghost use Rattle.people_table.specs.Listed.{with_line, counties_after, some_counties as some_found, named_people_list, people_list};
ghost use Rattle.people_table.specs.CountiesOfTable.{AreNamedOfTable, AreCountiesOfTable};
ghost use Rattle.people_table.specs.declared.fault.PeopleKind.TheVariants.{Memory};

use crate::county_line::{COMMA, county_on, delimiter_on, is_header};
use crate::fault::{PeopleFault, PeopleKind};
use crate::found::{FoundCounty, add_county, counties, named_counties};
use county_codes::County;
use field_lines::Lines;
use pl94_counties::NamedCounty;
use std::alloc::{AllocError, Global};

/// The lines of a table behind its header, if it has one, and the delimiter of its fields.
#[derive(Drop)]
struct TableLines<'a> {
    delimiter: u8,
    lines: Lines<'a>,
}

/// Returns the lines of `table` behind its header, if it has one, and the delimiter that its first line calls for.
fn table_lines<'a>(alloc: Global, table: &'a [u8]) -> Result<TableLines<'a>, AllocError>
    ensures delimiter { IfOk result (λ t. t.delimiter ≡ delimiter_of (cut table.now).lines) }
    ensures lines { IfOk result (λ t. t.lines.lines ≡ without_header (delimiter_of (cut table.now).lines) (cut table.now).lines) }
    ensures fault { IfOk result (λ t. t.lines.fault ≡ (cut table.now).fault) }
{
    let mut lines = Lines::new(table);
    match lines.next_line() {
        Ok(Some((_, first))) => {
            let delimiter = delimiter_on(first);
            if is_header(alloc, delimiter, first)? {
                Ok(TableLines { delimiter, lines })
            } else {
                Ok(TableLines {
                    delimiter,
                    lines: Lines::new(table),
                })
            }
        }
        _ => Ok(TableLines {
            delimiter: COMMA,
            lines: Lines::new(table),
        }),
    }
}

/// Adds the county on a `line` with this `delimiter` to the counties of `state` that were `found` on the lines before.
/// Returns the first fault of the line, or `Memory` if memory was refused.
fn add_line(
    alloc: Global,
    found: &mut Vec<FoundCounty>,
    delimiter: u8,
    state: u8,
    line: &[u8],
) -> Result<(), PeopleKind>
    ensures { GivesUnless (λ k. k ≡ Memory) (λ _. found.new.items) result (with_line delimiter state found.old.items line.now) }
{
    match county_on(alloc, delimiter, line) {
        Ok(county) => add_county(found, state, county),
        Err(kind) => Err(kind),
    }
}

/// Returns the counties of `state` on these `lines` by code, or the first fault.
fn read_lines(
    alloc: Global,
    mut lines: Lines<'_>,
    delimiter: u8,
    state: u8,
) -> Result<Vec<FoundCounty>, PeopleFault>
    ensures { GivesUnless IsPeopleMemory (λ v. v.items) result (counties_after delimiter state [] lines.entry.lines lines.entry.fault) }
{
    let mut found = Vec::new(alloc);
    loop {
        match lines.next_line() {
            Ok(Some((number, line))) => {
                if let Err(kind) = add_line(alloc, &mut found, delimiter, state, line) {
                    return Err(PeopleFault { kind, line: number });
                }
            }
            Ok(None) => return Ok(found),
            Err(fault) => return Err(PeopleFault::of_cut(fault)),
        }
    }
}

/// Returns the counties that were `found`, unchanged. If there are none, that is a fault on line 0.
fn some_counties(found: Vec<FoundCounty>) -> Result<Vec<FoundCounty>, PeopleFault>
    ensures { GivesUnless IsPeopleMemory (λ v. v.items) result (some_found found.items) }
{
    if found.is_empty() {
        return Err(PeopleFault {
            kind: PeopleKind::NoCounties,
            line: 0,
        });
    }
    Ok(found)
}

/// Finds the counties of `state` by code in `table`, or its first fault.
fn find_counties(alloc: Global, table: &[u8], state: u8) -> Result<Vec<FoundCounty>, PeopleFault>
    ensures { GivesUnless IsPeopleMemory (λ v. v.items) result (named_people_list table.now state) }
{
    let table_lines = match table_lines(alloc, table) {
        Ok(table_lines) => table_lines,
        Err(_) => return Err(PeopleFault::no_memory()),
    };
    let found = match read_lines(alloc, table_lines.lines, table_lines.delimiter, state) {
        Ok(found) => found,
        Err(fault) => return Err(fault),
    };
    some_counties(found)
}

/// Reads the counties of `state` with their people, as `read_people` does, each with its name. A name is the third
/// field of its county's line, and empty if the line has two fields.
///
/// # Errors
///
/// Returns the fault that `read_people` returns.
pub fn read_named_people(
    alloc: Global,
    table: &[u8],
    state: u8,
) -> Result<Vec<NamedCounty>, PeopleFault>
    ensures value { GivesUnless IsPeopleMemory (λ v. map county_name v.items) result (named_people_list table.now state) }
    ensures are { IfOk result (λ v. AreNamedOfTable table.now state (map county_name v.items)) }
{
    let found = match find_counties(alloc, table, state) {
        Ok(found) => found,
        Err(fault) => return Err(fault),
    };
    match named_counties(alloc, &found) {
        Ok(named) => Ok(named),
        Err(_) => Err(PeopleFault::no_memory()),
    }
}

/// Reads the counties of `state` with their people from the text `table`, ascending by code.
///
/// The text is a cut text (`Lines` of `field_lines`). The delimiter of its fields is the comma, or the pipe if the first
/// line has a pipe and no comma. A field may stand between quotes, as RFC 4180 has it, but within its line. The first
/// line is a header, and passed over, if its first field isn't five digits.
///
/// Every other line has two fields or three. The first is the code of a county, five digits, of which the first two are
/// those of its state. The second is the number of its people: digits alone, and at most 4,294,967,295. The third is
/// its name in UTF-8. A line of a county of another state is checked, and then passed over.
///
/// # Errors
///
/// Returns the fault of the first line that has one. If that line has several, returns the first: `BadLine` if it hasn't
/// two fields or three, or if its quotes are wrong, then `BadCode`, `BadNumber` and `BadName` for its fields, and
/// `DoubleCounty` if the code of a county of the state stood before. A line that can't be read (`Lower`) is a fault
/// after those of the lines before it. `NoCounties` is returned only if no line is at fault. `Memory` may come in the
/// place of any answer.
pub fn read_people(alloc: Global, table: &[u8], state: u8) -> Result<Vec<County>, PeopleFault>
    ensures value { GivesUnless IsPeopleMemory (λ v. v.items) result (people_list table.now state) }
    ensures are { IfOk result (λ v. AreCountiesOfTable table.now state v.items) }
{
    let found = match find_counties(alloc, table, state) {
        Ok(found) => found,
        Err(fault) => return Err(fault),
    };
    match counties(alloc, &found) {
        Ok(counties) => Ok(counties),
        Err(_) => Err(PeopleFault::no_memory()),
    }
}
