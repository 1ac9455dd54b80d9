//! The counties of a state with their names, by one reading of each file.

ghost use Rattle.std.specs.{Prelude.{◌≡◌, ◌≤◌, false, Ok, None, IfOk, IfErr, map}, List.filter_map};
ghost use Rattle.std.specs.List.Sorted.{IsStrictlyIncreasing};
ghost use Rattle.county_codes.specs.Counties.{codes_of};
ghost use Rattle.field_lines.specs.{Values.GivesUnless, LinesFrom.ReadsText};
ghost use Rattle.pl94_counties.specs.declared.geo.Area.TheVariants as areas;
ghost use Rattle.pl94_counties.specs.{Areas.found_list_in, Counties.{county_in, county_list}, Readers.ReadsTexts};
ghost use Rattle.pl94_counties.specs.NamedReaders.{entries_shown, StandInOrder, AddsNamed, entries_by_lines, named_entries_in, named_entries, some_named, IsNamedRefused, IsNoReadFailure, named_read_failed};
ghost use Rattle.pl94_counties.specs.CountyNames.{IsNoMemory, county_name, with_names as named_by, named_list};

use crate::area_list::{add_line, no_memory};
use crate::counties::list;
use crate::county_names::{LineName, NamedCounty, NamedFault, add_name, with_names};
use crate::fault::{File, Pl94Fault};
use crate::geo::Area;
use crate::notes::CensusNotes;
use crate::segment::read_records;
use field_lines::{LineReader, Lines, LinesFrom, Source};
use std::alloc::{AllocError, Global};
use std::collections::BTreeMap;

/// The counties that the lines of geo give.
#[derive(Drop)]
struct FoundCounties {
    /// The people of each county by its code.
    people: BTreeMap<u64, u32>,
    /// The codes and the names on the lines.
    names: Vec<LineName>,
}

/// Adds what `line` of geo gives to the `people` and the `names` of the lines before. `number` is the number of the
/// line. `records` are the people of each record of segment 1. The name is looked at last.
fn add_named_line(
    people: &mut BTreeMap<u64, u32>,
    names: &mut Vec<LineName>,
    state: u8,
    records: &BTreeMap<u32, u32>,
    number: u32,
    line: &[u8],
) -> Result<(), NamedFault>
    requires { state ≤ 99 }
    ensures adds { AddsNamed state records.now.entries (record { entries = people.old.entries; names = names.old.items }) (record { number = number; bytes = line.now }) result (record { entries = people.new.entries; names = names.new.items }) }
    ensures read { IfErr result IsNoReadFailure }
{
    match add_line(people, Area::County, state, records, line) {
        Ok(()) => add_name(names, state, number, line),
        Err(kind) => Err(NamedFault::Files(Pl94Fault {
            kind,
            file: File::Geo,
            line: number,
        })),
    }
}

/// Returns the counties of the state with the names on their lines, or the first fault of geo. `records` are the people
/// of each record of segment 1. `notes` note the lines that were read, and the one at fault.
fn join_named<F, L: LinesFrom<F>>(
    alloc: Global,
    lines: &mut L,
    from: &mut F,
    state: u8,
    records: &BTreeMap<u32, u32>,
    notes: &mut CensusNotes,
) -> Result<FoundCounties, NamedFault>
    requires digits { state ≤ 99 }
    requires sound { (L.left lines.old).fault ≡ None }
    requires works { L.is_failed from.old ≡ false }
    requires ordered { StandInOrder (L.left lines.old).cut }
    ensures reads { ReadsText (L.left lines.old).cut (L.given from.old) (L.given from.new) (λ c. GivesUnless IsNamedRefused entries_shown result (entries_by_lines c.lines state (found_list_in areas.County state records.now.entries c))) }
    ensures failed { L.is_failed from.new ≡ named_read_failed File.Geo result }
    ensures segment_sound { named_read_failed File.Segment1 result ≡ false }
{
    let mut people = BTreeMap::new(alloc);
    let mut names = Vec::new(alloc);
    loop {
        match lines.next_from(from) {
            Ok(Some((number, line))) => {
                notes.note_geo_line(state, records, line);
                if let Err(fault) = add_named_line(
                    &mut people,
                    &mut names,
                    state,
                    records,
                    number,
                    line,
                ) {
                    notes.note_named_fault(fault, line);
                    return Err(fault);
                }
            }
            Ok(None) => return Ok(FoundCounties { people, names }),
            Err(fault) => {
                notes.note_long_line(fault, lines.line());
                return Err(NamedFault::Files(Pl94Fault::of_cut(fault, File::Geo)));
            }
        }
    }
}

/// Returns the counties that were `found`, unchanged. If there are none, that is a fault on line 0 of geo.
fn some_found(found: FoundCounties) -> Result<FoundCounties, NamedFault>
    ensures value { GivesUnless IsNoMemory entries_shown result (some_named (entries_shown found)) }
    ensures read { IfErr result IsNoReadFailure }
    ensures ascending { IfOk result (λ f. IsStrictlyIncreasing (map (λ e. e.0) f.people.entries)) }
{
    match found.people.len() {
        0 => Err(NamedFault::Files(Pl94Fault {
            kind: Area::County.none(),
            file: File::Geo,
            line: 0,
        })),
        _ => Ok(found),
    }
}

/// Finds the counties of `state` with the names on their lines, from the lines of `geo` and of `segment1`. Segment 1 is
/// read whole, and then geo once. If the state has no county, that is a fault only if no line is at fault.
fn find_counties<F, L: LinesFrom<F>, G, M: LinesFrom<G>>(
    alloc: Global,
    geo: &mut L,
    geo_from: &mut F,
    segment1: &mut M,
    segment1_from: &mut G,
    state: u8,
    notes: &mut CensusNotes,
) -> Result<FoundCounties, NamedFault>
    requires digits { state ≤ 99 }
    requires geo_sound { (L.left geo.old).fault ≡ None }
    requires geo_works { L.is_failed geo_from.old ≡ false }
    requires geo_ordered { StandInOrder (L.left geo.old).cut }
    requires segment1_sound { (M.left segment1.old).fault ≡ None }
    requires segment1_works { M.is_failed segment1_from.old ≡ false }
    ensures reads { ReadsTexts (L.given geo_from.old) (L.given geo_from.new) (M.given segment1_from.old) (M.given segment1_from.new) (λ g s. GivesUnless IsNamedRefused entries_shown result (named_entries_in ((L.left geo.old).cut g) ((M.left segment1.old).cut s) state)) }
    ensures geo_failed { L.is_failed geo_from.new ≡ named_read_failed File.Geo result }
    ensures segment1_failed { M.is_failed segment1_from.new ≡ named_read_failed File.Segment1 result }
    ensures ascending { IfOk result (λ f. IsStrictlyIncreasing (map (λ e. e.0) f.people.entries)) }
{
    let records = match read_records(alloc, segment1, segment1_from, notes) {
        Ok(records) => records,
        Err(fault) => return Err(NamedFault::Files(fault)),
    };
    let found = match join_named(alloc, geo, geo_from, state, &records, notes) {
        Ok(found) => found,
        Err(fault) => return Err(fault),
    };
    some_found(found)
}

/// Returns the counties that were `found`, each with its name, in the order of their codes.
fn named(alloc: Global, found: &FoundCounties) -> Result<Vec<NamedCounty>, AllocError>
    ensures names { IfOk result (λ v. map county_name v.items ≡ named_by found.now.names.items (filter_map (λ e. county_in e.0 e.1) found.now.people.entries)) }
    ensures same { IfOk result (λ v. map (λ k. k.county) v.items ≡ filter_map (λ e. county_in e.0 e.1) found.now.people.entries) }
{
    let counties = list(alloc, &found.people)?;
    with_names(alloc, &counties, &found.names)
}

/// Finds the counties of `state` with the names on their lines, from the texts `geo` and `segment1`.
fn find_in_texts(
    alloc: Global,
    geo: &[u8],
    segment1: &[u8],
    state: u8,
) -> Result<FoundCounties, NamedFault>
    requires { state ≤ 99 }
    ensures value { GivesUnless IsNoMemory entries_shown result (named_entries geo.now segment1.now state) }
    ensures ascending { IfOk result (λ f. IsStrictlyIncreasing (map (λ e. e.0) f.people.entries)) }
{
    let mut geo_lines = Lines::new(geo);
    let mut segment1_lines = Lines::new(segment1);
    let mut notes = CensusNotes::new(alloc);
    find_counties(
        alloc,
        &mut geo_lines,
        &mut (),
        &mut segment1_lines,
        &mut (),
        state,
        &mut notes,
    )
}

/// Finds the counties of `state` with the names on their lines, from the sources `geo` and `segment1`.
fn find_in_sources<G: Source, S: Source>(
    alloc: Global,
    geo: &mut G,
    segment1: &mut S,
    state: u8,
    notes: &mut CensusNotes,
) -> Result<FoundCounties, NamedFault>
    requires digits { state ≤ 99 }
    requires geo_works { G.is_failed geo.old ≡ false }
    requires segment1_works { S.is_failed segment1.old ≡ false }
    ensures reads { ReadsTexts (G.given geo.old) (G.given geo.new) (S.given segment1.old) (S.given segment1.new) (λ g s. GivesUnless IsNamedRefused entries_shown result (named_entries g s state)) }
    ensures geo_failed { G.is_failed geo.new ≡ named_read_failed File.Geo result }
    ensures segment1_failed { S.is_failed segment1.new ≡ named_read_failed File.Segment1 result }
    ensures ascending { IfOk result (λ f. IsStrictlyIncreasing (map (λ e. e.0) f.people.entries)) }
{
    let mut geo_lines = match LineReader::new(alloc) {
        Ok(lines) => lines,
        Err(_) => return Err(NamedFault::Files(no_memory())),
    };
    let mut segment1_lines = match LineReader::new(alloc) {
        Ok(lines) => lines,
        Err(_) => return Err(NamedFault::Files(no_memory())),
    };
    find_counties(
        alloc,
        &mut geo_lines,
        geo,
        &mut segment1_lines,
        segment1,
        state,
        notes,
    )
}

/// Reads the counties of `state` from the texts `geo` and `segment1`, as `read_counties` does, each with its NAME. That
/// is field 88 of its line of geo. The name is empty if the line has fewer fields.
///
/// # Errors
///
/// Returns `Files` with the fault that `read_counties` returns. Returns `BadName` with the line if the NAME of a county
/// isn't UTF-8. The first line of geo at fault is reported. `BadName` comes after every other fault of its line, and
/// after each fault of segment 1.
pub fn read_named_counties(
    alloc: Global,
    geo: &[u8],
    segment1: &[u8],
    state: u8,
) -> Result<Vec<NamedCounty>, NamedFault>
    requires { state ≤ 99 }
    ensures value { GivesUnless IsNoMemory (λ v. map county_name v.items) result (named_list geo.now segment1.now state) }
    ensures agrees { IfOk result (λ v. county_list geo.now segment1.now state ≡ Ok (map (λ k. k.county) v.items)) }
    ensures ascending { IfOk result (λ v. IsStrictlyIncreasing (codes_of (map (λ k. k.county) v.items))) }
{
    let found = match find_in_texts(alloc, geo, segment1, state) {
        Ok(found) => found,
        Err(fault) => return Err(fault),
    };
    match named(alloc, &found) {
        Ok(named) => Ok(named),
        Err(_) => Err(NamedFault::Files(no_memory())),
    }
}

/// Reads the counties of `state` with their names, as `read_named_counties` does, from the sources `geo` and
/// `segment1`. Neither source has failed before. Segment 1 is read first. Geo is read once, and only if segment 1 has
/// no fault. The answer holds for each pair of texts that begin with what the sources gave. `notes` have what the
/// reading noted.
///
/// # Errors
///
/// Returns the faults of `read_named_counties` for the bytes that the sources gave. If a source failed, returns `Files`
/// of `Lower(ReadFault)` with its file and the line that was being read.
pub fn read_named_counties_from<G: Source, S: Source>(
    alloc: Global,
    geo: &mut G,
    segment1: &mut S,
    state: u8,
    notes: &mut CensusNotes,
) -> Result<Vec<NamedCounty>, NamedFault>
    requires digits { state ≤ 99 }
    requires geo_works { G.is_failed geo.old ≡ false }
    requires segment1_works { S.is_failed segment1.old ≡ false }
    ensures reads { ReadsTexts (G.given geo.old) (G.given geo.new) (S.given segment1.old) (S.given segment1.new) (λ g s. GivesUnless IsNamedRefused (λ v. map county_name v.items) result (named_list g s state)) }
    ensures agrees { IfOk result (λ v. ReadsTexts (G.given geo.old) (G.given geo.new) (S.given segment1.old) (S.given segment1.new) (λ g s. county_list g s state ≡ Ok (map (λ k. k.county) v.items))) }
    ensures geo_failed { G.is_failed geo.new ≡ named_read_failed File.Geo result }
    ensures segment1_failed { S.is_failed segment1.new ≡ named_read_failed File.Segment1 result }
    ensures ascending { IfOk result (λ v. IsStrictlyIncreasing (codes_of (map (λ k. k.county) v.items))) }
{
    let found = match find_in_sources(alloc, geo, segment1, state, notes) {
        Ok(found) => found,
        Err(fault) => return Err(fault),
    };
    match named(alloc, &found) {
        Ok(named) => Ok(named),
        Err(_) => Err(NamedFault::Files(no_memory())),
    }
}
