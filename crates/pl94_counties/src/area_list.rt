//! The join of the geographic header and segment 1: the people of each county or census block, by code.

ghost use Rattle.std.specs.Prelude.{◌≡◌, ◌≤◌, false, Ok, Some, None, IfOk, IfErr, map, All};
ghost use Rattle.std.specs.List.Sorted.{IsStrictlyIncreasing};
ghost use Rattle.field_lines.specs.{Values.GivesUnless, Cut.cut, LinesFrom.ReadsText};
ghost use Rattle.pl94_counties.specs.{PeopleByCode.{Adds, IsPl94Memory}, Geo.{rule_of, area_on}};
ghost use Rattle.pl94_counties.specs.Areas.{found_list_in, some_areas, area_list_in, area_list};
ghost use Rattle.pl94_counties.specs.Readers.{IsPl94Refused, ReadsBoth, read_failed};
ghost use Rattle.pl94_counties.specs.{JoinedLines.{IsJoined, IsListedArea}, TextFaults.IsPl94OfText};

use crate::fault::{File, Pl94Fault, Pl94Kind};
use crate::geo::{Area, area_in};
use crate::notes::CensusNotes;
use crate::segment::read_records;
use field_lines::{LineReader, Lines, LinesFrom, Source};
use std::alloc::Global;
use std::collections::BTreeMap;

/// Puts an area with its `code` and its `people` beside the areas `found` on the lines before.
///
/// # Errors
///
/// Returns the kind of a double line if the code stood before, `TooMany` if `found` is full, and `Memory` if memory was
/// refused.
fn put_area(
    found: &mut BTreeMap<u64, u32>,
    area: Area,
    code: u64,
    people: u32,
) -> Result<(), Pl94Kind>
    ensures adds { Adds (rule_of area) found.old.entries (Ok (Some (code, people))) result found.new.entries }
    ensures of_text { IfErr result IsPl94OfText }
{
    let full = area.is_full(found.len());
    match found.insert(code, people) {
        Ok(None) if full => Err(Pl94Kind::TooMany),
        Ok(None) => Ok(()),
        Ok(Some(_)) => Err(area.double()),
        Err(_) => Err(Pl94Kind::Memory),
    }
}

/// Adds what `line` of geo gives to the areas `found` on the lines before. `records` are the people of each record of
/// segment 1. A line that isn't for such an area of the state adds nothing.
///
/// # Errors
///
/// Returns the first kind of fault that the line has, or `Memory` if memory was refused.
pub(crate) fn add_line(
    found: &mut BTreeMap<u64, u32>,
    area: Area,
    state: u8,
    records: &BTreeMap<u32, u32>,
    line: &[u8],
) -> Result<(), Pl94Kind>
    requires { state ≤ 99 }
    ensures adds { Adds (rule_of area) found.old.entries (area_on area state records.now.entries line.now) result found.new.entries }
    ensures of_text { IfErr result IsPl94OfText }
{
    match area_in(area, state, records, line)? {
        Some((code, people)) => put_area(found, area, code, people),
        None => Ok(()),
    }
}

/// Returns the people of each area of the state by its code, as the lines of geo give them, or the first fault of geo.
/// `records` are the people of each record of segment 1. `notes` note the lines that were read, and the one at fault.
fn join<F, L: LinesFrom<F>>(
    alloc: Global,
    lines: &mut L,
    from: &mut F,
    area: Area,
    state: u8,
    records: &BTreeMap<u32, u32>,
    notes: &mut CensusNotes,
) -> Result<BTreeMap<u64, u32>, Pl94Fault>
    requires digits { state ≤ 99 }
    requires sound { (L.left lines.old).fault ≡ None }
    requires works { L.is_failed from.old ≡ false }
    ensures reads { ReadsText (L.left lines.old).cut (L.given from.old) (L.given from.new) (λ c. GivesUnless IsPl94Refused (λ m. m.entries) result (found_list_in area state records.now.entries c)) }
    ensures failed { L.is_failed from.new ≡ read_failed File.Geo result }
    ensures segment_sound { read_failed File.Segment1 result ≡ false }
{
    let mut found = BTreeMap::new(alloc);
    loop {
        match lines.next_from(from) {
            Ok(Some((line_number, line))) => {
                notes.note_geo_line(state, records, line);
                if let Err(kind) = add_line(&mut found, area, state, records, line) {
                    notes.note_fault(kind, line);
                    return Err(Pl94Fault {
                        kind,
                        file: File::Geo,
                        line: line_number,
                    });
                }
            }
            Ok(None) => return Ok(found),
            Err(fault) => {
                notes.note_long_line(fault, lines.line());
                return Err(Pl94Fault::of_cut(fault, File::Geo));
            }
        }
    }
}

/// Returns the areas that were `found`, unchanged. If there are none, that is a fault on line 0 of geo.
fn some_areas(found: BTreeMap<u64, u32>, area: Area) -> Result<BTreeMap<u64, u32>, Pl94Fault>
    ensures value { GivesUnless IsPl94Memory (λ m. m.entries) result (some_areas area found.entries) }
    ensures of_text { IfErr result (λ f. IsPl94OfText f.kind) }
    ensures ascending { IfOk result (λ m. IsStrictlyIncreasing (map (λ e. e.0) m.entries)) }
{
    match found.len() {
        0 => Err(Pl94Fault {
            kind: area.none(),
            file: File::Geo,
            line: 0,
        }),
        _ => Ok(found),
    }
}

/// Reads the people of each `area` of `state` by its code, from the lines of `geo` and of `segment1`. Segment 1 is read
/// whole, and then geo. If the state has no such area, that is a fault only if no line is at fault.
fn read_lines<F, L: LinesFrom<F>, G, M: LinesFrom<G>>(
    alloc: Global,
    area: Area,
    geo: &mut L,
    geo_from: &mut F,
    segment1: &mut M,
    segment1_from: &mut G,
    state: u8,
    notes: &mut CensusNotes,
) -> Result<BTreeMap<u64, u32>, Pl94Fault>
    requires digits { state ≤ 99 }
    requires geo_sound { (L.left geo.old).fault ≡ None }
    requires geo_works { L.is_failed geo_from.old ≡ false }
    requires segment1_sound { (M.left segment1.old).fault ≡ None }
    requires segment1_works { M.is_failed segment1_from.old ≡ false }
    ensures reads { ReadsBoth (λ m. m.entries) (L.given geo_from.old) (L.given geo_from.new) (M.given segment1_from.old) (M.given segment1_from.new) result (λ g s. area_list_in area ((L.left geo.old).cut g) ((M.left segment1.old).cut s) state) }
    ensures geo_failed { L.is_failed geo_from.new ≡ read_failed File.Geo result }
    ensures segment1_failed { M.is_failed segment1_from.new ≡ read_failed File.Segment1 result }
    ensures ascending { IfOk result (λ m. IsStrictlyIncreasing (map (λ e. e.0) m.entries)) }
{
    let records = read_records(alloc, segment1, segment1_from, notes)?;
    let found = join(alloc, geo, geo_from, area, state, &records, notes)?;
    some_areas(found, area)
}

/// Reads the people of each `area` of `state` by its code, in ascending order, from the texts `geo` and `segment1`.
pub(crate) fn read_areas(
    alloc: Global,
    area: Area,
    geo: &[u8],
    segment1: &[u8],
    state: u8,
) -> Result<BTreeMap<u64, u32>, Pl94Fault>
    requires { state ≤ 99 }
    ensures value { GivesUnless IsPl94Memory (λ m. m.entries) result (area_list area geo.now segment1.now state) }
    ensures of_text { IfErr result (λ f. IsPl94OfText f.kind) }
    ensures ascending { IfOk result (λ m. IsStrictlyIncreasing (map (λ e. e.0) m.entries)) }
    ensures from_lines { IfOk result (λ m. All (λ e. IsJoined area (cut geo.now).lines (cut segment1.now).lines state e.0 e.1) m.entries) }
    ensures each_line { IfOk result (λ m. All (IsListedArea (λ code people. (code, people)) area (cut segment1.now).lines state m.entries) (cut geo.now).lines) }
{
    let mut geo_lines = Lines::new(geo);
    let mut segment1_lines = Lines::new(segment1);
    let mut notes = CensusNotes::new(alloc);
    match read_lines(
        alloc,
        area,
        &mut geo_lines,
        &mut (),
        &mut segment1_lines,
        &mut (),
        state,
        &mut notes,
    ) {
        Ok(found) => Ok(found),
        Err(fault) => Err(fault),
    }
}

/// Reads the people of each `area` of `state` by its code, in ascending order, from the sources `geo` and `segment1`.
pub(crate) fn read_areas_from<G: Source, S: Source>(
    alloc: Global,
    area: Area,
    geo: &mut G,
    segment1: &mut S,
    state: u8,
    notes: &mut CensusNotes,
) -> Result<BTreeMap<u64, u32>, Pl94Fault>
    requires digits { state ≤ 99 }
    requires geo_works { G.is_failed geo.old ≡ false }
    requires segment1_works { S.is_failed segment1.old ≡ false }
    ensures reads { ReadsBoth (λ m. m.entries) (G.given geo.old) (G.given geo.new) (S.given segment1.old) (S.given segment1.new) result (λ g s. area_list area g s state) }
    ensures geo_failed { G.is_failed geo.new ≡ read_failed File.Geo result }
    ensures segment1_failed { S.is_failed segment1.new ≡ read_failed File.Segment1 result }
    ensures ascending { IfOk result (λ m. IsStrictlyIncreasing (map (λ e. e.0) m.entries)) }
{
    let mut geo_lines = match LineReader::new(alloc) {
        Ok(lines) => lines,
        Err(_) => return Err(no_memory()),
    };
    let mut segment1_lines = match LineReader::new(alloc) {
        Ok(lines) => lines,
        Err(_) => return Err(no_memory()),
    };
    read_lines(
        alloc,
        area,
        &mut geo_lines,
        geo,
        &mut segment1_lines,
        segment1,
        state,
        notes,
    )
}

/// Returns the fault that says that memory was refused.
pub(crate) fn no_memory() -> Pl94Fault
    ensures { IsPl94Memory result }
{
    Pl94Fault {
        kind: Pl94Kind::Memory,
        file: File::Geo,
        line: 0,
    }
}
