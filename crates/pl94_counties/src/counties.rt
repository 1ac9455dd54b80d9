//! The counties of a state with their people.

ghost use Rattle.std.specs.{Prelude.{◌≡◌, ◌≤◌, false, IfOk, IfErr, map, All}, List.filter_map};
ghost use Rattle.std.specs.List.Sorted.{IsStrictlyIncreasing};
ghost use Rattle.field_lines.specs.{Values.GivesUnless, Cut.cut};
ghost use Rattle.pl94_counties.specs.{PeopleByCode.IsPl94Memory, JoinedLines.{IsJoined, IsListedArea}};
ghost use Rattle.pl94_counties.specs.{TextFaults.IsPl94OfText, Readers.{ReadsBoth, read_failed}};
ghost use Rattle.pl94_counties.specs.Counties.{county_of, county_in, county_list};
ghost use Rattle.pl94_counties.specs.declared.geo.Area.TheVariants as areas;

use crate::area_list::{no_memory, read_areas, read_areas_from};
use crate::fault::{File, Pl94Fault, Pl94Kind};
use crate::geo::Area;
use crate::notes::CensusNotes;
use county_codes::{County, CountyCode};
use field_lines::Source;
use std::alloc::{AllocError, Global};
use std::collections::BTreeMap;

/// Returns the county of this `code` with its `people`, or `None` if `code` isn't the code of a county.
fn county(code: u64, people: u32) -> Option<County>
    ensures { result ≡ county_in code people }
{
    let code = CountyCode::new(u32::try_from(code).ok()?)?;
    Some(County { code, people })
}

/// Returns the entries of `found` as counties, in the order of their codes. An entry whose code isn't that of a county
/// is left out.
pub(crate) fn list(alloc: Global, found: &BTreeMap<u64, u32>) -> Result<Vec<County>, AllocError>
    ensures { IfOk result (λ v. v.items ≡ filter_map (λ e. county_in e.0 e.1) found.now.entries) }
{
    found
        .iter()
        .filter_map(|(code, people)| county(*code, *people))
        .collect(alloc)
}

/// Reads the counties of a state with their people, ascending by code. They come from two files of the 2020 Census
/// Redistricting Data (Public Law 94-171): the geographic header and segment 1. Both are cut texts (`Lines` of
/// `field_lines`), and a line is cut into fields at each pipe.
///
/// A county line of geo has SUMLEV (field 3) `050` and GEOCOMP (field 5) `00`. Its STATE (field 13) equals the two
/// digits of `state`, byte by byte. Its code is STATE and then COUNTY (field 15, three digits). Its people are P0010001
/// (field 6) of the line of segment 1 that has its LOGRECNO (field 8 of geo, field 5 of segment 1), compared as a
/// number. Every other line of geo is skipped once it has fifteen fields. Whether two lines of geo share a LOGRECNO
/// isn't tested.
///
/// # Errors
///
/// Segment 1 is read whole, and then geo. Returns the fault of the first line at fault. If that line has several, the
/// first kind in the order of `Pl94Kind` is returned. A line that can't be read (`Lower`) is a fault after those of the
/// lines before it. `NoCounties` is returned only if no line is at fault. `Memory` may stand in the place of any
/// answer.
pub fn read_counties(
    alloc: Global,
    geo: &[u8],
    segment1: &[u8],
    state: u8,
) -> Result<Vec<County>, Pl94Fault>
    requires { state ≤ 99 }
    ensures value { GivesUnless IsPl94Memory (λ v. v.items) result (county_list geo.now segment1.now state) }
    ensures of_text { IfErr result (λ f. IsPl94OfText f.kind) }
    ensures ascending { IfOk result (λ v. IsStrictlyIncreasing (map (λ c. c.code) v.items)) }
    ensures from_lines { IfOk result (λ v. All (λ c. IsJoined areas.County (cut geo.now).lines (cut segment1.now).lines state c.code c.people) v.items) }
    ensures each_line { IfOk result (λ v. All (IsListedArea county_of areas.County (cut segment1.now).lines state v.items) (cut geo.now).lines) }
{
    let found = read_areas(alloc, Area::County, geo, segment1, state)?;
    let counties = list(alloc, &found).map_err(|_| Pl94Fault {
        kind: Pl94Kind::Memory,
        file: File::Geo,
        line: 0,
    })?;
    Ok(counties)
}

/// Reads the counties of `state`, as `read_counties` does, from the sources `geo` and `segment1`. Neither source has
/// failed before. Segment 1 is read first. Geo is read only if segment 1 has no fault. The answer holds for each pair
/// of texts that begin with what the sources gave. `notes` have what the reading noted.
///
/// # Errors
///
/// Returns the faults of `read_counties` for the bytes that the sources gave. If a source failed, returns
/// `Lower(ReadFault)` with its file and the line that was being read.
pub fn read_counties_from<G: Source, S: Source>(
    alloc: Global,
    geo: &mut G,
    segment1: &mut S,
    state: u8,
    notes: &mut CensusNotes,
) -> Result<Vec<County>, Pl94Fault>
    requires digits { state ≤ 99 }
    requires geo_works { G.is_failed geo.old ≡ false }
    requires segment1_works { S.is_failed segment1.old ≡ false }
    ensures reads { ReadsBoth (λ v. v.items) (G.given geo.old) (G.given geo.new) (S.given segment1.old) (S.given segment1.new) result (λ g s. county_list g s state) }
    ensures geo_failed { G.is_failed geo.new ≡ read_failed File.Geo result }
    ensures segment1_failed { S.is_failed segment1.new ≡ read_failed File.Segment1 result }
{
    let found = match read_areas_from(alloc, Area::County, geo, segment1, state, notes) {
        Ok(found) => found,
        Err(fault) => return Err(fault),
    };
    match list(alloc, &found) {
        Ok(counties) => Ok(counties),
        Err(_) => Err(no_memory()),
    }
}
