//! The census blocks of a state with their people.

ghost use Rattle.std.specs.Prelude.{◌≡◌, ◌≤◌, false, ◌<◌, ◌^◌, IfOk, IfErr, map, All, length};
ghost use Rattle.std.specs.List.Sorted.{IsStrictlyIncreasing};
ghost use Rattle.field_lines.specs.{Values.GivesUnless, Cut.cut};
ghost use Rattle.pl94_counties.specs.{PeopleByCode.IsPl94Memory, JoinedLines.{IsJoined, IsListedArea}};
ghost use Rattle.pl94_counties.specs.{TextFaults.IsPl94OfText, Readers.{ReadsBoth, read_failed}};
ghost use Rattle.pl94_counties.specs.Counties.{block_of, block_list};
ghost use Rattle.pl94_counties.specs.declared.geo.Area.TheVariants as areas;

use crate::area_list::{no_memory, read_areas, read_areas_from};
use crate::fault::{File, Pl94Fault, Pl94Kind};
use crate::geo::Area;
use crate::notes::CensusNotes;
use field_lines::Source;
use std::alloc::{AllocError, Global};
use std::collections::BTreeMap;

/// A census block and its people: the total population of the 2020 census.
#[derive(Clone, Copy, Debug, PartialEq, Eq)]
pub struct Block {
    /// The fifteen digits of the block's GEOCODE as a number: state, county, tract and block.
    pub code: u64,
    /// People, 0 to 4,294,967,295.
    pub people: u32,
}

/// Returns the entries of `found` as blocks, in the order of their codes.
fn list(alloc: Global, found: &BTreeMap<u64, u32>) -> Result<Vec<Block>, AllocError>
    ensures { IfOk result (λ v. v.items ≡ map (λ e. block_of e.0 e.1) found.now.entries) }
{
    found
        .iter()
        .map(|(code, people)| Block {
            code: *code,
            people: *people,
        })
        .collect(alloc)
}

/// Reads the blocks of `state` with their people, ascending by code, from the files from which `read_counties` reads
/// the counties. A block line of `geo` has SUMLEV (field 3) `750`. Its GEOCOMP and its STATE are those of a county
/// line. Its code is GEOCODE (field 10, fifteen digits), and its COUNTY isn't looked at. Its people are found as those
/// of a county are.
///
/// # Errors
///
/// Returns the faults of `read_counties`, with `DoubleBlock` and `NoBlocks` in the place of `DoubleCounty` and
/// `NoCounties`. Returns `TooMany` at the block line after the 2,000,000th, if that line has no fault of the kinds
/// before it.
pub fn read_blocks(
    alloc: Global,
    geo: &[u8],
    segment1: &[u8],
    state: u8,
) -> Result<Vec<Block>, Pl94Fault>
    requires { state ≤ 99 }
    ensures value { GivesUnless IsPl94Memory (λ v. v.items) result (block_list geo.now segment1.now state) }
    ensures of_text { IfErr result (λ f. IsPl94OfText f.kind) }
    ensures ascending { IfOk result (λ v. IsStrictlyIncreasing (map (λ b. b.code) v.items)) }
    ensures small { IfOk result (λ v. All (λ b. b.code < 1000000000000000) v.items) }
    ensures from_lines { IfOk result (λ v. All (λ b. IsJoined areas.Block (cut geo.now).lines (cut segment1.now).lines state b.code b.people) v.items) }
    ensures each_line { IfOk result (λ v. All (IsListedArea block_of areas.Block (cut segment1.now).lines state v.items) (cut geo.now).lines) }
{
    let found = read_areas(alloc, Area::Block, geo, segment1, state)?;
    let blocks = list(alloc, &found).map_err(|_| Pl94Fault {
        kind: Pl94Kind::Memory,
        file: File::Geo,
        line: 0,
    })?;
    Ok(blocks)
}

/// Reads the blocks of `state`, as `read_blocks` does, from the sources `geo` and `segment1`. Neither source has failed
/// before. Segment 1 is read first. Geo is read only if segment 1 has no fault. The answer holds for each pair of texts
/// that begin with what the sources gave. `notes` have what the reading noted.
///
/// # Errors
///
/// Returns the faults of `read_blocks` for the bytes that the sources gave. If a source failed, returns
/// `Lower(ReadFault)` with its file and the line that was being read.
pub fn read_blocks_from<G: Source, S: Source>(
    alloc: Global,
    geo: &mut G,
    segment1: &mut S,
    state: u8,
    notes: &mut CensusNotes,
) -> Result<Vec<Block>, Pl94Fault>
    requires digits { state ≤ 99 }
    requires geo_works { G.is_failed geo.old ≡ false }
    requires segment1_works { S.is_failed segment1.old ≡ false }
    ensures reads { ReadsBoth (λ v. v.items) (G.given geo.old) (G.given geo.new) (S.given segment1.old) (S.given segment1.new) result (λ g s. block_list g s state) }
    ensures geo_failed { G.is_failed geo.new ≡ read_failed File.Geo result }
    ensures segment1_failed { S.is_failed segment1.new ≡ read_failed File.Segment1 result }
    ensures ascending { IfOk result (λ v. IsStrictlyIncreasing (map (λ b. b.code) v.items)) }
    ensures small { IfOk result (λ v. All (λ b. b.code < 1000000000000000) v.items) }
{
    let found = match read_areas_from(alloc, Area::Block, geo, segment1, state, notes) {
        Ok(found) => found,
        Err(fault) => return Err(fault),
    };
    match list(alloc, &found) {
        Ok(blocks) => Ok(blocks),
        Err(_) => Err(no_memory()),
    }
}
