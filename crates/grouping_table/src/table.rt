//! The lines of the table: a header, and a line for each county.

ghost use Rattle.std.specs.{Prelude.{◌≡◌, ◌++◌, IfOk, OnOk, map}, Option.option_copied};
ghost use Rattle.grouping_table.specs.{Quoting.line_text, Table.{county_fields, county_lines, table_text}};
ghost use Rattle.grouping_table.specs.LabelledSets.{set_of_code as set_of_code};
ghost use Rattle.pl94_counties.specs.CountyNames.{county_name};

use crate::csv_lines::csv_line;
use crate::sets::{LabelledSet, labelled_sets, set_of};
use county_codes::{Group, Withdrawn, push_code};
use itoa::Buffer;
use pl94_counties::NamedCounty;
use std::alloc::{AllocError, Global};

/// Returns the line of the county `listed`, with the set among `sets` that has it.
fn county_line(
    alloc: Global,
    sets: &[LabelledSet],
    listed: &NamedCounty,
) -> Result<Vec<u8>, AllocError>
    ensures { IfOk result (λ v. v.items ≡ line_text (county_fields sets.now (county_name listed.now))) }
{
    let mut geoid = Vec::new(alloc);
    push_code(&mut geoid, listed.county.code)?;
    let mut people = Buffer::new();
    let people = people.format(listed.county.people).as_bytes();
    let name = listed.name.as_bytes();
    match set_of(sets, listed.county.code) {
        None => csv_line(alloc, &[geoid.as_slice(), name, people, b"", b"", b""]),
        Some(set) => {
            let mut seats = Buffer::new();
            let mut inside = Buffer::new();
            let seats = seats.format(set.seats()).as_bytes();
            let inside = inside.format(set.people()).as_bytes();
            csv_line(
                alloc,
                &[geoid.as_slice(), name, people, set.label(), seats, inside],
            )
        }
    }
}

/// Appends the lines of the counties `listed`.
fn push_counties(
    out: &mut Vec<u8>,
    sets: &[LabelledSet],
    listed: &[NamedCounty],
) -> Result<(), AllocError>
    ensures { OnOk result (out.new.items ≡ out.old.items ++ county_lines sets.now (map county_name listed.now)) }
{
    let alloc = *out.allocator();
    for county in listed {
        let line = county_line(alloc, sets, county)?;
        out.extend_from_slice(&line)?;
    }
    Ok(())
}

/// Returns the table of the `listed` counties, a comma-separated text (RFC 4180). It has a header, and a line for each
/// county: its code, its name, its people, and the label, the seats and the people of its set. The label of a group is
/// its number from 1. The label of a withdrawn set is `W` and its number from 1. If no set has the county, its last
/// three fields are empty.
///
/// The counties stand in the order in which they are given. `read_counties` gives counties by code.
///
/// # Errors
///
/// Returns `AllocError` if memory was refused.
pub fn county_table(
    alloc: Global,
    listed: &[NamedCounty],
    withdrawn: &[Withdrawn],
    groups: &[Group],
) -> Result<Vec<u8>, AllocError>
    ensures { IfOk result (λ v. v.items ≡ table_text (map county_name listed.now) withdrawn.now groups.now) }
{
    let sets = labelled_sets(alloc, listed, withdrawn, groups)?;
    let mut out = Vec::from_slice(
        alloc,
        b"GEOID,NAME,POPULATION,GROUP,SEATS,GROUP_POPULATION\n",
    )?;
    push_counties(&mut out, &sets, listed)?;
    Ok(out)
}
