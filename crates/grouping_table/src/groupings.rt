//! The long table of several groupings: a header, and for each grouping a line for each county.

ghost use Rattle.std.specs.Prelude.{◌≡◌, ◌++◌, IfOk, OnOk, map};
ghost use Rattle.grouping_table.specs.{Quoting.line_text, Table.unnamed_counties};
ghost use Rattle.grouping_table.specs.GroupingsTable.{grouping_fields, grouping_lines, groupings_lines, groupings_text};
ghost use Rattle.grouping_table.specs.LabelledSets.{labelled_sets as sets_under_labels};
ghost use Rattle.pl94_counties.specs.CountyNames.{county_name};

use crate::csv_lines::csv_line;
use crate::sets::{LabelledSet, labelled_sets, set_of};
use county_codes::{Grouping, Withdrawn, push_code};
use itoa::Buffer;
use pl94_counties::NamedCounty;
use std::alloc::{AllocError, Global};

/// Returns the line of the county `listed` in the grouping of `number`, whose sets are `sets`.
fn county_line(
    alloc: Global,
    sets: &[LabelledSet],
    number: u64,
    listed: &NamedCounty,
) -> Result<Vec<u8>, AllocError>
    ensures { IfOk result (λ v. v.items ≡ line_text (grouping_fields sets.now number (county_name listed.now))) }
{
    let mut geoid = Vec::new(alloc);
    push_code(&mut geoid, listed.county.code)?;
    let mut digits = Buffer::new();
    let number = digits.format(number).as_bytes();
    let name = listed.name.as_bytes();
    match set_of(sets, listed.county.code) {
        None => csv_line(alloc, &[number, geoid.as_slice(), name, b"", b""]),
        Some(set) => {
            let mut seats = Buffer::new();
            let seats = seats.format(set.seats()).as_bytes();
            csv_line(alloc, &[number, geoid.as_slice(), name, set.label(), seats])
        }
    }
}

/// Appends the lines of the counties `listed` in the grouping of `number`, whose sets are `sets`.
fn push_counties(
    out: &mut Vec<u8>,
    sets: &[LabelledSet],
    number: u64,
    listed: &[NamedCounty],
) -> Result<(), AllocError>
    ensures { OnOk result (out.new.items
        ≡ out.old.items ++ grouping_lines sets.now number (map county_name listed.now)) }
{
    let alloc = *out.allocator();
    for county in listed {
        let line = county_line(alloc, sets, number, county)?;
        out.extend_from_slice(&line)?;
    }
    Ok(())
}

/// Appends the lines of `grouping`, whose number is `number`.
fn push_grouping(
    out: &mut Vec<u8>,
    listed: &[NamedCounty],
    withdrawn: &[Withdrawn],
    number: u64,
    grouping: &Grouping,
) -> Result<(), AllocError>
    ensures { OnOk result (out.new.items
        ≡ out.old.items ++ grouping_lines
        (sets_under_labels (unnamed_counties (map county_name listed.now)) withdrawn.now grouping.now.groups.items)
        number (map county_name listed.now)) }
{
    let alloc = *out.allocator();
    let sets = labelled_sets(alloc, listed, withdrawn, &grouping.groups)?;
    push_counties(out, &sets, number, listed)
}

/// Appends the lines of `groupings` under their numbers.
fn push_groupings(
    out: &mut Vec<u8>,
    listed: &[NamedCounty],
    withdrawn: &[Withdrawn],
    groupings: &[Grouping],
) -> Result<(), AllocError>
    ensures { OnOk result (out.new.items
        ≡ out.old.items ++ groupings_lines (map county_name listed.now) withdrawn.now 1
        (map (λ g. g.groups.items) groupings.now)) }
{
    for (i, grouping) in groupings.iter().enumerate() {
        push_grouping(out, listed, withdrawn, i as u64 + 1, grouping)?;
    }
    Ok(())
}

/// Returns the long table of `groupings`, a comma-separated text (RFC 4180): a header, and for each grouping in turn a
/// line for each county of `listed`. A line has the number of the grouping, from 1, and the county's code and name.
/// Then come the label and the seats of the county's set, labelled as in `county_table`. If no set has the county,
/// these two fields are empty.
///
/// The counties stand in the order in which they are given. Each grouping has the sets of `withdrawn` besides its own.
///
/// # Errors
///
/// Returns `AllocError` if memory was refused.
pub fn groupings_table(
    alloc: Global,
    listed: &[NamedCounty],
    withdrawn: &[Withdrawn],
    groupings: &[Grouping],
) -> Result<Vec<u8>, AllocError>
    ensures { IfOk result (λ v. v.items
        ≡ groupings_text (map county_name listed.now) withdrawn.now (map (λ g. g.groups.items) groupings.now)) }
{
    let mut out = Vec::from_slice(alloc, b"GROUPING,GEOID,NAME,GROUP,SEATS\n")?;
    push_groupings(&mut out, listed, withdrawn, groupings)?;
    Ok(out)
}
