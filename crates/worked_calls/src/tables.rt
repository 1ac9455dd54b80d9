//! The table of a small state: names with and without quotes, a withdrawn set, and a county of no set.

use anyhow::{Context, Result};
use county_codes::{Codes, County, CountyCode, Group, Withdrawn};
use grouping_table::county_table;
use pl94_counties::NamedCounty;

/// Returns the county code of this `number`.
fn code(number: u32) -> Result<CountyCode> {
    CountyCode::new(number).context("a code")
}

/// Returns the county codes of these `numbers`, as a list.
fn codes(rt: &HostRuntime, numbers: &[u32]) -> Result<Codes> {
    let mut list = Vec::new(rt.alloc());
    for number in numbers {
        list.push(code(*number)?)?;
    }
    Ok(Codes::new(list))
}

/// Builds a county with its `people` and its `name`.
fn named(rt: &HostRuntime, number: u32, people: u32, name: &str) -> Result<NamedCounty> {
    Ok(NamedCounty {
        county: County {
            code: code(number)?,
            people,
        },
        name: String::from_str(rt.alloc(), name)?,
    })
}

/// Builds counties whose names call for no quotes, for each kind of quotes, and for both ways of quoting.
fn listed(rt: &HostRuntime) -> Result<Vec<NamedCounty>> {
    let mut counties = Vec::new(rt.alloc());
    for (number, people, name) in [
        (37_001, 100, "Alamance County"),
        (37_003, 200, "Alexander, the \"first\""),
        (37_005, 300, ""),
        (37_007, 4_294_967_295, "Anson\nCounty"),
        (37_009, 500, "Ashe\rCounty"),
        (37_011, 600, "Doña Ana"),
    ] {
        counties.push(named(rt, number, people, name)?)?;
    }
    Ok(counties)
}

/// Prints the table of the `withdrawn` sets and the `groups`.
fn show_table(rt: &HostRuntime, withdrawn: &[Withdrawn], groups: &[Group]) -> Result<()> {
    let text = county_table(rt.alloc(), &listed(rt)?, withdrawn, groups)?;
    print!(rt; "{}", str::from_utf8(&text)?)?;
    Ok(())
}

/// Prints a table of two groups and a withdrawn set, and one without any set.
pub(crate) fn show(rt: &HostRuntime) -> Result<()> {
    let mut groups = Vec::new(rt.alloc());
    groups.push(Group {
        seats: 2,
        codes: codes(rt, &[37_003, 37_007])?,
    })?;
    groups.push(Group {
        seats: 1,
        codes: codes(rt, &[37_001])?,
    })?;
    let mut withdrawn = Vec::new(rt.alloc());
    withdrawn.push(Withdrawn {
        seats: 3,
        codes: codes(rt, &[37_005, 37_009])?,
    })?;
    show_table(rt, &withdrawn, &groups)?;
    show_table(rt, &[], &[])
}
