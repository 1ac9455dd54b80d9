//! The counties that were found on the lines of a table, by code.

ghost use Rattle.std.specs.Prelude.{◌≡◌, ◌≤◌, ◌==◌, ◌/◌, IfOk, length, map};
ghost use Rattle.std.specs.List.{insert};
ghost use Rattle.field_lines.specs.Values.{GivesUnless};
ghost use Rattle.pl94_counties.specs.CountyNames.{CountyName, county_name};
ghost use Rattle.people_table.specs.CountyLines.{named_county};
ghost use Rattle.people_table.specs.Listed.{is_of_state, has_county as has_county_of, put_county as with_put, with_county};
ghost use Rattle.people_table.specs.declared.fault.PeopleKind.TheVariants.{Memory};

use crate::fault::PeopleKind;
use county_codes::{County, CountyCode};
use pl94_counties::NamedCounty;
use std::alloc::{AllocError, Global};
use std::marker::Model;

/// A county on a line of a table.
#[derive(Drop)]
pub(crate) struct FoundCounty {
    county: NamedCounty,
}

impl Model for FoundCounty {
    ghost use Rattle.pl94_counties.specs.CountyNames.{CountyName, county_name};

    /// The county with the bytes of its name.
    ghost Value = { CountyName };

    ghost view = { λ s. county_name s.county };
}

impl FoundCounty {
    /// Creates the county with this `code`, these `people` and this `name`.
    pub(crate) fn new(
        alloc: Global,
        code: CountyCode,
        people: u32,
        name: &str,
    ) -> Result<Self, AllocError>
        ensures { IfOk result (λ f. f ≡ named_county code people name.now) }
    {
        Ok(FoundCounty {
            county: NamedCounty {
                county: County { code, people },
                name: String::from_str(alloc, name)?,
            },
        })
    }

    /// Returns the code.
    fn code(&self) -> CountyCode
        ensures { result ≡ self.now.county.code }
    {
        self.county.county.code
    }

    /// Returns the county without its name.
    fn county(&self) -> County
        ensures { result ≡ self.now.county }
    {
        self.county.county
    }

    /// Returns the county with its name.
    fn named(&self, alloc: Global) -> Result<NamedCounty, AllocError>
        ensures { IfOk result (λ n. county_name n ≡ self.now) }
    {
        Ok(NamedCounty {
            county: self.county.county,
            name: String::from_str(alloc, self.county.name.as_str())?,
        })
    }

    /// Returns whether the county's code begins with the two digits of `state`.
    fn is_of(&self, state: u8) -> bool
        ensures { result ≡ is_of_state state self.now }
    {
        self.code().get() / 1000 == u32::from(state)
    }
}

/// Returns whether one of the counties `found` has the `code`.
fn has_county(found: &[FoundCounty], code: CountyCode) -> bool
    ensures { result ≡ has_county_of code found.now }
{
    found.iter().any(|f| f.code() == code)
}

/// Returns the index of the first of the counties `found` that has a code greater than `code`. Returns how many there
/// are if none has.
fn place_of(found: &[FoundCounty], code: CountyCode) -> usize
    ensures within { result ≤ length found.now }
    ensures place { (k : CountyName) → k.county.code ≡ code → insert found.now result k ≡ with_put k found.now }
{
    for (i, other) in found.iter().enumerate() {
        if code < other.code() {
            return i;
        }
    }
    found.len()
}

/// Puts `county` beside the counties `found` on the lines before, in the order of their codes. A county of another
/// state than `state` is passed over.
///
/// # Errors
///
/// Returns `DoubleCounty` if the county's code stood before, and `Memory` if memory was refused.
pub(crate) fn add_county(
    found: &mut Vec<FoundCounty>,
    state: u8,
    county: FoundCounty,
) -> Result<(), PeopleKind>
    ensures { GivesUnless (λ k. k ≡ Memory) (λ _. found.new.items) result (with_county state found.old.items county) }
{
    if !county.is_of(state) {
        return Ok(());
    }
    let code = county.code();
    if has_county(found, code) {
        return Err(PeopleKind::DoubleCounty);
    }
    let place = place_of(found, code);
    found.insert(place, county)?;
    Ok(())
}

/// Returns the counties `found` with their names, in the same order.
pub(crate) fn named_counties(
    alloc: Global,
    found: &[FoundCounty],
) -> Result<Vec<NamedCounty>, AllocError>
    ensures { IfOk result (λ v. map county_name v.items ≡ found.now) }
{
    let mut named = Vec::new(alloc);
    for county in found {
        named.push(county.named(alloc)?)?;
    }
    Ok(named)
}

/// Returns the counties `found` without their names, in the same order.
pub(crate) fn counties(alloc: Global, found: &[FoundCounty]) -> Result<Vec<County>, AllocError>
    ensures { IfOk result (λ v. v.items ≡ map (λ k. k.county) found.now) }
{
    found.iter().map(|county| county.county()).collect(alloc)
}
