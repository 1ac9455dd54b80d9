//! Withdrawn sets and groups, as the table labels them.

ghost use Rattle.std.specs.Prelude.{◌≡◌, ◌++◌, IfOk, OnOk, map, codes as bytes_of, decimal};
ghost use Rattle.std.specs.Option.{option_copied};
ghost use Rattle.place_sets.specs.Lists.{contains};
ghost use Rattle.pl94_counties.specs.CountyNames.{county_name};
ghost use Rattle.grouping_table.specs.Table.{unnamed_counties};
ghost use Rattle.grouping_table.specs.LabelledSets.{people_of_set as people_of_set, set_under, numbered_groups};
ghost use Rattle.grouping_table.specs.LabelledSets.{numbered_withdrawn, labelled_sets as sets_under_labels};
ghost use Rattle.grouping_table.specs.LabelledSets.{set_of_code as set_of_code};

use county_codes::{Codes, CountyCode, Group, Withdrawn, has_code};
use field_lines::push_number;
use pl94_counties::NamedCounty;
use std::alloc::{AllocError, Global};
use std::marker::Model;

/// A set of counties with its label, its seats and its people.
#[derive(Drop)]
pub(crate) struct LabelledSet {
    label: Vec<u8>,
    seats: u16,
    people: u128,
    codes: Codes,
}

impl Model for LabelledSet {
    ghost use Rattle.grouping_table.specs.LabelledSets.{SetValue};

    ghost Value = { SetValue };

    ghost view = { λ s. record { label = s.label.items; seats = s.seats; people = s.people; codes = s.codes } };
}

impl LabelledSet {
    /// Returns the label.
    pub(crate) fn label(&self) -> &[u8]
        ensures { result.now ≡ self.now.label }
    {
        self.label.as_slice()
    }

    /// Returns the seats.
    pub(crate) fn seats(&self) -> u16
        ensures { result ≡ self.now.seats }
    {
        self.seats
    }

    /// Returns the people.
    pub(crate) fn people(&self) -> u128
        ensures { result ≡ self.now.people }
    {
        self.people
    }

    /// Returns whether the set has the county of this `code`.
    fn has(&self, code: CountyCode) -> bool
        ensures { result ≡ contains self.now.codes code }
    {
        has_code(self.codes.as_slice(), code)
    }
}

/// Returns the people of the `listed` counties in a set of these `codes`. A `u128` holds the people of any list of
/// counties.
fn people_inside(listed: &[NamedCounty], codes: &[CountyCode]) -> u128
    ensures { result ≡ people_of_set (unnamed_counties (map county_name listed.now)) codes.now }
{
    let mut people = 0;
    for named in listed {
        if has_code(codes, named.county.code) {
            people += u128::from(named.county.people);
        }
    }
    people
}

/// Returns the set of `codes`, labelled with `mark` and `number`. Its people are those of its `listed` counties.
fn numbered_set(
    alloc: Global,
    listed: &[NamedCounty],
    mark: &[u8],
    number: u64,
    seats: u16,
    codes: Codes,
) -> Result<LabelledSet, AllocError>
    ensures { IfOk result (λ s. s
        ≡ set_under (unnamed_counties (map county_name listed.now)) (mark.now ++ decimal number) seats codes) }
{
    let mut label = Vec::from_slice(alloc, mark)?;
    push_number(&mut label, number)?;
    let people = people_inside(listed, codes.as_slice());
    Ok(LabelledSet {
        label,
        seats,
        people,
        codes,
    })
}

/// Appends the `withdrawn` sets, labelled with `W` and their numbers from 1.
fn push_withdrawn(
    sets: &mut Vec<LabelledSet>,
    listed: &[NamedCounty],
    withdrawn: &[Withdrawn],
) -> Result<(), AllocError>
    ensures { OnOk result (sets.new.items
        ≡ sets.old.items ++ numbered_withdrawn (unnamed_counties (map county_name listed.now)) 1 withdrawn.now) }
{
    let alloc = *sets.allocator();
    for (i, set) in withdrawn.iter().enumerate() {
        let codes = set.codes.copy()?;
        let set = numbered_set(alloc, listed, b"W", i as u64 + 1, set.seats, codes)?;
        sets.push(set)?;
    }
    Ok(())
}

/// Appends `groups`, labelled with their numbers from 1.
fn push_groups(
    sets: &mut Vec<LabelledSet>,
    listed: &[NamedCounty],
    groups: &[Group],
) -> Result<(), AllocError>
    ensures { OnOk result (sets.new.items
        ≡ sets.old.items ++ numbered_groups (unnamed_counties (map county_name listed.now)) 1 groups.now) }
{
    let alloc = *sets.allocator();
    for (i, group) in groups.iter().enumerate() {
        let codes = group.codes.copy()?;
        let set = numbered_set(alloc, listed, b"", i as u64 + 1, group.seats, codes)?;
        sets.push(set)?;
    }
    Ok(())
}

/// Returns the `withdrawn` sets and then the `groups`, each numbered from 1.
pub(crate) fn labelled_sets(
    alloc: Global,
    listed: &[NamedCounty],
    withdrawn: &[Withdrawn],
    groups: &[Group],
) -> Result<Vec<LabelledSet>, AllocError>
    ensures { IfOk result (λ v. v.items
        ≡ sets_under_labels (unnamed_counties (map county_name listed.now)) withdrawn.now groups.now) }
{
    let mut sets = Vec::new(alloc);
    push_withdrawn(&mut sets, listed, withdrawn)?;
    push_groups(&mut sets, listed, groups)?;
    Ok(sets)
}

/// Returns the first of `sets` that has the county of this `code`, if one has it.
pub(crate) fn set_of(sets: &[LabelledSet], code: CountyCode) -> Option<&LabelledSet>
    ensures { option_copied result ≡ set_of_code sets.now code }
{
    sets.iter().find(|set| set.has(code))
}
