//! The districts of a plan: the people of each, and the sets and the counties in which it has census blocks.

ghost use Rattle.std.specs.{Prelude.{◌≡◌, ◌<◌, ◌≤◌, ◌++◌, All, IfOk, OnOk, length, map}, List.filter_map};
ghost use Rattle.std.specs.{List.Sorted.{IsStrictlyIncreasing, IsStrictlySortedBy}, Option.option_to_list};
ghost use Rattle.std.specs.{Ordering.nat_cmp, Cmp.Lexicographic.slice_cmp, BTreeMap.keys};
ghost use Rattle.field_lines.specs.Fault.{most_lines};
ghost use Rattle.baf_auditor.specs.{Findings.plan_of, Districts.{name_at, of_label, IsListedBy, AreListedBy}};
ghost use Rattle.baf_auditor.specs.DistrictList.{AreDistricts};

use crate::assignments::Assignment;
use crate::block_list::listed_blocks;
use crate::crossings::set_at;
use crate::district::District;
use crate::district_blocks::given_blocks;
use crate::district_counties::{given_counties, listed_counties};
use crate::district_sets::{listed_places, standing_places};
use crate::finding::Set;
use crate::label::Label;
use crate::lines_by_block::lines_by_block;
use crate::sizes::people_by_label;
use county_codes::{CountyCode, Grouping};
use county_problem::Problem;
use pl94_counties::Block;
use std::alloc::{AllocError, Global};
use std::collections::BTreeMap;

/// Adds the set at the place of `key` to the sets of a district, if `key` has its label.
fn add_set(
    sets: &mut Vec<Set>,
    groups: usize,
    label: &Label,
    key: &(Label, usize),
) -> Result<(), AllocError>
    requires { key.now.1 < 4294967295 }
    ensures { OnOk result (sets.new.items
        ≡ sets.old.items ++ option_to_list (of_label (name_at groups) label.now key.now)) }
{
    if key.0 == *label {
        sets.push(set_at(groups, key.1))?;
    }
    Ok(())
}

/// Returns the sets in which the district of `label` has blocks, in their order.
fn sets_of_label(
    alloc: Global,
    groups: usize,
    label: &Label,
    standing: &[(Label, usize)],
) -> Result<Vec<Set>, AllocError>
    requires { All (λ k. k.1 < 4294967295) standing.now }
    ensures { IfOk result (λ v. v.items ≡ filter_map (of_label (name_at groups) label.now) standing.now) }
{
    let mut sets = Vec::new(alloc);
    for key in standing {
        add_set(&mut sets, groups, label, key)?;
    }
    Ok(sets)
}

/// Returns the county of `key`, if `key` has this `label`.
fn county_of_label(label: &Label, key: &(Label, CountyCode)) -> Option<CountyCode>
    ensures { result ≡ of_label (λ county. county) label.now key.now }
{
    if key.0 == *label { Some(key.1) } else { None }
}

/// Returns the counties in which the district of `label` has blocks, by code.
fn counties_of_label(
    alloc: Global,
    label: &Label,
    counties: &[(Label, CountyCode)],
) -> Result<Vec<CountyCode>, AllocError>
    ensures { IfOk result (λ v. v.items ≡ filter_map (of_label (λ county. county) label.now) counties.now) }
{
    counties
        .iter()
        .filter_map(|key| county_of_label(label, key))
        .collect(alloc)
}

/// Returns the district of `label` with its `people`, its sets and its counties.
fn district_of_label(
    alloc: Global,
    groups: usize,
    label: &Label,
    people: u64,
    standing: &[(Label, usize)],
    counties: &[(Label, CountyCode)],
) -> Result<District, AllocError>
    requires { All (λ k. k.1 < 4294967295) standing.now }
    ensures label { IfOk result (λ d. d.label ≡ label.now) }
    ensures people { IfOk result (λ d. d.people ≡ people) }
    ensures listed { IfOk result (λ d. IsListedBy groups standing.now counties.now d) }
{
    Ok(District {
        label: label.copy()?,
        people,
        sets: sets_of_label(alloc, groups, label, standing)?,
        counties: counties_of_label(alloc, label, counties)?,
    })
}

/// Returns the district of each label of `sums`, by label. `sums` has the people of each district.
fn list_districts(
    alloc: Global,
    groups: usize,
    sums: &BTreeMap<Label, u64>,
    standing: &[(Label, usize)],
    counties: &[(Label, CountyCode)],
) -> Result<Vec<District>, AllocError>
    requires { All (λ k. k.1 < 4294967295) standing.now }
    ensures districts { IfOk result (λ v. AreListedBy groups standing.now counties.now sums.now.entries v.items) }
    ensures ordered { IsStrictlySortedBy (slice_cmp nat_cmp) (keys sums.now) }
{
    let mut districts = Vec::new(alloc);
    for (label, people) in sums {
        let district = district_of_label(alloc, groups, label, *people, standing, counties)?;
        districts.push(district)?;
    }
    Ok(districts)
}

/// The most groups of a grouping whose plan is listed: those of a text of most lines.
const MOST_GROUPS: usize = 16_777_216;

/// Returns the districts of the plan that `lines` give, as `districts` does, for a `grouping` of at most 16,777,216
/// groups.
fn districts_of_few(
    alloc: Global,
    problem: &Problem,
    grouping: &Grouping,
    blocks: &[Block],
    lines: &[Assignment],
) -> Result<Vec<District>, AllocError>
    requires fits { All (λ block. block.code < 1000000000000000) blocks.now }
    requires ascending { IsStrictlyIncreasing (map (λ block. block.code) blocks.now) }
    requires few { length lines.now ≤ 4000000 }
    requires few_groups { length grouping.now.groups.items ≤ most_lines }
    ensures { IfOk result (λ v. AreDistricts (plan_of problem.now grouping.now.groups.items blocks.now lines.now) v.items) }
{
    let listed = listed_blocks(alloc, problem, grouping, blocks)?;
    let ordered = lines_by_block(alloc, lines)?;
    let found = given_blocks(alloc, listed, ordered)?;
    let given = found.as_slice();
    let sums = people_by_label(alloc, given)?;
    let places = standing_places(alloc, problem, grouping, given)?;
    let standing = listed_places(alloc, places)?;
    let pairs = given_counties(alloc, given)?;
    let counties = listed_counties(alloc, pairs)?;
    list_districts(alloc, grouping.groups.len(), &sums, &standing, &counties)
}

/// Returns the districts of a plan by label: the people of each, and the sets and the counties in which it has blocks.
/// A district is a label that some line gives to a listed block. Its people are those of its listed blocks, each block
/// once. A block stands in the first set that has its county, groups before withdrawn sets. If its county is in no set,
/// it counts as not listed. The grouping may be unlawful.
///
/// The blocks ascend by code, as `read_blocks` gives them. There are at most 4,000,000 `lines`, as `read_assignments`
/// gives them.
///
/// # Errors
///
/// Returns `AllocError` if memory was refused. Returns it too if the grouping has more than 16,777,216 groups, which no
/// text gives.
pub fn districts(
    alloc: Global,
    problem: &Problem,
    grouping: &Grouping,
    blocks: &[Block],
    lines: &[Assignment],
) -> Result<Vec<District>, AllocError>
    requires fits { All (λ block. block.code < 1000000000000000) blocks.now }
    requires ascending { IsStrictlyIncreasing (map (λ block. block.code) blocks.now) }
    requires few { length lines.now ≤ 4000000 }
    ensures { IfOk result (λ v. AreDistricts (plan_of problem.now grouping.now.groups.items blocks.now lines.now) v.items) }
{
    if grouping.groups.len() > MOST_GROUPS {
        return Err(AllocError);
    }
    districts_of_few(alloc, problem, grouping, blocks, lines)
}
