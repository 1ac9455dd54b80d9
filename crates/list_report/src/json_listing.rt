//! The object of a list of groupings.

ghost use Rattle.std.specs.Prelude.{◌≡◌, ◌++◌, ◌∷◌, ◌≤◌, [], IfOk, codes, length, map, option_map};
ghost use Rattle.json.specs.Token.{boolean, key};
ghost use Rattle.grouping_laws.specs.Grouping.{sets_of};
ghost use Rattle.pl94_counties.specs.CountyNames.{county_name};
ghost use Rattle.json_report.specs.Parts.{Adds};
ghost use Rattle.list_report.specs.ListingObject.{alternative_object, alternative_objects, body_members, choice_numbers, choice_object, choice_objects, choices_members, listing_json as listing_object, listing_members, region_object, region_objects, set_object, set_objects, sets_tokens, which_member};

use crate::alternatives::{Region, alternative_number, has_product, inside};
use crate::listings::found_regions;
use crate::sets::{Sets, listed_sets};
use crate::shared_sets::shared_by_all;
use crate::texts::people_of;
use county_codes::{Codes, CountyCode, Grouping};
use county_problem::Problem;
use json::Writer;
use json_report::{
    begin, finish, push_answer, push_codes, push_counts, push_head, push_number, push_seats,
};
use pl94_counties::NamedCounty;
use std::alloc::{AllocError, Global};

/// Appends the object of `set`, with the `run` of seats that its `people` suit.
fn push_set(
    out: &mut Writer,
    run: Option<(u16, u16)>,
    people: u64,
    set: &[CountyCode],
) -> Result<(), AllocError>
    ensures { Adds result out.old out.new (set_object run people set.now) }
{
    out.begin_object()?;
    push_seats(out, run)?;
    push_number(out, "people", people)?;
    out.key("counties")?;
    push_codes(out, set)?;
    out.end_object()
}

/// Appends the objects of the `sets`, each with the seats that its people suit in `problem`.
fn push_each_set(out: &mut Writer, problem: &Problem, sets: &[Codes]) -> Result<(), AllocError>
    ensures { Adds result out.old out.new (set_objects problem.now sets.now) }
{
    for set in sets {
        let people = people_of(problem, set.as_slice());
        push_set(out, problem.seats_range(people), people, set.as_slice())?;
    }
    Ok(())
}

/// Appends an array of the `sets`, each with the seats that its people suit in `problem`.
fn push_sets(out: &mut Writer, problem: &Problem, sets: &[Codes]) -> Result<(), AllocError>
    ensures { Adds result out.old out.new (sets_tokens problem.now sets.now) }
{
    out.begin_array()?;
    push_each_set(out, problem, sets)?;
    out.end_array()
}

/// Appends the object of an alternative: its `number`, and its `sets`.
fn push_alternative(
    out: &mut Writer,
    problem: &Problem,
    number: u64,
    sets: &[Codes],
) -> Result<(), AllocError>
    ensures { Adds result out.old out.new (alternative_object problem.now number sets.now) }
{
    out.begin_object()?;
    push_number(out, "alternative", number)?;
    out.key("groups")?;
    push_sets(out, problem, sets)?;
    out.end_object()
}

/// Appends the objects of the `alternatives` of a region, numbered from 1.
fn push_alternatives(
    out: &mut Writer,
    problem: &Problem,
    alternatives: &[Sets],
) -> Result<(), AllocError>
    ensures { Adds result out.old out.new (alternative_objects problem.now 1 alternatives.now) }
{
    for (i, sets) in alternatives.iter().enumerate() {
        push_alternative(out, problem, i as u64 + 1, sets.as_slice())?;
    }
    Ok(())
}

/// Appends the object of `region`: its `number`, its counties, and its alternatives.
fn push_region(
    out: &mut Writer,
    problem: &Problem,
    number: u64,
    region: &Region,
) -> Result<(), AllocError>
    ensures { Adds result out.old out.new (region_object problem.now number region.now) }
{
    out.begin_object()?;
    push_number(out, "region", number)?;
    out.key("counties")?;
    push_codes(out, region.counties.as_slice())?;
    out.key("alternatives")?;
    out.begin_array()?;
    push_alternatives(out, problem, region.alternatives.as_slice())?;
    out.end_array()?;
    out.end_object()
}

/// Appends the objects of the `regions`, numbered from 1.
fn push_regions(out: &mut Writer, problem: &Problem, regions: &[Region]) -> Result<(), AllocError>
    ensures { Adds result out.old out.new (region_objects problem.now 1 regions.now) }
{
    for (i, region) in regions.iter().enumerate() {
        push_region(out, problem, i as u64 + 1, region)?;
    }
    Ok(())
}

/// Appends the numbers of the alternatives that a grouping with these `sets` has, one for each of the `regions`.
fn push_numbers(
    alloc: Global,
    out: &mut Writer,
    regions: &[Region],
    sets: &[Codes],
) -> Result<(), AllocError>
    ensures { Adds result out.old out.new (choice_numbers regions.now sets.now) }
{
    for region in regions {
        let choice = inside(alloc, region.counties.as_slice(), sets)?;
        let number = alternative_number(region.alternatives.as_slice(), &choice);
        out.u64(number as u64)?;
    }
    Ok(())
}

/// Appends the object of a grouping with these `sets`: its `number`, and that of its alternative for each of the
/// `regions`.
fn push_choice(
    alloc: Global,
    out: &mut Writer,
    regions: &[Region],
    number: u64,
    sets: &[Codes],
) -> Result<(), AllocError>
    ensures { Adds result out.old out.new (choice_object regions.now number sets.now) }
{
    out.begin_object()?;
    push_number(out, "grouping", number)?;
    out.key("alternatives")?;
    out.begin_array()?;
    push_numbers(alloc, out, regions, sets)?;
    out.end_array()?;
    out.end_object()
}

/// Appends the objects of the `listed` groupings, with their alternatives for the `regions`. The groupings are
/// numbered from 1.
fn push_choices(
    alloc: Global,
    out: &mut Writer,
    regions: &[Region],
    listed: &[Sets],
) -> Result<(), AllocError>
    ensures { Adds result out.old out.new (choice_objects regions.now 1 listed.now) }
{
    for (i, sets) in listed.iter().enumerate() {
        push_choice(alloc, out, regions, i as u64 + 1, sets.as_slice())?;
    }
    Ok(())
}

/// Appends whether each combination of alternatives is listed, as `every` says.
fn push_every(out: &mut Writer, every: bool) -> Result<(), AllocError>
    ensures { Adds result out.old out.new (key (codes "every_choice") ∷ boolean every ∷ []) }
{
    out.key("every_choice")?;
    out.boolean(every)
}

/// Appends whether each combination of alternatives of the `regions` is listed. If not, the alternatives of each
/// `listed` grouping follow. At least one grouping is listed.
fn push_all_choices(
    alloc: Global,
    out: &mut Writer,
    regions: &[Region],
    listed: &[Sets],
) -> Result<(), AllocError>
    requires { 1 ≤ length listed.now }
    ensures { Adds result out.old out.new (choices_members regions.now listed.now) }
{
    if has_product(regions, listed.len()) {
        return push_every(out, true);
    }
    push_every(out, false)?;
    out.key("groupings")?;
    out.begin_array()?;
    push_choices(alloc, out, regions, listed)?;
    out.end_array()
}

/// Appends the members behind the counts: how many groupings are `listed`, the sets that they share, the regions, and
/// the alternatives of each grouping. At least one grouping is listed.
fn push_body(
    alloc: Global,
    out: &mut Writer,
    problem: &Problem,
    listed: &[Sets],
) -> Result<(), AllocError>
    requires { 1 ≤ length listed.now }
    ensures { Adds result out.old out.new (body_members problem.now listed.now) }
{
    let shared = shared_by_all(alloc, listed)?;
    let regions = found_regions(alloc, problem.counties(), listed, &shared)?;
    push_number(out, "best_groupings", listed.len() as u64)?;
    out.key("shared_groups")?;
    push_sets(out, problem, &shared)?;
    out.key("regions")?;
    out.begin_array()?;
    push_regions(out, problem, &regions)?;
    out.end_array()?;
    push_all_choices(alloc, out, &regions, listed)
}

/// Appends the members of a list of `groupings`. There is at least one grouping.
fn push_listing(
    alloc: Global,
    out: &mut Writer,
    problem: &Problem,
    groupings: &[Grouping],
) -> Result<(), AllocError>
    requires { 1 ≤ length groupings.now }
    ensures { Adds result out.old out.new
        (listing_members problem.now (map sets_of (map (λ g. g.groups.items) groupings.now))) }
{
    let listed = listed_sets(alloc, groupings)?;
    push_answer(out, "all")?;
    push_head(out, problem)?;
    out.key("counts")?;
    push_counts(out, groupings[0].groups.as_slice())?;
    push_body(alloc, out, problem, &listed)
}

/// Appends the number of a grouping, or null if it isn't listed. Appends nothing if `which` is `None`, as no number is
/// asked for.
fn push_which(out: &mut Writer, which: Option<Option<u64>>) -> Result<(), AllocError>
    ensures { Adds result out.old out.new (which_member which) }
{
    match which {
        None => Ok(()),
        Some(None) => {
            out.key("number")?;
            out.null()
        }
        Some(Some(number)) => push_number(out, "number", number),
    }
}

/// Appends the members of a list of `groupings`, and the number that `which` asks for. There is at least one grouping.
fn push_members(
    alloc: Global,
    out: &mut Writer,
    problem: &Problem,
    groupings: &[Grouping],
    which: Option<Option<u64>>,
) -> Result<(), AllocError>
    requires { 1 ≤ length groupings.now }
    ensures { Adds result out.old out.new
        (listing_members problem.now (map sets_of (map (λ g. g.groups.items) groupings.now)) ++ which_member which) }
{
    push_listing(alloc, out, problem, groupings)?;
    push_which(out, which)
}

/// Returns a list of `groupings` for `problem` as an object on one line, with what `listing` tells of it. There is at
/// least one grouping.
///
/// If a number is asked for, `which` is `Some`, and the member `number` has the number of a grouping from 1, or null if
/// the grouping isn't listed. The names of the counties in `named` stand last, if they have names.
///
/// # Errors
///
/// Returns `AllocError` if memory was refused.
pub fn listing_json(
    alloc: Global,
    problem: &Problem,
    named: &Option<Vec<NamedCounty>>,
    groupings: &[Grouping],
    which: Option<Option<u64>>,
) -> Result<Vec<u8>, AllocError>
    requires { 1 ≤ length groupings.now }
    ensures { IfOk result (λ v. v.items ≡ listing_object problem.now (option_map (λ v. map county_name v.items) named.now) (map (λ g. g.groups.items) groupings.now) which) }
{
    let mut out = begin(alloc)?;
    push_members(alloc, &mut out, problem, groupings, which)?;
    finish(out, named)
}
