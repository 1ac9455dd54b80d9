//! The text of a list of groupings, as a whole.

ghost use Rattle.std.specs.Prelude.{◌≡◌, ℕ, ◌++◌, ◌≤◌, List, length, map, IfOk, OnOk};
ghost use Rattle.county_codes.specs.Counties.{codes_of};
ghost use Rattle.list_report.specs.{SharedSets.shared_sets, Listing.{body_text, listing_text, regions_found}};

use crate::alternatives::{Region, regions_with};
use crate::regions::regions_between;
use crate::sets::{Sets, listed_sets};
use crate::shared_sets::{not_shared, shared_by_all};
use crate::texts::{push_choices, push_regions, push_shared};
use county_codes::{Codes, County, Grouping};
use county_problem::Problem;
use grouping_report::{push_answer, push_counts, push_head};
use std::alloc::{AllocError, Global};

/// Returns the regions of those of the `counties` that no `shared` set has, each with its alternatives in the `listed`
/// groupings. The `shared` sets are those that all `listed` groupings have.
pub(crate) fn found_regions(
    alloc: Global,
    counties: &[County],
    listed: &[Sets],
    shared: &[Codes],
) -> Result<Vec<Region>, AllocError>
    requires { shared.now ≡ shared_sets listed.now }
    ensures { IfOk result (λ v. v.items ≡ regions_found (codes_of counties.now) listed.now) }
{
    let unshared = not_shared(alloc, shared, listed)?;
    let parts = regions_between(alloc, counties, shared, &unshared)?;
    regions_with(alloc, listed, &parts)
}

/// Appends the part of the text that stands behind the counts: the shared sets of the `listed` groupings, the regions,
/// and the alternatives of each grouping. At least one grouping is listed.
fn push_body(
    alloc: Global,
    out: &mut Vec<u8>,
    problem: &Problem,
    listed: &[Sets],
) -> Result<(), AllocError>
    requires { 1 ≤ length listed.now }
    ensures { OnOk result (out.new.items ≡ out.old.items ++ body_text problem.now listed.now) }
{
    let shared = shared_by_all(alloc, listed)?;
    let regions = found_regions(alloc, problem.counties(), listed, &shared)?;
    push_shared(out, problem, listed.len(), &shared)?;
    push_regions(out, problem, &regions)?;
    push_choices(alloc, out, &regions, listed)
}

/// Returns the text of a list of `groupings` for `problem`. There is at least one grouping.
///
/// The text begins with the problem's people, chamber, seats left and counties, `answer all`, and the counts of the
/// first grouping. Then it says how many groupings are listed, and gives the groups that all of them share.
///
/// The counties of no shared group fall into regions, which chains of the other groups join. For each region, the
/// different choices of the listed groupings follow. The last line says that each combination of alternatives is
/// listed, or else a line for each grouping says which alternatives it has.
///
/// The groups of each grouping stand in the same order, so that equal groups have equal lists of codes. Whether the
/// groupings are best, or all that are best, is reported as the caller says it.
///
/// # Errors
///
/// Returns `AllocError` if memory was refused.
pub fn listing(
    alloc: Global,
    problem: &Problem,
    groupings: &[Grouping],
) -> Result<Vec<u8>, AllocError>
    requires { 1 ≤ length groupings.now }
    ensures { IfOk result (λ v. v.items ≡ listing_text problem.now (map (λ g. g.groups.items) groupings.now)) }
{
    let listed = listed_sets(alloc, groupings)?;
    let mut out = Vec::new(alloc);
    push_head(&mut out, problem)?;
    push_answer(&mut out, b"all")?;
    push_counts(&mut out, groupings[0].groups.as_slice())?;
    push_body(alloc, &mut out, problem, &listed)?;
    Ok(out)
}
