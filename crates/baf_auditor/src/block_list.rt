//! The listed census blocks with their people, and the set of counties in which a block lies.

ghost use Rattle.std.specs.Prelude.{◌≡◌, ◌<◌, ◌+◌, ◌++◌, ℕ, Some, IfOk, IfSome, OnOk, All, length, map};
ghost use Rattle.std.specs.{List.position_from, Option.option_to_list};
ghost use Rattle.std.specs.{List.Sorted.{IsStrictlyIncreasing, IsStrictlySortedBy}, Ordering.nat_cmp};
ghost use Rattle.std.specs.{Map.lookup, BTreeMap.is_at};
ghost use Rattle.grouping_laws.specs.Sets.{contains};
ghost use Rattle.baf_auditor.specs.{Findings.{county_of_block, drawn_sets}, Listing.{place_of, entry_in, listing}};

use county_codes::{CountyCode, Group, Grouping, Withdrawn, has_code};
use county_problem::Problem;
use pl94_counties::Block;
use std::alloc::{AllocError, Global};

/// What a block's number is divided by to give its county's.
const BLOCKS_OF_COUNTY: u64 = 10_000_000_000;

/// Returns the county of the block `code`: the first five of its fifteen digits. It is never `None`.
pub(crate) fn county_of_block(code: u64) -> Option<CountyCode>
    requires { code < 1000000000000000 }
    ensures { result ≡ Some (county_of_block code) }
{
    CountyCode::new((code / BLOCKS_OF_COUNTY) as u32)
}

/// Returns the place, from 0, of the first of `groups` that has `county`, if one has it.
fn group_place(groups: &[Group], county: CountyCode) -> Option<usize>
    ensures place { result ≡ position_from (λ group. contains group.codes county) 0 groups.now }
    ensures bound { IfSome result (λ place. place < length groups.now) }
{
    groups
        .iter()
        .position(|group| has_code(group.codes.as_slice(), county))
}

/// Returns the place, from 0, of the first of `sets` that has `county`, if one has it.
fn withdrawn_place(sets: &[Withdrawn], county: CountyCode) -> Option<usize>
    ensures place { result ≡ position_from (λ set. contains set.codes county) 0 sets.now }
    ensures bound { IfSome result (λ place. place < length sets.now) }
{
    sets.iter()
        .position(|set| has_code(set.codes.as_slice(), county))
}

/// Returns the place, from 0, of the set that has the county of the block `code`, if one has it. The groups come before
/// the withdrawn sets.
#[tactic(auto, using(crate::proofs::ListingLemmas::place_in_sets))]
pub(crate) fn place_of_block(problem: &Problem, grouping: &Grouping, code: u64) -> Option<usize>
    requires { code < 1000000000000000 }
    ensures place { result ≡ place_of (drawn_sets problem.now grouping.now.groups.items) (county_of_block code) }
    ensures bound { IfSome result (λ place. place < length grouping.now.groups.items + 1000) }
{
    let county = county_of_block(code)?;
    let groups = grouping.groups.as_slice();
    match group_place(groups, county) {
        Some(place) => Some(place),
        None => {
            let place = withdrawn_place(problem.withdrawn(), county)?;
            Some(groups.len() + place)
        }
    }
}

/// Returns what `place_of_block` does. `known` has a county and the place of the set that has it, and afterwards those
/// of the block. Blocks of the same county mostly follow each other, so that few are looked for.
pub(crate) fn place_of_next(
    problem: &Problem,
    grouping: &Grouping,
    known: &mut (u64, Option<usize>),
    code: u64,
) -> Option<usize>
    requires fits { code < 1000000000000000 }
    requires known { known.old.1 ≡ place_of (drawn_sets problem.now grouping.now.groups.items) known.old.0 }
    requires bound { IfSome known.old.1 (λ place. place < length grouping.now.groups.items + 1000) }
    ensures place { result ≡ place_of (drawn_sets problem.now grouping.now.groups.items) (county_of_block code) }
    ensures result_bound { IfSome result (λ place. place < length grouping.now.groups.items + 1000) }
    ensures known { known.new.1 ≡ place_of (drawn_sets problem.now grouping.now.groups.items) known.new.0 }
    ensures bound { IfSome known.new.1 (λ place. place < length grouping.now.groups.items + 1000) }
{
    let county = code / BLOCKS_OF_COUNTY;
    if county != known.0 {
        *known = (county, place_of_block(problem, grouping, code));
    }
    known.1
}

/// Appends the code of `block` and its people to the `listed` blocks, if its county is in a set. `known` has a county
/// and the place of the set that has it.
fn add_block(
    listed: &mut Vec<(u64, u32)>,
    problem: &Problem,
    grouping: &Grouping,
    known: &mut (u64, Option<usize>),
    block: &Block,
) -> Result<(), AllocError>
    requires fits { block.now.code < 1000000000000000 }
    requires known { known.old.1 ≡ place_of (drawn_sets problem.now grouping.now.groups.items) known.old.0 }
    requires bound { IfSome known.old.1 (λ place. place < length grouping.now.groups.items + 1000) }
    ensures known { known.new.1 ≡ place_of (drawn_sets problem.now grouping.now.groups.items) known.new.0 }
    ensures bound { IfSome known.new.1 (λ place. place < length grouping.now.groups.items + 1000) }
    ensures added { OnOk result (listed.new.items
        ≡ listed.old.items ++ option_to_list (entry_in (drawn_sets problem.now grouping.now.groups.items) block.now)) }
{
    if place_of_next(problem, grouping, known, block.code).is_some() {
        listed.push((block.code, block.people))?;
    }
    Ok(())
}

/// Returns the listed blocks by code, with their people. One of `blocks`, which ascend by code, is listed if its county
/// is in a group of `grouping` or in a withdrawn set of `problem`.
pub(crate) fn listed_blocks(
    alloc: Global,
    problem: &Problem,
    grouping: &Grouping,
    blocks: &[Block],
) -> Result<Vec<(u64, u32)>, AllocError>
    requires fits { All (λ block. block.code < 1000000000000000) blocks.now }
    requires ascending { IsStrictlyIncreasing (map (λ block. block.code) blocks.now) }
    ensures entries { IfOk result (λ v. (code : ℕ)
        → lookup (is_at (nat_cmp code)) v.items ≡ listing (drawn_sets problem.now grouping.now.groups.items) blocks.now code) }
    ensures sorted { IfOk result (λ v. IsStrictlySortedBy nat_cmp (map (λ e. e.0) v.items)) }
{
    let mut listed = Vec::new(alloc);
    let mut known = (0, place_of_block(problem, grouping, 0));
    for block in blocks {
        add_block(&mut listed, problem, grouping, &mut known, block)?;
    }
    Ok(listed)
}
