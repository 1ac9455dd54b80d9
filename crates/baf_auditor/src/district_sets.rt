//! The sets of counties in which each district has census blocks.

ghost use Rattle.std.specs.Prelude.{◌≡◌, ◌<◌, ◌≤◌, ◌+◌, ℕ, List, All, IfOk, IfSome, OnOk, length, map};
ghost use Rattle.std.specs.{List.Sorted.IsStrictlySortedBy, BTreeMap.{get, btree_map_len, keys}};
ghost use Rattle.baf_auditor.specs.{Findings.drawn_sets, Listing.place_of, Giving.by_label, Districts.{after_shown, standing}};

use crate::block_list::{place_of_block, place_of_next};
use crate::district_blocks::Given;
use crate::label::Label;
use county_codes::Grouping;
use county_problem::Problem;
use std::alloc::{AllocError, Global};
use std::collections::BTreeMap;

/// Adds to `found` the set in which the district of `label` has the block `code`, if a set has the block's county.
/// `known` has a county and the place of the set that has it.
fn add_standing(
    found: &mut BTreeMap<(Label, usize), ()>,
    problem: &Problem,
    grouping: &Grouping,
    known: &mut (u64, Option<usize>),
    label: &Label,
    code: u64,
) -> Result<(), AllocError>
    requires fits { code < 1000000000000000 }
    requires known { known.old.1 ≡ place_of (drawn_sets problem.now grouping.now.groups.items) known.old.0 }
    requires bound { IfSome known.old.1 (λ place. place < length grouping.now.groups.items + 1000) }
    ensures known { known.new.1 ≡ place_of (drawn_sets problem.now grouping.now.groups.items) known.new.0 }
    ensures bound { IfSome known.new.1 (λ place. place < length grouping.now.groups.items + 1000) }
    ensures entries { OnOk result ((key : List ℕ × ℕ)
        → get by_label found.new key
        ≡ after_shown (drawn_sets problem.now grouping.now.groups.items) key (get by_label found.old key) (label.now, code)) }
    ensures few { OnOk result (btree_map_len found.new ≤ btree_map_len found.old + 1) }
    ensures within { OnOk result (All (λ k. k.1 < length grouping.now.groups.items + 1000) (keys found.old)
        → All (λ k. k.1 < length grouping.now.groups.items + 1000) (keys found.new)) }
{
    if let Some(place) = place_of_next(problem, grouping, known, code) {
        found.insert((label.copy()?, place), ())?;
    }
    Ok(())
}

/// Returns the districts of `given` with the places of the sets in which they have blocks, by label and place. The sets
/// are the groups of `grouping` and then the withdrawn sets of `problem`. Places count from 0.
pub(crate) fn standing_places(
    alloc: Global,
    problem: &Problem,
    grouping: &Grouping,
    given: &[Given<'_>],
) -> Result<BTreeMap<(Label, usize), ()>, AllocError>
    requires { All (λ e. e.0.1 < 1000000000000000) given.now }
    ensures entries { IfOk result (λ m. (key : List ℕ × ℕ)
        → get by_label m key ≡ standing (drawn_sets problem.now grouping.now.groups.items) (map (λ e. e.0) given.now) key) }
    ensures few { IfOk result (λ m. btree_map_len m ≤ length given.now) }
    ensures within { IfOk result (λ m. All (λ k. k.1 < length grouping.now.groups.items + 1000) (keys m)) }
{
    let mut found = BTreeMap::new(alloc);
    let mut known = (0, place_of_block(problem, grouping, 0));
    for block in given {
        let line = block.assignment;
        add_standing(
            &mut found,
            problem,
            grouping,
            &mut known,
            &line.label,
            line.block,
        )?;
    }
    Ok(found)
}

/// Lists the districts of `found` with the places of their sets, by label and place.
pub(crate) fn listed_places(
    alloc: Global,
    found: BTreeMap<(Label, usize), ()>,
) -> Result<Vec<(Label, usize)>, AllocError>
    ensures items { IfOk result (λ v. v.items ≡ keys found) }
    ensures ordered { IsStrictlySortedBy by_label (keys found) }
{
    found.into_keys().collect(alloc)
}
