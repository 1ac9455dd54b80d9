//! Bound leaves that end with `weigh`: the weights of the open counties allow too few groups.

ghost use Rattle.std.specs.Prelude.{◌≡◌, ℕ, true, cond, ◌<◌, ◌≤◌, List, length, get_or, All, ⊤, IfOk, MatchOption};
ghost use Rattle.county_codes.specs.Limits.{most_counties};
ghost use Rattle.grouping_laws.specs.Sets.{sum_by};
ghost use Rattle.place_sets.specs.PlaceSets.{places_of};
ghost use Rattle.county_problem.specs.ProblemValue.{problem_of};
ghost use Rattle.connected_laws.specs.Listing.{AreBelow};
ghost use Rattle.connected_sets.specs.Graphs.{graph_order, graph_places};
ghost use Rattle.state_groups.specs.PlacedValues.{codes_of_sets};
ghost use Rattle.search_groups.specs.{KnownGroups.IsKnown, Positions.{search_problem, search_round, search_state}};
ghost use Rattle.search_ends.specs.GivenLeaf.{IsStateIn, IsGivenAt, IsCompleteAt};
ghost use Rattle.search_ends.specs.PlacedWeights.{placed_weight, AreTableWeights};

use crate::empty_leaves::ending_leaf;
use crate::standing::wanted_more;
use certificate_data::{Allowance, Leaf, Weight, Weights};
use county_codes::CountyCode;
use county_problem::Ordered;
use place_sets::CountySet;
use search_groups::SearchInput;
use state_groups::{State, open_places, weight_in};
use std::alloc::{AllocError, Global};

/// The greatest quota of a line.
const MOST_QUOTA: u64 = 256_000_000;

/// Returns the weights of the places of a `region`, and 0 for each other place.
fn weights_within<C: CountySet>(
    alloc: Global,
    region: &C,
    weights: &[u32],
) -> Result<Vec<u32>, AllocError>
    requires fits { length weights.now ≤ C.PLACES }
    requires few { length weights.now ≤ most_counties }
    requires range { All (λ w. w ≤ 1000000) weights.now }
    ensures count { IfOk result (λ v. length v.items ≡ length weights.now) }
    ensures range { IfOk result (λ v. All (λ w. w ≤ 1000000) v.items) }
    ensures each { IfOk
        result
        (λ v. (i : ℕ) → i < length weights.now
        → get_or v.items i 0 ≡ cond (C.test region.now i) (get_or weights.now i 0) 0) }
{
    let mut table = Vec::new(alloc);
    for place in 0..weights.len() {
        let weight = if region.has(place as u16) {
            weights[place]
        } else {
            0
        };
        table.push(weight)?;
    }
    Ok(table)
}

/// Returns the weight of the lightest of the `groups` by the `table`. If that exceeds the greatest quota, it returns
/// the greatest quota.
fn least_weight<C: CountySet>(groups: &[C], table: &[u32]) -> u32
    requires few { length table.now ≤ most_counties }
    requires below { AreBelow (length table.now) C.test groups.now }
    ensures each { All (λ g. result
        ≤ sum_by (λ i. get_or table.now i 0) (places_of (length table.now) (C.test g))) groups.now }
    ensures small { result ≤ 256000000 }
{
    let mut least = MOST_QUOTA;
    for group in groups {
        least = least.min(weight_in(table, group));
    }
    least as u32
}

/// Returns the weight of the county with this `code` by the `table` of places. Returns 0 if the order has no such
/// county.
fn weight_at(ordered: &Ordered, table: &[u32], code: CountyCode) -> u32
    requires count { length table.now ≡ length ordered.now.order }
    requires range { All (λ w. w ≤ 1000000) table.now }
    ensures value { result ≡ placed_weight ordered.now.order table.now code }
    ensures small { result ≤ 1000000 }
{
    let _places = ordered.places();
    match ordered.place_of(code) {
        Some(place) => table[usize::from(place)],
        None => 0,
    }
}

/// Returns the weights above 0 of the `table`, by ascending codes.
fn listed_weights(alloc: Global, ordered: &Ordered, table: &[u32]) -> Result<Weights, AllocError>
    requires count { length table.now ≡ length ordered.now.order }
    requires range { All (λ w. w ≤ 1000000) table.now }
    ensures { IfOk
        result
        (λ weights. AreTableWeights ordered.now.order (problem_of ordered.now.problem).counties table.now weights) }
{
    let _places = ordered.places();
    let counties = ordered.problem().counties();
    let mut weights = Vec::new(alloc);
    for county in counties {
        let _small = county.code.get();
        let weight = weight_at(ordered, table, county.code);
        if weight > 0 {
            weights.push(Weight {
                county: county.code,
                weight,
            })?;
        }
    }
    Ok(Weights::new(weights))
}

/// Returns a bound leaf that ends with `weigh` at a `size`, in counties, below which no group fits. Its last line has
/// the weights of the counties that are open to the size, and its quota is what the lightest of the `groups` weighs. By
/// that line, fewer groups share the weights than are wanted. Returns `None` if as many may share them, if a group
/// weighs nothing, or if `wanted_more` returns `None`. The leaf falls short, so it is complete.
///
/// The `groups` are candidates of the size, among them all that fit. There is a weight for each place of the order, at
/// most 1,000,000. Returns an error if memory was refused.
pub fn weighed_leaf<C: CountySet>(
    input: &SearchInput<C>,
    state: &State<C>,
    size: u16,
    groups: &[C],
    weights: &[u32],
) -> Result<Option<Leaf>, AllocError>
    requires at { IsStateIn C.PLACES C.test input.now state.now }
    requires size { 1 ≤ size }
    requires small { size ≤ input.now.round.now.limit }
    requires known { IsKnown
        (search_problem input.now)
        (search_round input.now)
        (search_state input.now C.test state.now)
        size
        (codes_of_sets (graph_order input.now.graph.now) C.test groups.now) }
    requires below { AreBelow (graph_places input.now.graph.now) C.test groups.now }
    requires count { length weights.now ≡ graph_places input.now.graph.now }
    requires range { All (λ w. w ≤ 1000000) weights.now }
    ensures leaf { IfOk result (λ found. MatchOption found ⊤ (IsGivenAt C.test input.now state.now)) }
    ensures complete { IfOk result (λ found. MatchOption found ⊤ (IsCompleteAt C.test input.now state.now)) }
{
    let graph = input.graph;
    let Some(wanted) = wanted_more(input, state, size) else {
        return Ok(None);
    };
    let _places = graph.ordered.places();
    let _problem = graph.ordered.problem();
    let region = open_places(graph.alloc, state, size)?;
    let table = weights_within(graph.alloc, &region, weights)?;
    let quota = least_weight(groups, &table);
    if quota == 0 {
        return Ok(None);
    }
    if weight_in(&table, &region) / u64::from(quota) >= u64::from(wanted) {
        return Ok(None);
    }
    let weights = listed_weights(graph.alloc, graph.ordered, &table)?;
    let line = Allowance::Weigh { quota, weights };
    Ok(Some(ending_leaf(input, state, size, line)?))
}
