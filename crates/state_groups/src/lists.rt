//! The groups that fit a state: those at a place, and those of one size.

ghost use Rattle.std.specs.Prelude.{◌≡◌, ℕ, ◌+◌, true, false, ◌<◌, ◌≤◌, Bool, List, OnOk, IfOk, IsErrOf, length};
ghost use Rattle.grouping_laws.specs.Places.{places_below};
ghost use Rattle.connected_sets.specs.{Graphs.{graph_places, place_problem, IsGraph}, declared.stop.Stop.Stop};
ghost use Rattle.connected_laws.specs.{Growing.only, Listing.{lists_of, AreBelow, IsListed, HasStepped, OneStepEach}};
ghost use Rattle.certificate_data.specs.Round.{Round};
ghost use Rattle.certificate_laws.specs.{State.open_to, Groups.{IsSetAt, AreGroupsAt, IsSetWithin, AreGroupsOf}};
ghost use Rattle.state_groups.specs.{StateValue.state_of, Keeping.{Decides, others}, People.AreTables};

use crate::fitting::open_places;
use crate::kept_sets::most_populous;
use crate::state::State;
use crate::state_test::StateTest;
use crate::tables::{Tables, make_tables};
use certificate_data::Format;
use connected_sets::{CountyGraph, GrowthInput, Stop, grow, start_growth};
use county_problem::Steps;
use place_sets::{CountySet, sorted};

/// Appends to the `groups` the kept connected sets of the `region` that have `place` and at most `limit` places.
fn search<C: CountySet>(
    graph: &CountyGraph<C>,
    format: Format,
    state: &State<C>,
    region: C,
    place: u16,
    limit: u16,
    exact: bool,
    tables: &Tables,
    steps: &mut Steps,
    groups: &mut Vec<C>,
) -> Result<(), Stop>
    requires graph { IsGraph C.test C.PLACES graph.now }
    requires places { length state.now.least.items ≡ graph_places graph.now }
    requires rest { (x : ℕ) → C.test state.now.rest x ≡ true → x < graph_places graph.now }
    requires some { 1 ≤ limit }
    requires below { (x : ℕ) → C.test region x ≡ true → x < graph_places graph.now }
    requires there { C.test region place ≡ true }
    requires tables { AreTables format (place_problem graph.now) (graph_places graph.now) limit (C.test state.now.rest) (C.test region) tables.now }
    ensures listed { OnOk
        result
        ((keep : List ℕ → Bool)
        → Decides format (place_problem graph.now) (graph_places graph.now) limit exact (state_of C.test state.now) keep
        → IsListed C C.test (place_problem graph.now) (graph_places graph.now) limit keep (only place) (others (C.test region) place) groups.old.items groups.new.items) }
    ensures steps { HasStepped (place_problem graph.now) (graph_places graph.now) limit (only place) (others (C.test region) place) steps.old.used steps.new.used }
    ensures counted { OnOk result (steps.old.used + length groups.new.items ≤ steps.new.used
        + length groups.old.items) }
    ensures limit { steps.new.limit ≡ steps.old.limit }
    ensures stopped { IsErrOf result Stop.StepLimit → steps.new.used ≡ steps.new.limit }
{
    let _at_most = graph.ordered.problem().total_people();
    let free = region.without(place);
    let growth = start_growth(graph, place, free)?;
    let input = GrowthInput { graph, limit };
    let test = StateTest {
        format,
        state,
        exact,
        tables,
    };
    grow(&input, &test, growth, steps, groups)
}

/// Returns the groups that fit the state, have the county at `place` and have at most `limit` counties. These are the
/// groups that the takes of a branch must have. Each group comes once. They are ordered by size, and groups of one size
/// by their lists of places.
///
/// A step is taken for each connected set of open counties that is met. Each such set has the place and at most `limit`
/// counties. The search passes over a set that can't get people that suit some number of seats. For that it looks at
/// the open counties that are at most as many moves away from the set as counties may join it. Some of them have to
/// give the set such people. In a wide format the search also passes over a set that leaves people of the rest that
/// suit no number of seats. The same goes for a set that leaves a part behind that can't be filled. So there are at
/// least as many steps as groups, and at most as many steps as such sets.
///
/// Returns `StepLimit` only if all steps are used, and `Memory` only if a growth was refused. The steps that were taken
/// stay taken.
pub fn groups_at<C: CountySet>(
    graph: &CountyGraph<C>,
    format: Format,
    state: &State<C>,
    place: u16,
    limit: u16,
    steps: &mut Steps,
) -> Result<Vec<C>, Stop>
    requires graph { IsGraph C.test C.PLACES graph.now }
    requires places { length state.now.least.items ≡ graph_places graph.now }
    requires rest { (x : ℕ) → C.test state.now.rest x ≡ true → x < graph_places graph.now }
    requires there { open_to (state_of C.test state.now) limit place ≡ true }
    requires some { 1 ≤ limit }
    ensures groups { IfOk
        result
        (λ v. (round : Round)
        → round.order ≡ places_below (graph_places graph.now)
        → round.format ≡ format
        → AreGroupsAt (place_problem graph.now) round (state_of C.test state.now) place limit (lists_of (graph_places graph.now) C.test v.items)) }
    ensures below { IfOk result (λ v. AreBelow (graph_places graph.now) C.test v.items) }
    ensures steps { OneStepEach (IsSetAt (place_problem graph.now) (places_below (graph_places graph.now)) (state_of C.test state.now) place limit) steps.old.used steps.new.used }
    ensures counted { IfOk result (λ v. steps.old.used + length v.items ≤ steps.new.used) }
    ensures limit { steps.new.limit ≡ steps.old.limit }
    ensures stopped { IsErrOf result Stop.StepLimit → steps.new.used ≡ steps.new.limit }
{
    let region = open_places(graph.alloc, state, limit)?;
    let tables = make_tables(graph.alloc, graph.ordered, format, state, &region, limit)?;
    let mut sets = Vec::new(graph.alloc);
    search(
        graph, format, state, region, place, limit, false, &tables, steps, &mut sets,
    )?;
    Ok(sorted(sets)?)
}

/// Returns the groups of `size` counties that fit the state. These are the groups that a `weigh` line of a bound leaf
/// asks about. Each group comes once, and they are ordered by their lists of places.
///
/// A step is taken for each connected set of at most `size` open counties that is met, as in `groups_at`. The sets that
/// have the most populous open county come first. Next are those of the others that have the second most populous one,
/// and so on.
pub fn groups_of<C: CountySet>(
    graph: &CountyGraph<C>,
    format: Format,
    state: &State<C>,
    size: u16,
    steps: &mut Steps,
) -> Result<Vec<C>, Stop>
    requires graph { IsGraph C.test C.PLACES graph.now }
    requires places { length state.now.least.items ≡ graph_places graph.now }
    requires rest { (x : ℕ) → C.test state.now.rest x ≡ true → x < graph_places graph.now }
    requires some { 1 ≤ size }
    ensures groups { IfOk
        result
        (λ v. (round : Round)
        → round.order ≡ places_below (graph_places graph.now)
        → round.format ≡ format
        → AreGroupsOf (place_problem graph.now) round (state_of C.test state.now) size (lists_of (graph_places graph.now) C.test v.items)) }
    ensures below { IfOk result (λ v. AreBelow (graph_places graph.now) C.test v.items) }
    ensures steps { OneStepEach (IsSetWithin (place_problem graph.now) (places_below (graph_places graph.now)) (state_of C.test state.now) size) steps.old.used steps.new.used }
    ensures counted { IfOk result (λ v. steps.old.used + length v.items ≤ steps.new.used) }
    ensures limit { steps.new.limit ≡ steps.old.limit }
    ensures stopped { IsErrOf result Stop.StepLimit → steps.new.used ≡ steps.new.limit }
{
    let mut region = open_places(graph.alloc, state, size)?;
    let tables = make_tables(graph.alloc, graph.ordered, format, state, &region, size)?;
    let mut sets = Vec::new(graph.alloc);
    while let Some(place) = most_populous(graph.ordered, &region) {
        let left = region.copy(graph.alloc)?;
        search(
            graph, format, state, left, place, size, true, &tables, steps, &mut sets,
        )?;
        region = region.without(place);
    }
    Ok(sorted(sets)?)
}
