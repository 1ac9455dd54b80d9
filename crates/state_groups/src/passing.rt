//! Which sets a growth passes over, because no group that fits can come of them.

ghost use Rattle.std.specs.Prelude.{◌≡◌, ℕ, ◌+◌, ◌^◌, Bool, List, [], true, filter, ◌<◌, ◌≤◌, MatchOption, IfOk, IsTrue, length};
ghost use Rattle.grouping_laws.specs.{Sets.contains, Problem.people_of, Places.places_below};
ghost use Rattle.place_sets.specs.PlaceSets.{places_of};
ghost use Rattle.connected_sets.specs.{Growths.{problem_in, places_in}, Graphs.IsGraph};
ghost use Rattle.connected_laws.specs.Growing.{IsGrowth, IsFront, IsExtension, AreKept};
ghost use Rattle.state_groups.specs.{StateValue.state_of, Keeping.{Decides, IsAsked}};
ghost use Rattle.state_groups.specs.People.{AreByPeople, AreWindows, IsDivided, AreTables};
ghost use Rattle.certificate_laws.specs.Fitting.{Fits};

use crate::people::first_people;
use crate::reach::reached;
use crate::state_test::StateTest;
use crate::stranding::strands;
use crate::sums::people_in;
use crate::windows::{may_divide, may_suit};
use connected_sets::{Growth, GrowthInput};
use place_sets::CountySet;
use std::alloc::AllocError;

/// Returns the least number of people that `more` places in reach can have, if sets of one size are asked for.
/// Otherwise it returns 0.
fn fewest_more<C: CountySet>(
    input: &GrowthInput<C>,
    test: &StateTest<C>,
    reach: &C,
    more: u32,
) -> u64
    requires fits { places_in input.now ≤ C.PLACES }
    requires below { (x : ℕ) → C.test reach.now x ≡ true → x < places_in input.now }
    requires places { AreByPeople (problem_in input.now) (places_in input.now) (C.test reach.now) test.now.tables.now.by_people.items }
    ensures least { (joins : ℕ → Bool)
        → ((x : ℕ) → joins x ≡ true → C.test reach.now x ≡ true)
        → (test.now.exact ≡ true → length (places_of (places_in input.now) joins) ≡ more)
        → result ≤ people_of (problem_in input.now) (places_of (places_in input.now) joins) }
    ensures bound { result ≤ 2 ^ 48 }
{
    if !test.exact {
        return 0;
    }
    first_people(&test.tables.by_people, reach, more)
}

/// Returns the greatest number of people that at most `more` places in reach can have. It takes all people in reach but
/// those of the other places, which have the fewest.
fn most_more<C: CountySet>(input: &GrowthInput<C>, test: &StateTest<C>, reach: &C, more: u32) -> u64
    requires fits { places_in input.now ≤ C.PLACES }
    requires below { (x : ℕ) → C.test reach.now x ≡ true → x < places_in input.now }
    requires places { AreByPeople (problem_in input.now) (places_in input.now) (C.test reach.now) test.now.tables.now.by_people.items }
    ensures greatest { (joins : ℕ → Bool)
        → ((x : ℕ) → joins x ≡ true → C.test reach.now x ≡ true)
        → length (places_of (places_in input.now) joins) ≤ more
        → people_of (problem_in input.now) (places_of (places_in input.now) joins) ≤ result }
    ensures bound { result ≤ input.now.graph.now.ordered.now.problem.total_people }
{
    let others = reach.size().saturating_sub(more);
    people_in(input.graph.ordered, reach) - first_people(&test.tables.by_people, reach, others)
}

/// Returns whether some number of people from `least` to `greatest` may suit some number of seats. If what it leaves of
/// the rest has to suit some number of seats too, that is tested as well.
fn may_fit<C: CountySet>(
    input: &GrowthInput<C>,
    test: &StateTest<C>,
    least: u64,
    greatest: u64,
) -> bool
    requires places { length test.now.state.now.least.items ≡ places_in input.now }
    requires rest { (x : ℕ) → C.test test.now.state.now.rest x ≡ true → x < places_in input.now }
    requires windows { AreWindows (problem_in input.now) (people_of (problem_in input.now) (places_of (places_in input.now) (C.test test.now.state.now.rest))) test.now.tables.now.windows.items }
    requires divided { IsDivided test.now.format (problem_in input.now) (places_in input.now) input.now.limit (C.test test.now.state.now.rest) test.now.tables.now.rest_people }
    ensures { (g : List ℕ)
        → filter (contains g) (places_below (places_in input.now)) ≡ g
        → length g ≤ input.now.limit
        → Fits test.now.format (problem_in input.now) (state_of C.test test.now.state.now) g
        → least ≤ people_of (problem_in input.now) g
        → people_of (problem_in input.now) g ≤ greatest
        → IsTrue result }
{
    let _places = input.graph.ordered.places();
    match test.tables.rest_people {
        None => may_suit(&test.tables.windows, least, greatest),
        Some(all) => may_divide(&test.tables.windows, all, least, greatest),
    }
}

/// Returns whether the people of the set of `growth`, together with those of places in `reach` that join it, may fit.
fn may_grow<C: CountySet>(
    input: &GrowthInput<C>,
    test: &StateTest<C>,
    growth: &Growth<C>,
    reach: &C,
) -> bool
    requires graph { IsGraph C.test C.PLACES input.now.graph.now }
    requires places { length test.now.state.now.least.items ≡ places_in input.now }
    requires rest { (x : ℕ) → C.test test.now.state.now.rest x ≡ true → x < places_in input.now }
    requires growth { IsGrowth (problem_in input.now) (places_in input.now) input.now.limit (C.test growth.now.set) (C.test growth.now.free) }
    requires people { growth.now.people
        ≡ people_of (problem_in input.now) (places_of (places_in input.now) (C.test growth.now.set)) }
    requires tables { AreTables test.now.format (problem_in input.now) (places_in input.now) input.now.limit (C.test test.now.state.now.rest) (C.test growth.now.free) test.now.tables.now }
    requires free { (x : ℕ) → C.test reach.now x ≡ true → C.test growth.now.free x ≡ true }
    ensures { (g : List ℕ)
        → IsExtension (problem_in input.now) (places_in input.now) input.now.limit (C.test growth.now.set) (C.test reach.now) g
        → IsAsked test.now.exact input.now.limit g
        → Fits test.now.format (problem_in input.now) (state_of C.test test.now.state.now) g
        → IsTrue result }
{
    let more = u32::from(input.limit) - growth.set.size();
    if test.exact && reach.size() < more {
        return false;
    }
    let least = growth.people + fewest_more(input, test, reach, more);
    let greatest = growth.people + most_more(input, test, reach, more);
    may_fit(input, test, least, greatest)
}

/// Returns whether nothing can come of `growth`. One reason is that no places that may join the set give it people that
/// may fit. Only the places that it reaches by as many moves as places may join it are considered. The other reason is
/// that the set leaves a part behind that can't be filled. A set that already has the greatest allowed number of places
/// isn't passed over.
pub(crate) fn is_passed_over<C: CountySet>(
    input: &GrowthInput<C>,
    test: &StateTest<C>,
    growth: &Growth<C>,
) -> Result<bool, AllocError>
    requires graph { IsGraph C.test C.PLACES input.now.graph.now }
    requires places { length test.now.state.now.least.items ≡ places_in input.now }
    requires rest { (x : ℕ) → C.test test.now.state.now.rest x ≡ true → x < places_in input.now }
    requires growth { IsGrowth (problem_in input.now) (places_in input.now) input.now.limit (C.test growth.now.set) (C.test growth.now.free) }
    requires front { IsFront (problem_in input.now) (C.test growth.now.set) (C.test growth.now.free) (C.test growth.now.front) }
    requires people { growth.now.people
        ≡ people_of (problem_in input.now) (places_of (places_in input.now) (C.test growth.now.set)) }
    requires tables { AreTables test.now.format (problem_in input.now) (places_in input.now) input.now.limit (C.test test.now.state.now.rest) (C.test growth.now.free) test.now.tables.now }
    ensures { IfOk
        result
        (λ passed. IsTrue passed
        → (keep : List ℕ → Bool)
        → Decides test.now.format (problem_in input.now) (places_in input.now) input.now.limit test.now.exact (state_of C.test test.now.state.now) keep
        → AreKept (problem_in input.now) (places_in input.now) input.now.limit keep (C.test growth.now.set) (C.test growth.now.free) []) }
{
    let more = u32::from(input.limit) - growth.set.size();
    if more == 0 {
        return Ok(false);
    }
    let reach = reached(input, growth, more)?;
    if !may_grow(input, test, growth, &reach) {
        return Ok(true);
    }
    strands(
        input.graph,
        test.format,
        test.state,
        growth,
        test.tables.enough,
    )
}
