//! How a growth is tested against a state: which place joins a set next, and which sets are kept.

ghost use Rattle.std.specs.Prelude.{◌≡◌, ℕ, true, false, ◌<◌, ◌≤◌, MatchOption, IfOk, IsTrue, ◌↔◌, length};
ghost use Rattle.grouping_laws.specs.Problem.{Connected, people_of};
ghost use Rattle.place_sets.specs.PlaceSets.{places_of};
ghost use Rattle.connected_sets.specs.{Growths.{problem_in, places_in}, Graphs.IsGraph};
ghost use Rattle.state_groups.specs.{StateValue.state_of, Keeping.IsAsked};
ghost use Rattle.certificate_laws.specs.Fitting.{Fits};

use crate::fitting::fits;
use crate::passing::is_passed_over;
use crate::state_test::StateTest;
use connected_sets::{Growth, GrowthInput, GrowthTest};
use county_problem::Ordered;
use place_sets::CountySet;
use std::alloc::AllocError;

/// Returns the most populous place of `set`, and the first of them if there are several. Returns `None` if the set is
/// empty.
pub(crate) fn most_populous<C: CountySet>(ordered: &Ordered, set: &C) -> Option<u16>
    requires { (x : ℕ) → C.test set.now x ≡ true → x < length ordered.now.order }
    ensures { MatchOption result ((x : ℕ) → C.test set.now x ≡ false) (λ c. C.test set.now c ≡ true) }
{
    let mut found = set.next(0)?;
    let mut from = u32::from(found) + 1;
    while let Some(place) = set.next(from) {
        if ordered.people(found) < ordered.people(place) {
            found = place;
        }
        from = u32::from(place) + 1;
    }
    Some(found)
}

/// Returns whether `set` has the size that is asked for. If `test` is exact, that is the greatest allowed number of
/// places. Otherwise any size will do.
fn has_size<C: CountySet>(input: &GrowthInput<C>, test: &StateTest<C>, set: &C) -> bool
    requires small { length (places_of (places_in input.now) (C.test set.now)) ≤ input.now.limit }
    requires below { (x : ℕ) → C.test set.now x ≡ true → x < places_in input.now }
    ensures { IsTrue result
        ↔ IsAsked test.now.exact input.now.limit (places_of (places_in input.now) (C.test set.now)) }
{
    if !test.exact {
        return true;
    }
    set.size() >= u32::from(input.limit)
}

/// Returns whether a connected set with this number of `people` is kept. It is kept if it fits the state and has the
/// size that is asked for.
fn fits_and_is_asked<C: CountySet>(
    input: &GrowthInput<C>,
    test: &StateTest<C>,
    set: &C,
    people: u64,
) -> Result<bool, AllocError>
    requires graph { IsGraph C.test C.PLACES input.now.graph.now }
    requires places { length test.now.state.now.least.items ≡ places_in input.now }
    requires rest { (x : ℕ) → C.test test.now.state.now.rest x ≡ true → x < places_in input.now }
    requires below { (x : ℕ) → C.test set.now x ≡ true → x < places_in input.now }
    requires connected { Connected (problem_in input.now) (places_of (places_in input.now) (C.test set.now)) }
    requires small { length (places_of (places_in input.now) (C.test set.now)) ≤ input.now.limit }
    requires people { people
        ≡ people_of (problem_in input.now) (places_of (places_in input.now) (C.test set.now)) }
    ensures { IfOk
        result
        (λ kept. IsTrue kept
        ↔ (Fits test.now.format (problem_in input.now) (state_of C.test test.now.state.now) (places_of (places_in input.now) (C.test set.now))
        × IsAsked test.now.exact input.now.limit (places_of (places_in input.now) (C.test set.now)))) }
{
    if !has_size(input, test, set) {
        return Ok(false);
    }
    let fit = fits(input.graph, test.format, test.state, set, people)?;
    Ok(fit)
}

impl<C: CountySet> GrowthTest<C> for StateTest<'_, C> {
    ghost use Rattle.std.specs.Prelude.{◌≡◌, ◌<◌, ℕ, true, length};
    ghost use Rattle.state_groups.specs.{StateValue.state_of, Keeping.Decides, People.{AreTables, fewer_tables}};

    const COUNTS_PASSED: bool = true;

    ghost decides = { λ t p n limit keep. Decides t.format p n limit t.exact (state_of C.test t.state.now) keep };

    ghost knows = { λ t p n limit free. (length t.state.now.least.items ≡ n)
        × ((x : ℕ) → C.test t.state.now.rest x ≡ true → x < n)
        × AreTables t.format p n limit (C.test t.state.now.rest) free t.tables.now };

    fn is_passed_over(
        &self,
        input: &GrowthInput<C>,
        growth: &Growth<C>,
    ) -> Result<bool, AllocError> {
        is_passed_over(input, self, growth)
    }

    fn next_place(&self, ordered: &Ordered, front: &C) -> Option<u16> {
        most_populous(ordered, front)
    }

    fn is_kept(&self, input: &GrowthInput<C>, growth: &Growth<C>) -> Result<bool, AllocError> {
        fits_and_is_asked(input, self, &growth.set, growth.people)
    }

    ghost shrinks = { λ t p n limit free less lower k.
        (k.0, k.1, fewer_tables t.format p n limit (C.test t.state.now.rest) free less t.tables.now lower k.2) };
}
