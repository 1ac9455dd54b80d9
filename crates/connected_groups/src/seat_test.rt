//! The growth's test of seats: a set is kept if its people suit some number of seats.

ghost use Rattle.std.specs.Prelude.{◌≡◌, ℕ, ◌+◌, ◌-◌, ◌*◌, ◌^◌, true, ◌<◌, ◌≤◌, nat_lt, is_some};
ghost use Rattle.grouping_laws.specs.SeatWindow.{seat_run};
ghost use Rattle.connected_groups.specs.Search.{problem_at, places_in, size_in};
ghost use Rattle.connected_sets.specs.Growths.{places_in, size_in};

use connected_sets::{Growth, GrowthInput, GrowthTest};
use county_problem::Ordered;
use place_sets::CountySet;
use std::alloc::AllocError;

/// The test of seats. `least` is the fewest people that suit a seat. `most` is at least as many people as any place has
/// that may join a set.
#[derive(Drop)]
pub(crate) struct SeatTest {
    pub(crate) least: u64,
    pub(crate) most: u32,
}

/// Returns whether a `set` with these `people` has too few of them for a seat, whatever free places join it.
fn stays_small<C: CountySet>(input: &GrowthInput<C>, test: &SeatTest, set: &C, people: u64) -> bool
    requires growth { size_in input.now (C.test set.now) ≤ input.now.limit }
    requires below { (x : ℕ) → C.test set.now x ≡ true → x < places_in input.now }
    requires bound { people ≤ 2 ^ 40 }
    ensures { result
        ≡ nat_lt
        (people + (input.now.limit - size_in input.now (C.test set.now)) * test.now.most)
        test.now.least }
{
    let most = u64::from(test.most);
    let room = u64::from(input.limit) - u64::from(set.size());
    people + room * most < test.least
}

/// Returns whether these `people` suit some number of seats.
fn suits(ordered: &Ordered, people: u64) -> bool
    requires { people ≤ ordered.now.problem.total_people }
    ensures { result ≡ is_some (seat_run (problem_at ordered.now) people) }
{
    ordered.problem().suits_some(people)
}

impl<C: CountySet> GrowthTest<C> for SeatTest {
    ghost use Rattle.std.specs.Prelude.{◌≡◌, ℕ, List};
    ghost use Rattle.grouping_laws.specs.SeatWindow.{people_bounds};
    ghost use Rattle.connected_groups.specs.Search.{suits_some, HasMost};

    const COUNTS_PASSED: bool = false;

    ghost decides = { λ t p n limit keep. (g : List ℕ) → keep g ≡ suits_some p g };

    ghost knows = { λ t p n limit free. (t.least ≡ (people_bounds p 1).0) × HasMost p free t.most };

    fn is_passed_over(
        &self,
        input: &GrowthInput<C>,
        growth: &Growth<C>,
    ) -> Result<bool, AllocError> {
        Ok(stays_small(input, self, &growth.set, growth.people))
    }

    fn next_place(&self, ordered: &Ordered, front: &C) -> Option<u16> {
        front.next(0)
    }

    fn is_kept(&self, input: &GrowthInput<C>, growth: &Growth<C>) -> Result<bool, AllocError> {
        Ok(suits(input.graph.ordered, growth.people))
    }

    ghost shrinks = { λ t p n limit free less lower k. (k.0, λ c e. k.1 c (lower c e)) };
}
