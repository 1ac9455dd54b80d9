//! The numbers of seats that the people of sets suit, and whether the seats left lie outside of their range.

ghost use Rattle.std.specs.Prelude.{◌≡◌, ℕ, true, ◌<◌, ◌≤◌, ◌||◌, nat_lt, length, map, All, IfOk, IfSome, IsTrue, ◌↔◌};
ghost use Rattle.grouping_laws.specs.{Problem.{Suits, people_of}, SeatWindow.IsRun};
ghost use Rattle.place_sets.specs.PlaceSets.{places_of};
ghost use Rattle.county_problem.specs.OrderedValue.{problem_at};
ghost use Rattle.connected_sets.specs.Graphs.{graph_places, place_problem, IsGraph};
ghost use Rattle.state_groups.specs.{StateValue.state_of, Sums.IsSums};
ghost use Rattle.certificate_laws.specs.Leaves.{IsOffSeats};

use crate::state::State;
use crate::sums::people_in;
use connected_sets::{CountyGraph, parts_of};
use county_problem::Ordered;
use place_sets::CountySet;
use std::alloc::AllocError;

/// Returns the least and the greatest number of seats that the people of `set` suit. Returns `None` if they suit no
/// number.
fn seats_in<C: CountySet>(ordered: &Ordered, set: &C) -> Option<(u64, u64)>
    requires { (x : ℕ) → C.test set.now x ≡ true → x < length ordered.now.order }
    ensures run { IsRun (Suits (problem_at ordered.now) (people_of (problem_at ordered.now) (places_of (length ordered.now.order) (C.test set.now)))) result }
    ensures small { IfSome result (λ r. (r.0 < 65536) × (r.1 < 65536)) }
{
    let _places = ordered.places();
    let people = people_in(ordered, set);
    let (low, high) = ordered.problem().seats_range(people)?;
    Some((u64::from(low), u64::from(high)))
}

/// Returns the sum of the least numbers of seats of the `sets`, and the sum of the greatest. Returns `None` if the
/// people of some set suit no number.
fn seat_sums<C: CountySet>(ordered: &Ordered, sets: &[C]) -> Option<(u64, u64)>
    requires few { length sets.now ≤ 65536 }
    requires below { All (λ s. (x : ℕ) → C.test s x ≡ true → x < length ordered.now.order) sets.now }
    ensures { IsSums (problem_at ordered.now) (map (λ s. places_of (length ordered.now.order) (C.test s)) sets.now) result }
{
    let mut least: u64 = 0;
    let mut greatest: u64 = 0;
    for set in sets {
        let Some((low, high)) = seats_in(ordered, set) else {
            return None;
        };
        least += low;
        greatest += high;
    }
    Some((least, greatest))
}

/// Returns whether this number of `seats` is below `least` or above `greatest`.
fn is_outside(seats: u64, least: u64, greatest: u64) -> bool
    ensures { result ≡ (nat_lt seats least || nat_lt greatest seats) }
{
    seats < least || greatest < seats
}

/// Returns whether a seats leaf is valid at `state`. Each connected part of the rest must suit some number of seats,
/// and each closed group too. Over the closed groups and these parts, the least numbers must add up to more than the
/// seats left, or the greatest numbers to fewer. Returns an error if memory was refused.
pub fn is_off_seats<C: CountySet>(
    graph: &CountyGraph<C>,
    state: &State<C>,
) -> Result<bool, AllocError>
    requires graph { IsGraph C.test C.PLACES graph.now }
    requires places { length state.now.least.items ≡ graph_places graph.now }
    requires below { (x : ℕ) → C.test state.now.rest x ≡ true → x < graph_places graph.now }
    requires closed { All (λ s. (x : ℕ) → C.test s x ≡ true → x < graph_places graph.now) state.now.closed.items }
    requires few { length state.now.closed.items ≤ 65536 }
    ensures { IfOk result (λ off. IsTrue off ↔ IsOffSeats (place_problem graph.now) (state_of C.test state.now)) }
{
    let parts = parts_of(graph, &state.rest)?;
    let Some(closed) = seat_sums(graph.ordered, &state.closed) else {
        return Ok(false);
    };
    let Some(rest) = seat_sums(graph.ordered, &parts) else {
        return Ok(false);
    };
    let seats = u64::from(graph.ordered.problem().seats_left());
    Ok(is_outside(seats, closed.0 + rest.0, closed.1 + rest.1))
}
