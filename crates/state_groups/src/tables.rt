//! The tables that are made once before sets grow: the places by their people, the windows of seats, and the people of
//! the rest.

ghost use Rattle.std.specs.Prelude.{◌≡◌, ℕ, true, ◌<◌, ◌≤◌, length, IfOk};
ghost use Rattle.place_sets.specs.PlaceSets.{places_of};
ghost use Rattle.county_problem.specs.OrderedValue.{problem_at};
ghost use Rattle.state_groups.specs.People.{AreTables, IsDivided};

use crate::people::places_by_people;
use crate::state::State;
use crate::sums::people_in;
use crate::windows::seat_windows;
use certificate_data::Format;
use county_problem::Ordered;
use place_sets::CountySet;
use std::alloc::{AllocError, Global};

/// The tables that are made once for a state and a region of its rest.
#[derive(Drop)]
pub(crate) struct Tables {
    /// The places of the region, each with its people. The places with the fewest people come first.
    pub(crate) by_people: Vec<(u32, u16)>,
    /// For each number of seats, the least and the greatest number of people that suit it.
    pub(crate) windows: Vec<(u64, u64)>,
    /// The people of the rest, if what a group that fits leaves of them has to suit some number of seats.
    pub(crate) rest_people: Option<u64>,
    /// What a part with a free place needs so that it isn't too small for any of its places.
    pub(crate) enough: Enough,
}

/// What a part with a free place needs so that it isn't too small for any of its places. A test that stops early looks
/// at it, and nothing that a contract says rests on it.
#[derive(Clone, Copy, Debug)]
pub(crate) struct Enough {
    /// The least number of people that suit one seat.
    pub(crate) people: u64,
    /// The greatest size, in counties, that a county of the rest asks for.
    pub(crate) counties: u32,
}

/// Returns what is enough at `state`, for a part with a free place.
fn enough_at<C: CountySet>(ordered: &Ordered, state: &State<C>) -> Enough {
    let mut counties = 0;
    for size in &state.least {
        counties = u32::from(*size).max(counties);
    }
    Enough {
        people: ordered.problem().district_bounds(1).0,
        counties,
    }
}

/// Returns the people of the rest if the format is wide and the rest has more than `limit` counties. Otherwise it
/// returns `None`.
fn divided_people<C: CountySet>(
    ordered: &Ordered,
    format: Format,
    state: &State<C>,
    limit: u16,
) -> Option<u64>
    requires { (x : ℕ) → C.test state.now.rest x ≡ true → x < length ordered.now.order }
    ensures { IsDivided format (problem_at ordered.now) (length ordered.now.order) limit (C.test state.now.rest) result }
{
    match format {
        Format::Plain => None,
        Format::Wide => {
            if state.rest.size() <= u32::from(limit) {
                return None;
            }
            Some(people_in(ordered, &state.rest))
        }
    }
}

/// Builds the tables for `state` and a `region` of its rest, where groups have this `format` and at most `limit`
/// counties.
pub(crate) fn make_tables<C: CountySet>(
    alloc: Global,
    ordered: &Ordered,
    format: Format,
    state: &State<C>,
    region: &C,
    limit: u16,
) -> Result<Tables, AllocError>
    requires fits { length ordered.now.order ≤ C.PLACES }
    requires rest { (x : ℕ) → C.test state.now.rest x ≡ true → x < length ordered.now.order }
    requires below { (x : ℕ) → C.test region.now x ≡ true → x < length ordered.now.order }
    ensures { IfOk
        result
        (λ t. AreTables format (problem_at ordered.now) (length ordered.now.order) limit (C.test state.now.rest) (C.test region.now) t) }
{
    Ok(Tables {
        by_people: places_by_people(alloc, ordered, region)?,
        windows: seat_windows(alloc, ordered, people_in(ordered, &state.rest))?,
        rest_people: divided_people(ordered, format, state, limit),
        enough: enough_at(ordered, state),
    })
}
