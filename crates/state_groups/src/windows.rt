//! The windows of people for each number of seats, and the tests whether some number of people may suit one.

ghost use Rattle.std.specs.Prelude.{◌≡◌, ℕ, true, ◌-◌, ◌<◌, ◌≤◌, IsTrue, IfOk};
ghost use Rattle.county_problem.specs.OrderedValue.{problem_at};
ghost use Rattle.state_groups.specs.People.{HasSeatWindow, AreWindows};

use county_problem::Ordered;
use std::alloc::{AllocError, Global};

/// Returns the least and the greatest number of people that suit a number of seats. There is an entry for each number
/// of seats that at most this number of `people` may suit.
pub(crate) fn seat_windows(
    alloc: Global,
    ordered: &Ordered,
    people: u64,
) -> Result<Vec<(u64, u64)>, AllocError>
    requires { people ≤ ordered.now.problem.total_people }
    ensures { IfOk result (λ v. AreWindows (problem_at ordered.now) people v.items) }
{
    let _places = ordered.places();
    let problem = ordered.problem();
    let _tolerance = problem.tolerance();
    let _chamber = problem.chamber();
    let mut windows = Vec::new(alloc);
    for seats in 1..2001 {
        let window = problem.district_bounds(seats);
        if window.0 > people {
            return Ok(windows);
        }
        windows.push(window)?;
    }
    Ok(windows)
}

/// Returns whether some number of people from `least` to `greatest` is in one of the `windows`.
pub(crate) fn may_suit(windows: &[(u64, u64)], least: u64, greatest: u64) -> bool
    ensures { (people : ℕ) → least ≤ people → people ≤ greatest → HasSeatWindow windows.now people → IsTrue result }
{
    windows
        .iter()
        .any(|window| window.0 <= greatest && least <= window.1)
}

/// Returns whether some number of people from `least` to `greatest` is in the `window`, and what it leaves of `all`
/// people is in one of the `windows`.
fn divides(windows: &[(u64, u64)], window: (u64, u64), all: u64, least: u64, greatest: u64) -> bool
    ensures { (people : ℕ)
        → least ≤ people
        → people ≤ greatest
        → window.0 ≤ people
        → people ≤ window.1
        → HasSeatWindow windows.now (all - people)
        → IsTrue result }
{
    let low = least.max(window.0);
    let high = greatest.min(window.1);
    low <= high && may_suit(windows, all.saturating_sub(high), all.saturating_sub(low))
}

/// Returns whether some number of people from `least` to `greatest` is in one of the `windows`, and what it leaves of
/// `all` people is in one of them too.
pub(crate) fn may_divide(windows: &[(u64, u64)], all: u64, least: u64, greatest: u64) -> bool
    ensures { (people : ℕ)
        → least ≤ people
        → people ≤ greatest
        → HasSeatWindow windows.now people
        → HasSeatWindow windows.now (all - people)
        → IsTrue result }
{
    for window in windows {
        if divides(windows, *window, all, least, greatest) {
            return true;
        }
    }
    false
}
