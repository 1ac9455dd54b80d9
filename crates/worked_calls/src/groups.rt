//! The lawful groups from a place.

ghost use Rattle.std.specs.Prelude.{◌≤◌};

use crate::room::room_for;
use crate::sketch::{ONE_AND_FIVE, RING_OF_FOUR, STRANDING_PATH, Sketch};
use anyhow::{Error, Result};
use connected_groups::{GroupList, groups_from};
use connected_sets::{Stop, place_list};
use county_codes::listed_codes;
use county_problem::{Ordered, Problem, Steps};
use place_sets::CountySet;

/// A path whose first two counties have too few people for a seat.
const FEW_PEOPLE: Sketch = Sketch {
    people: &[(1, 10), (3, 10), (5, 180)],
    pairs: &[(1, 3), (3, 5)],
    withdrawn: &[],
    chamber: 2,
};

/// Prints `places` on a line.
fn show_list(rt: &HostRuntime, places: &[u16]) -> Result<()> {
    for place in places {
        print!(rt; " {place}")?;
    }
    println!(rt)?;
    Ok(())
}

/// Prints the places of `set` on a line.
pub(crate) fn show_places<C: CountySet>(rt: &HostRuntime, set: &C) -> Result<()>
    requires { 128 ≤ C.PLACES }
{
    let places = place_list(rt.alloc(), 128, set)?;
    show_list(rt, places.as_slice())
}

/// Prints the places of each of the `sets`, a line for each set.
fn show_each<C: CountySet>(rt: &HostRuntime, sets: &[C]) -> Result<()>
    requires { 128 ≤ C.PLACES }
{
    for set in sets {
        show_places(rt, set)?;
    }
    Ok(())
}

/// Prints the groups that were `found`, or why the search stopped.
fn show_found<C: CountySet>(rt: &HostRuntime, found: Result<GroupList<C>, Stop>) -> Result<()>
    requires { 128 ≤ C.PLACES }
{
    match found {
        Ok(list) => show_each(rt, &list.groups),
        Err(stop) => {
            println!(rt; "{stop}")?;
            Ok(())
        }
    }
}

/// A place, the most counties of a group, and the most steps.
type Search = (u16, u16, u64);

/// Prints a `search`, and how many steps it `used`.
fn show_search(rt: &HostRuntime, search: Search, used: u64) -> Result<()> {
    let (place, limit, most) = search;
    println!(rt; "from {place}, at most {limit}, {used} steps of {most}")?;
    Ok(())
}

/// Prints the groups from a place of `ordered`, and how many steps they took. `search` has the place, the most counties
/// of a group, and the most steps. Prints nothing if the order has no such place. Returns an error if memory was
/// refused, or if the form of sets has too few places.
fn show_groups<C: CountySet>(rt: &HostRuntime, ordered: &Ordered, search: Search) -> Result<()>
    requires { 128 ≤ C.PLACES }
{
    let (place, limit, most) = search;
    room_for::<C>(ordered)?;
    if place >= ordered.places() {
        return Ok(());
    }
    let mut steps = Steps::new(most);
    let found = groups_from::<C>(rt.alloc(), ordered, place, limit, &mut steps);
    if let Err(Stop::Memory) = found {
        return Err(Error::from(Stop::Memory));
    }
    show_search(rt, search, steps.used())?;
    show_found(rt, found)
}

/// Prints the groups that each of the `searches` finds.
fn show_searches<C: CountySet>(
    rt: &HostRuntime,
    ordered: &Ordered,
    searches: &[Search],
) -> Result<()>
    requires { 128 ≤ C.PLACES }
{
    for search in searches {
        show_groups::<C>(rt, ordered, *search)?;
    }
    Ok(())
}

/// Prints the groups of a `problem` that each of the `searches` finds. The order is that of its counties.
fn show_problem<C: CountySet>(
    rt: &HostRuntime,
    problem: &Problem,
    searches: &[Search],
) -> Result<()>
    requires { 128 ≤ C.PLACES }
{
    let order = listed_codes(rt.alloc(), problem.counties())?;
    let ordered = Ordered::build(rt.alloc(), problem, &order)?;
    show_searches::<C>(rt, &ordered, searches)
}

/// Prints the groups of a sketched problem that each of the `searches` finds.
fn show_sketch<C: CountySet>(rt: &HostRuntime, sketch: Sketch, searches: &[Search]) -> Result<()>
    requires { 128 ≤ C.PLACES }
{
    let problem = sketch.problem(rt.alloc())?;
    show_problem::<C>(rt, &problem, searches)
}

/// The searches of the stranding path.
const STRANDING_SEARCHES: &[Search] = &[
    (0, 3, 1000),
    (0, 2, 1000),
    (0, 0, 1000),
    (1, 3, 1000),
    (0, 3, 0),
    (0, 3, 2),
];

/// The search of the ring of four.
const RING_SEARCHES: &[Search] = &[(0, 4, 1000)];

/// The searches of one county and five.
const TAIL_SEARCHES: &[Search] = &[(0, 6, 1000), (1, 5, 1000)];

/// The search of the path with few people.
const FEW_SEARCHES: &[Search] = &[(0, 2, 1000)];

/// Prints the groups of small problems.
pub(crate) fn show<C: CountySet>(rt: &HostRuntime) -> Result<()>
    requires { 128 ≤ C.PLACES }
{
    show_sketch::<C>(rt, STRANDING_PATH, STRANDING_SEARCHES)?;
    show_sketch::<C>(rt, RING_OF_FOUR, RING_SEARCHES)?;
    show_sketch::<C>(rt, ONE_AND_FIVE, TAIL_SEARCHES)?;
    show_sketch::<C>(rt, FEW_PEOPLE, FEW_SEARCHES)
}
