//! States of proof trees, and rounds.

ghost use Rattle.std.specs.Prelude.{◌≤◌, length};
ghost use Rattle.state_groups.specs.PlacedValues.{IsPlaced};

use crate::groups::show_places;
use crate::room::room_for;
use crate::sketch::{STRANDING_PATH, codes, grouping};
use anyhow::Result;
use certificate_data::{Format, Round};
use county_codes::{Codes, Grouping, listed_codes};
use county_problem::{Ordered, Problem};
use place_sets::CountySet;
use state_groups::{State, closed_state, copied_state, first_state, raise_place};
use std::alloc::Global;

/// Prints the places of the groups that are `closed`.
fn show_closed_groups<C: CountySet>(rt: &HostRuntime, closed: &[C]) -> Result<()>
    requires { 128 ≤ C.PLACES }
{
    for group in closed {
        print!(rt; "closed")?;
        show_places(rt, group)?;
    }
    Ok(())
}

/// Prints a `state`: its rest, what each place asks for, and its closed groups.
fn show_state<C: CountySet>(rt: &HostRuntime, state: &State<C>) -> Result<()>
    requires { 128 ≤ C.PLACES }
{
    print!(rt; "rest")?;
    show_places(rt, &state.rest)?;
    println!(rt; "least sizes {:?}", state.least.as_slice())?;
    show_closed_groups(rt, &state.closed)
}

/// Prints the `state` with its first county closed alone, if that county is in the rest.
fn show_closed<C: CountySet>(rt: &HostRuntime, ordered: &Ordered, state: &State<C>) -> Result<()>
    requires fits { 128 ≤ C.PLACES }
    requires room { length ordered.now.order ≤ C.PLACES }
    requires placed { IsPlaced (length ordered.now.order) C.test state.now }
{
    if state.rest.has(0) {
        let group = C::empty(rt.alloc())?.with(rt.alloc(), 0)?;
        show_state(rt, &closed_state(rt.alloc(), ordered, state, &group)?)?;
    }
    Ok(())
}

/// Returns the `state` with its second county raised past 1. If there is no second county, the state is unchanged.
fn raised<C: CountySet>(ordered: &Ordered, state: State<C>) -> State<C>
    requires { IsPlaced (length ordered.now.order) C.test state }
    ensures { IsPlaced (length ordered.now.order) C.test result }
{
    let mut state = state;
    if ordered.places() > 1 {
        raise_place(ordered, &mut state, 1, 1);
    }
    state
}

/// Prints the `state` with its second county raised past 1, and that state with its first county closed alone.
fn show_raised<C: CountySet>(rt: &HostRuntime, ordered: &Ordered, state: State<C>) -> Result<()>
    requires fits { 128 ≤ C.PLACES }
    requires room { length ordered.now.order ≤ C.PLACES }
    requires placed { IsPlaced (length ordered.now.order) C.test state }
{
    let state = raised(ordered, state);
    show_state(rt, &copied_state(rt.alloc(), ordered, &state)?)?;
    show_closed(rt, ordered, &state)
}

/// Prints the first state of `ordered`, and those that come from it.
fn show_states<C: CountySet>(rt: &HostRuntime, ordered: &Ordered) -> Result<()>
    requires { 128 ≤ C.PLACES }
{
    room_for::<C>(ordered)?;
    let state: State<C> = first_state(rt.alloc(), ordered)?;
    show_state(rt, &state)?;
    show_raised(rt, ordered, state)
}

/// Prints states of a `problem`, with its counties in their order.
fn show_problem<C: CountySet>(rt: &HostRuntime, problem: &Problem) -> Result<()>
    requires { 128 ≤ C.PLACES }
{
    let order = listed_codes(rt.alloc(), problem.counties())?;
    let ordered = Ordered::build(rt.alloc(), problem, &order)?;
    show_states::<C>(rt, &ordered)
}

/// Prints states of the stranding path: the first one, the one with its middle county raised past 1, and the one with
/// its first county closed alone.
pub(crate) fn show<C: CountySet>(rt: &HostRuntime) -> Result<()>
    requires { 128 ≤ C.PLACES }
{
    let path = STRANDING_PATH.problem(rt.alloc())?;
    show_problem::<C>(rt, &path)
}

/// Returns the copy of a wide round with this `target`, or without one.
fn round_copy(alloc: Global, target: Option<Grouping>) -> Result<Round> {
    let round = Round {
        order: Codes::new(codes(alloc, &[1, 3, 5])?),
        limit: 3,
        target,
        format: Format::Wide,
        tolerance: None,
    };
    Ok(round.copy()?)
}

/// Returns how many groups the target of a `round` has. It is 0 if the round has no target.
fn groups_in(round: &Round) -> usize {
    match &round.target {
        Some(target) => target.groups.len(),
        None => 0,
    }
}

/// Prints the format, the limit, and how many counties and target groups a `round` has.
fn show_round(rt: &HostRuntime, round: &Round) -> Result<()> {
    let (format, limit, groups) = (round.format, round.limit, groups_in(round));
    println!(rt;
        "{format:?}, limit {limit}, {} counties, {groups} groups",
        round.order.as_slice().len()
    )?;
    Ok(())
}

/// Prints the copies of a round with a target and of a round without one.
pub(crate) fn show_rounds(rt: &HostRuntime) -> Result<()> {
    let together = grouping(rt.alloc(), &[(2, &[1, 3, 5])])?;
    show_round(rt, &round_copy(rt.alloc(), Some(together))?)?;
    show_round(rt, &round_copy(rt.alloc(), None)?)
}
