//! The counties of North Carolina 2020: the adjacent pairs, and the numbers of lawful groups of at most four counties
//! for the Senate and the House. The groups, and the connected sets among which they are found, are counted with each
//! form of sets. All best groupings of both chambers come last.

ghost use Rattle.std.specs.Prelude.{◌≤◌};

use crate::lists::show_solved;
use crate::room::room_for;
use adjacency_reader::read_pairs;
use anyhow::{Error, Result};
use connected_groups::{GroupList, groups_over};
use connected_sets::CountyGraph;
use county_codes::{County, CountyCode, listed_codes};
use county_problem::{Ordered, Problem, Steps};
use pl94_counties::read_counties;
use place_sets::{CountySet, ListSet, MaskSet, WideSet};
use std::alloc::{AllocError, Global};
use std::fs;

/// The state's FIPS code.
const STATE: u8 = 37;

/// The most counties of a group that is counted, if no word says another limit.
const LIMIT: u16 = 4;

/// The counties of the state, and the pairs of those that are adjacent.
#[derive(Drop)]
struct State {
    counties: Vec<County>,
    pairs: Vec<(CountyCode, CountyCode)>,
}

/// Returns the `counties` with one person each. In a chamber with as many seats as counties, each set of them suits as
/// many seats as it has counties.
fn of_one_person(alloc: Global, counties: &[County]) -> Result<Vec<County>, AllocError> {
    let mut alike = Vec::new(alloc);
    for county in counties {
        alike.push(County {
            code: county.code,
            people: 1,
        })?;
    }
    Ok(alike)
}

/// Reads the counties of the state from the two census files.
fn load_counties(rt: &HostRuntime) -> Result<Vec<County>> {
    let geo = fs::read(rt, "nc2020geo.pl")?;
    let segment = fs::read(rt, "nc000012020.pl")?;
    Ok(read_counties(rt.alloc(), &geo, &segment, STATE)?)
}

/// Reads the pairs of adjacent `counties` from the file of borders.
fn load_pairs(rt: &HostRuntime, counties: &[County]) -> Result<Vec<(CountyCode, CountyCode)>> {
    let adjacency = fs::read(rt, "county_borders.txt")?;
    let listed = listed_codes(rt.alloc(), counties)?;
    Ok(read_pairs(rt.alloc(), &adjacency, &listed)?)
}

impl State {
    /// Reads the state from the files.
    fn load(rt: &HostRuntime) -> Result<Self> {
        let counties = load_counties(rt)?;
        let pairs = load_pairs(rt, &counties)?;
        Ok(State { counties, pairs })
    }

    /// Builds the problem for a chamber of `chamber` seats.
    fn problem(&self, alloc: Global, chamber: u16) -> Result<Problem> {
        Ok(Problem::build(alloc, &self.counties, &self.pairs, &[], chamber)?)
    }

    /// Builds the problem of 100 seats, as many as there are counties, with one person in each county.
    fn equal_problem(&self, alloc: Global) -> Result<Problem> {
        let counties = of_one_person(alloc, &self.counties)?;
        Ok(Problem::build(alloc, &counties, &self.pairs, &[], 100)?)
    }
}

/// Counts the lawful groups of an order that have at most `limit` counties. Returns how many they are, and how many
/// steps they took.
fn count_over<C: CountySet>(alloc: Global, ordered: &Ordered, limit: u16) -> Result<(usize, u64)>
    requires { 128 ≤ C.PLACES }
{
    room_for::<C>(ordered)?;
    let places = ordered.places();
    let graph: CountyGraph<C> = CountyGraph::build(alloc, ordered)?;
    let mut steps = Steps::new(u64::MAX);
    let mut groups = 0_usize;
    for place in 0..places {
        let list: GroupList<C> = groups_over(&graph, place, limit, &mut steps)?;
        groups = groups.saturating_add(list.groups.len());
    }
    Ok((groups, steps.used()))
}

/// Counts the lawful groups of a problem that have at most `limit` counties. Returns how many they are, and how many
/// steps they took.
fn count<C: CountySet>(alloc: Global, problem: &Problem, limit: u16) -> Result<(usize, u64)>
    requires { 128 ≤ C.PLACES }
{
    let order = listed_codes(alloc, problem.counties())?;
    let ordered = Ordered::build(alloc, problem, &order)?;
    count_over::<C>(alloc, &ordered, limit)
}

/// Prints how many lawful groups of at most `limit` counties a `chamber` has, and how many steps they took.
fn show_chamber<C: CountySet>(
    rt: &HostRuntime,
    state: &State,
    chamber: u16,
    limit: u16,
) -> Result<()>
    requires { 128 ≤ C.PLACES }
{
    let (groups, steps) = count::<C>(rt.alloc(), &state.problem(rt.alloc(), chamber)?, limit)?;
    println!(rt; "chamber {chamber}: {groups} lawful groups, {steps} steps")?;
    Ok(())
}

/// Prints how many lawful groups and connected sets there are of at most `limit` counties.
fn show_counts<C: CountySet>(rt: &HostRuntime, state: &State, limit: u16) -> Result<()>
    requires { 128 ≤ C.PLACES }
{
    show_chamber::<C>(rt, state, 50, limit)?;
    show_chamber::<C>(rt, state, 120, limit)?;
    let (sets, _) = count::<C>(rt.alloc(), &state.equal_problem(rt.alloc())?, limit)?;
    println!(rt; "{sets} connected sets")?;
    Ok(())
}

/// Prints the counts for at most `limit` counties, by sets of a `form`: `lists`, `masks` or `wide`. Returns an error
/// for any other form.
fn show_in(rt: &HostRuntime, state: &State, limit: u16, form: &str) -> Result<()> {
    println!(rt; "-- carolina by {form}")?;
    match form {
        "lists" => show_counts::<ListSet>(rt, state, limit),
        "masks" => show_counts::<MaskSet>(rt, state, limit),
        "wide" => show_counts::<WideSet>(rt, state, limit),
        _ => Err(Error::msg("a form of sets is lists, masks or wide")),
    }
}

/// Prints the counts for at most `limit` counties, by sets of a `form`: `lists`, `masks` or `wide`. Returns an error
/// for any other form.
pub(crate) fn show_form(rt: &HostRuntime, limit: u16, form: &str) -> Result<()> {
    show_in(rt, &State::load(rt)?, limit, form)
}

/// Prints the pairs of adjacent counties of `state`, a line for each pair.
fn show_pairs(rt: &HostRuntime, state: &State) -> Result<()> {
    println!(rt; "-- carolina")?;
    for (a, b) in &state.pairs {
        println!(rt; "{a}|{b}")?;
    }
    Ok(())
}

/// Prints all best groupings of the Senate and of the House.
fn show_lists(rt: &HostRuntime, state: &State) -> Result<()> {
    println!(rt; "-- carolina, all best groupings")?;
    for chamber in [50, 120] {
        show_solved(rt, &state.problem(rt.alloc(), chamber)?)?;
    }
    Ok(())
}

/// Prints the pairs of adjacent counties, the counts by each form of sets, and all best groupings.
pub(crate) fn show(rt: &HostRuntime) -> Result<()> {
    let state = State::load(rt)?;
    show_pairs(rt, &state)?;
    for form in ["lists", "masks", "wide"] {
        show_in(rt, &state, LIMIT, form)?;
    }
    show_lists(rt, &state)
}
