//! Orders of counties, seats allotted, and steps.

use crate::sketch::{STRANDING_PATH, Sketch, THIRTY_NINE_SEATS, codes};
use anyhow::{Context, Error, Result};
use county_problem::{OrderFault, Ordered, Problem, Steps, allot};

/// Prints the county at a `place`. Prints nothing if the order has no such place.
fn show_place(rt: &HostRuntime, ordered: &Ordered, place: u16) -> Result<()> {
    if place >= ordered.places() {
        return Ok(());
    }
    let (code, people) = (ordered.code(place), ordered.people(place));
    println!(rt;
        "place {place}: {code} of {people}, touches place 0: {}",
        ordered.touch(place, 0)
    )?;
    Ok(())
}

/// Prints `ordered` as a whole, and its counties place by place.
fn show_places(rt: &HostRuntime, ordered: &Ordered) -> Result<()> {
    println!(rt; "{ordered:?}")?;
    println!(rt;
        "{} places for {} seats",
        ordered.places(),
        ordered.problem().chamber()
    )?;
    for place in 0..ordered.places() {
        show_place(rt, ordered, place)?;
    }
    Ok(())
}

/// Prints the counties of an order place by place, or why the `numbers` give no order. Returns an error if memory was
/// refused.
fn show_order(rt: &HostRuntime, problem: &Problem, numbers: &[u32]) -> Result<()> {
    let order = codes(rt.alloc(), numbers)?;
    match Ordered::build(rt.alloc(), problem, &order) {
        Ok(ordered) => show_places(rt, &ordered),
        Err(OrderFault::Memory) => Err(Error::from(OrderFault::Memory)),
        Err(fault) => {
            println!(rt; "{fault}")?;
            Ok(())
        }
    }
}

/// Prints the seats that a `problem` allots to these numbers of `people`, or that it allots none. More people than the
/// problem has are too many.
fn show_seats(rt: &HostRuntime, problem: &Problem, people: &[u64]) -> Result<()> {
    let mut sum = 0_u64;
    for entry in people {
        sum = sum.checked_add(*entry).context("a sum")?;
    }
    if sum > problem.total_people() {
        println!(rt; "too many people")?;
        return Ok(());
    }
    match allot(rt.alloc(), problem, people)? {
        Some(seats) => println!(rt;
            "{:?} of {} seats left",
            seats.as_slice(),
            problem.seats_left()
        )?,
        None => println!(rt; "no seats for {people:?}")?,
    }
    Ok(())
}

/// Prints how three steps are taken up to a `limit`.
fn show_steps(rt: &HostRuntime, limit: u64) -> Result<()> {
    let mut steps = Steps::new(limit);
    for _ in 0..3 {
        let taken = steps.tick();
        println!(rt; "taken {taken}, used {} of {}", steps.used(), steps.limit())?;
    }
    Ok(())
}

/// Orders of the stranding path. Only the first names each county once.
const ORDERS: &[&[u32]] = &[&[5, 1, 3], &[1, 3, 3], &[1, 3], &[1, 3, 5, 7]];

/// Prints orders of the stranding path.
fn show_orders(rt: &HostRuntime) -> Result<()> {
    let path = STRANDING_PATH.problem(rt.alloc())?;
    for order in ORDERS {
        show_order(rt, &path, order)?;
    }
    Ok(())
}

/// Prints the seats that a sketched problem allots to these numbers of `people`.
fn show_allotted(rt: &HostRuntime, sketch: Sketch, people: &[u64]) -> Result<()> {
    let problem = sketch.problem(rt.alloc())?;
    show_seats(rt, &problem, people)
}

/// Returns the sketch of one county, which is withdrawn with one seat of a `chamber`.
fn withdrawn_alone(chamber: u16) -> Sketch<'static> {
    Sketch {
        people: &[(1, 100)],
        pairs: &[],
        withdrawn: &[(1, &[1])],
        chamber,
    }
}

/// Prints orders, seats and steps.
pub(crate) fn show(rt: &HostRuntime) -> Result<()> {
    show_orders(rt)?;
    show_allotted(rt, THIRTY_NINE_SEATS, &[1950, 1950])?;
    show_allotted(rt, THIRTY_NINE_SEATS, &[1950])?;
    show_allotted(rt, withdrawn_alone(1), &[])?;
    show_allotted(rt, withdrawn_alone(2), &[])?;
    show_steps(rt, 0)?;
    show_steps(rt, 2)
}
