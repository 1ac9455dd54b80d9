//! The connected parts of regions.

ghost use Rattle.std.specs.Prelude.{◌≤◌};

use crate::groups::show_places;
use crate::room::room_for;
use crate::sketch::RING_OF_FOUR;
use anyhow::Result;
use connected_sets::{CountyGraph, part_around};
use county_codes::listed_codes;
use county_problem::{Ordered, Problem};
use place_sets::CountySet;

/// Prints a `part`, and what is left without it.
fn show_cut<C: CountySet>(rt: &HostRuntime, part: &C, rest: &C) -> Result<()>
    requires { 128 ≤ C.PLACES }
{
    print!(rt; "part")?;
    show_places(rt, part)?;
    print!(rt; "left")?;
    show_places(rt, rest)
}

/// Prints the connected part around place 0 of the places of `ordered` that aren't in `out`, and the places that are
/// left. Prints nothing if place 0 isn't among them.
fn show_part<C: CountySet>(rt: &HostRuntime, ordered: &Ordered, out: &[u16]) -> Result<()>
    requires { 128 ≤ C.PLACES }
{
    let alloc = rt.alloc();
    room_for::<C>(ordered)?;
    let places = ordered.places();
    let graph: CountyGraph<C> = CountyGraph::build(alloc, ordered)?;
    let mut region = C::empty(alloc)?;
    for place in 0..places {
        if !out.contains(&place) {
            region = region.with(alloc, place)?;
        }
    }
    if places > 0 && region.has(0) {
        let (part, rest) = part_around(&graph, &region, 0)?;
        show_cut(rt, &part, &rest)?;
    }
    Ok(())
}

/// Lists of places that are left out of the ring of four.
const TAKEN: &[&[u16]] = &[&[], &[1], &[1, 3]];

/// Prints parts of the counties of `problem`, in the order in which they are listed. For each part, a list of places of
/// `TAKEN` is left out.
fn show_parts<C: CountySet>(rt: &HostRuntime, problem: &Problem) -> Result<()>
    requires { 128 ≤ C.PLACES }
{
    let order = listed_codes(rt.alloc(), problem.counties())?;
    let ordered = Ordered::build(rt.alloc(), problem, &order)?;
    for out in TAKEN {
        show_part::<C>(rt, &ordered, out)?;
    }
    Ok(())
}

/// Prints parts of the ring of four.
pub(crate) fn show<C: CountySet>(rt: &HostRuntime) -> Result<()>
    requires { 128 ≤ C.PLACES }
{
    let ring = RING_OF_FOUR.problem(rt.alloc())?;
    show_parts::<C>(rt, &ring)
}
