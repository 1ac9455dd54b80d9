//! Sets of places.

ghost use Rattle.std.specs.Prelude.{◌≤◌};

use crate::groups::show_places;
use anyhow::Result;
use place_sets::{CountySet, ListSet, MaskSet, WideSet, by_size_and_places};
use std::alloc::{AllocError, Global};

/// Returns the set of these `places`. Places from 128 on are left out.
fn set_of<C: CountySet>(alloc: Global, places: &[u16]) -> Result<C, AllocError>
    requires { 128 ≤ C.PLACES }
{
    let mut set = C::empty(alloc)?;
    for place in places {
        if *place < 128 {
            set = set.with(alloc, *place)?;
        }
    }
    Ok(set)
}

/// Prints which place of a `set` comes next from some places on.
fn show_next<C: CountySet>(rt: &HostRuntime, set: &C) -> Result<()> {
    for from in [0, 3, 6, 12] {
        println!(rt; "next from {from}: {:?}", set.next(from))?;
    }
    Ok(())
}

/// Prints how the sets `one` and `other` stand to each other.
fn show_relations<C: CountySet>(rt: &HostRuntime, one: &C, other: &C) -> Result<()> {
    println!(rt;
        "within {}, meets {}, first outside {:?}, order {:?}",
        one.within(other),
        one.meets(other),
        one.first_outside(other),
        by_size_and_places(one, other)
    )?;
    Ok(())
}

/// Odd places, out of order, and 5 twice.
const ODD: &[u16] = &[5, 11, 3, 5];

/// Low places.
const LOW: &[u16] = &[0, 2, 3, 8];

/// Prints a set and what is next in it.
fn show_set<C: CountySet>(rt: &HostRuntime) -> Result<()>
    requires { 128 ≤ C.PLACES }
{
    let odd: C = set_of(rt.alloc(), ODD)?;
    println!(rt; "{} places", odd.size())?;
    show_places(rt, &odd)?;
    show_next(rt, &odd)
}

/// Prints a union, and how it stands to one of its sides.
fn show_union<C: CountySet>(rt: &HostRuntime) -> Result<()>
    requires { 128 ≤ C.PLACES }
{
    let alloc = rt.alloc();
    let odd: C = set_of(alloc, ODD)?;
    let both = odd.union(alloc, &set_of(alloc, LOW)?)?;
    show_places(rt, &both)?;
    show_relations(rt, &odd, &both)?;
    show_relations(rt, &both, &odd)
}

/// Prints a union without one of its sides, and what it has in common with the other.
fn show_parts<C: CountySet>(rt: &HostRuntime) -> Result<()>
    requires { 128 ≤ C.PLACES }
{
    let alloc = rt.alloc();
    let (odd, low): (C, C) = (set_of(alloc, ODD)?, set_of(alloc, LOW)?);
    let both = odd.union(alloc, &low)?;
    show_places(rt, &both.copy(alloc)?.minus(&odd))?;
    show_places(rt, &both.copy(alloc)?.intersection(&low))
}

/// Prints a set without one of its places and without one that it lacks.
fn show_without<C: CountySet>(rt: &HostRuntime) -> Result<()>
    requires { 128 ≤ C.PLACES }
{
    let alloc = rt.alloc();
    let odd: C = set_of(alloc, ODD)?;
    let rest = odd.copy(alloc)?.without(3).without(4);
    show_places(rt, &rest)?;
    show_relations(rt, &rest, &set_of(alloc, LOW)?)
}

/// Prints how two sets of one size stand to each other, and how the empty set stands to one of them.
fn show_sizes<C: CountySet>(rt: &HostRuntime) -> Result<()>
    requires { 128 ≤ C.PLACES }
{
    let alloc = rt.alloc();
    let one: C = set_of(alloc, &[1, 8])?;
    show_relations(rt, &one, &set_of(alloc, &[1, 9])?)?;
    show_relations(rt, &C::empty(alloc)?, &one)
}

/// Prints what each call answers on sets of a few places.
pub(crate) fn show<C: CountySet>(rt: &HostRuntime) -> Result<()>
    requires { 128 ≤ C.PLACES }
{
    show_set::<C>(rt)?;
    show_union::<C>(rt)?;
    show_parts::<C>(rt)?;
    show_without::<C>(rt)?;
    show_sizes::<C>(rt)
}

/// Prints the last place of a list.
fn show_last_of_list(rt: &HostRuntime) -> Result<()> {
    let alloc = rt.alloc();
    let last = ListSet::empty(alloc)?.with(alloc, 65_535)?;
    println!(rt;
        "{} {:?} {}",
        last.has(65_535),
        last.next(7),
        last.without(65_535).size()
    )?;
    Ok(())
}

/// Prints the last place of a mask.
fn show_last_of_mask(rt: &HostRuntime) -> Result<()> {
    let alloc = rt.alloc();
    let last = MaskSet::empty(alloc)?.with(alloc, 127)?;
    println!(rt; "{} {:?} {:?}", last.has(127), last.next(7), last.next(128))?;
    Ok(())
}

/// Returns the wide mask of the last places of both halves, which are 127 and 255.
fn wide_ends(alloc: Global) -> Result<WideSet> {
    Ok(WideSet::empty(alloc)?.with(alloc, 255)?.with(alloc, 127)?)
}

/// Prints the places of both halves of a wide mask.
fn show_halves(rt: &HostRuntime) -> Result<()> {
    let ends = wide_ends(rt.alloc())?;
    println!(rt; "{} {} {}", ends.has(255), ends.has(128), ends.size())?;
    println!(rt;
        "{:?} {:?} {:?}",
        ends.next(0),
        ends.next(128),
        ends.next(256)
    )?;
    Ok(())
}

/// Prints how the halves of a wide mask stand to the whole.
fn show_half_relations(rt: &HostRuntime) -> Result<()> {
    let alloc = rt.alloc();
    let start = WideSet::empty(alloc)?.with(alloc, 128)?;
    let ends = wide_ends(alloc)?;
    show_relations(rt, &ends, &wide_ends(alloc)?.without(127))?;
    show_relations(rt, &ends, &wide_ends(alloc)?.without(255))?;
    show_relations(rt, &start, &ends)
}

/// Prints the last places of each form, and wide masks with places in both halves.
pub(crate) fn show_ends(rt: &HostRuntime) -> Result<()> {
    show_last_of_list(rt)?;
    show_last_of_mask(rt)?;
    show_halves(rt)?;
    show_half_relations(rt)
}
