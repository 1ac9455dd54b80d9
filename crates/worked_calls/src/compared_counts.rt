//! Counts compared, copies of groupings and of counts, and the fault of a group that no file can spell.

use crate::sketch::{THREE_PAIRS, grouping};
use anyhow::{Error, Result};
use county_problem::{Counts, GroupingFault, compare, judge};
use std::alloc::Global;

/// Sets with their seats.
type Sets<'a> = &'a [(u16, &'a [u32])];

/// The counties of the three pairs as one county and five.
const ONE_AND_FIVE_SETS: Sets = &[(1, &[1]), (2, &[3, 5, 7, 9, 11])];

/// The three pairs.
const PAIRS: Sets = &[(1, &[1, 3]), (1, &[5, 7]), (1, &[9, 11])];

/// The three pairs, the first of which has two seats.
const TWO_SEATS: Sets = &[(2, &[1, 3]), (1, &[5, 7]), (1, &[9, 11])];

/// The three pairs, with the counties of the first the other way round.
const TURNED: Sets = &[(1, &[3, 1]), (1, &[5, 7]), (1, &[9, 11])];

/// The three pairs, with the first in the last place.
const MOVED: Sets = &[(1, &[5, 7]), (1, &[9, 11]), (1, &[1, 3])];

/// The first of the three pairs, and a group that has no county.
const EMPTY_GROUP: Sets = &[(1, &[1, 3]), (1, &[])];

/// Returns the counts of the grouping of `sets`, which is judged from its copy over the three pairs. Returns an error
/// if the grouping isn't lawful.
fn counts_of(alloc: Global, sets: Sets) -> Result<Counts> {
    let path = THREE_PAIRS.problem(alloc)?;
    let grouping = grouping(alloc, sets)?;
    Ok(judge(alloc, &path, &grouping.copy()?)?)
}

/// Prints the size of the longest group that `counts` have, and how many groups there are of each size from 0 up to one
/// more.
fn show_counts(rt: &HostRuntime, counts: &Counts) -> Result<()> {
    println!(rt; "the longest group has {}", counts.longest())?;
    for size in 0..=counts.longest().saturating_add(1) {
        println!(rt; "groups of {size}: {}", counts.of(size))?;
    }
    Ok(())
}

/// Prints how the `first` counts stand to the `second`, and whether the two are equal.
fn show_order(rt: &HostRuntime, first: &Counts, second: &Counts) -> Result<()> {
    println!(rt; "{:?}, equal {}", compare(first, second), first == second)?;
    Ok(())
}

/// Prints the counts of one and five, and how they stand to those of the three pairs and to their own copy.
fn show_three_pairs(rt: &HostRuntime) -> Result<()> {
    let first = counts_of(rt.alloc(), ONE_AND_FIVE_SETS)?;
    let second = counts_of(rt.alloc(), PAIRS)?;
    show_counts(rt, &first)?;
    show_order(rt, &first, &second)?;
    show_order(rt, &second, &first)?;
    show_order(rt, &first.copy()?, &first)
}

/// Prints which groupings equal that of the three pairs.
fn show_equal(rt: &HostRuntime) -> Result<()> {
    let pairs = grouping(rt.alloc(), PAIRS)?;
    for sets in [PAIRS, TWO_SEATS, TURNED, MOVED, &[]] {
        println!(rt; "equal: {}", grouping(rt.alloc(), sets)? == pairs)?;
    }
    Ok(())
}

/// Prints the fault of a group without a county. Returns an error if memory was refused.
fn show_empty_group(rt: &HostRuntime) -> Result<()> {
    let path = THREE_PAIRS.problem(rt.alloc())?;
    let grouping = grouping(rt.alloc(), EMPTY_GROUP)?;
    match judge(rt.alloc(), &path, &grouping) {
        Ok(counts) => show_counts(rt, &counts),
        Err(GroupingFault::Memory) => Err(Error::from(GroupingFault::Memory)),
        Err(fault) => {
            println!(rt; "{fault}")?;
            Ok(())
        }
    }
}

/// Prints counts, equal groupings and a fault.
pub(crate) fn show(rt: &HostRuntime) -> Result<()> {
    show_three_pairs(rt)?;
    show_equal(rt)?;
    show_empty_group(rt)
}
