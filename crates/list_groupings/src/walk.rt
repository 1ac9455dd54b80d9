//! The walk through the tree of a certificate. It finds the groupings at the ends of the tree, up to the first gap.

ghost use Rattle.std.specs.Prelude.{◌≡◌, ℕ, ◌+◌, ◌<◌, ◌^◌, map, length};
ghost use Rattle.certificate_laws.specs.{State.State, Proving.limit_of};
ghost use Rattle.certificate_data.specs.RoundValue.{round_of};
ghost use Rattle.certificate_data.specs.TreeValue.{tree_of, leaf_of, list_of_takes, allowance_of};
ghost use Rattle.certificate_data.specs.Tree.{leaf as leaf_tree, bound};
ghost use Rattle.checker_laws.specs.Lines.{tree_lines, takes_lines, leaf_lines};
ghost use Rattle.list_groupings.specs.Walking.{IsWalkInput, IsTreeAt, AreAt, WalksTree, WalksTakes};

use crate::gap::Gap;
use crate::position::Position;
use crate::seating::seated_grouping;
use crate::shortfall::falls_short;
use certificate_data::{Allowance, Leaf, Round, Take, Tree};
use county_codes::Grouping;
use county_problem::{Counts, Problem};
use std::alloc::Global;

/// What the walk works from: the problem, the round of the certificate, and how many groups of each size its target
/// has.
#[derive(Drop)]
pub(crate) struct WalkInput<'a> {
    pub(crate) alloc: Global,
    pub(crate) problem: &'a Problem,
    pub(crate) round: &'a Round,
    pub(crate) wanted: &'a Counts,
}

/// The number of the line that comes next, and the groupings found.
#[derive(Debug, Drop)]
pub(crate) struct Found {
    pub(crate) line: u64,
    pub(crate) list: Vec<Grouping>,
}

/// Why the walk stopped.
#[derive(Clone, Copy, Debug, PartialEq, Eq)]
pub(crate) enum WalkStop {
    /// The first gap, and the line of its leaf.
    Open(Gap, u64),
    /// Memory was refused.
    Memory,
}

/// Returns the limit of a branch: the one that it names (`named`), or else the round's.
fn limit_for(round: &Round, named: Option<u16>) -> u16
    ensures { result ≡ limit_of (round_of round.now) named }
{
    match named {
        Some(limit) => limit,
        None => round.limit,
    }
}

/// Appends the grouping of a bound leaf to the list of `found`, if the leaf doesn't fall short.
fn add_end(
    input: &WalkInput,
    position: &Position,
    lines: &[Allowance],
    found: &mut Found,
) -> Result<(), WalkStop>
    requires input { IsWalkInput input.now }
    requires at { (s : State) × IsTreeAt input.now s position.now (leaf_tree (bound (map allowance_of lines.now))) }
    requires lines { found.old.line + (1 + length lines.now) < 2 ^ 64 }
    ensures walked { (s : State)
        → IsTreeAt input.now s position.now (leaf_tree (bound (map allowance_of lines.now)))
        → WalksTree input.now s (leaf_tree (bound (map allowance_of lines.now))) found.old result found.new }
{
    let _counties = input.problem.counties();
    let line = found.line;
    found.line += 1 + lines.len() as u64;
    if falls_short(position, input.wanted, input.round.limit, lines) {
        return Ok(());
    }
    if !position.rest.is_empty() {
        return Err(WalkStop::Open(Gap::CountiesLeft, line));
    }
    let Ok(seated) = seated_grouping(input.alloc, input.problem, &position.closed) else {
        return Err(WalkStop::Memory);
    };
    let Some(grouping) = seated else {
        return Err(WalkStop::Open(Gap::SeatsOff, line));
    };
    let Ok(()) = found.list.push(grouping) else {
        return Err(WalkStop::Memory);
    };
    Ok(())
}

/// Goes through `leaf` at `position`. A bound leaf may add a grouping to `found`. Of any other leaf only its one line
/// is counted. Returns `Open` if the leaf has a gap, or `Memory` if memory was refused.
fn put_leaf(
    input: &WalkInput,
    position: &Position,
    leaf: &Leaf,
    found: &mut Found,
) -> Result<(), WalkStop>
    requires input { IsWalkInput input.now }
    requires at { (s : State) × IsTreeAt input.now s position.now (leaf_tree (leaf_of leaf.now)) }
    requires lines { found.old.line + leaf_lines (leaf_of leaf.now) < 2 ^ 64 }
    ensures walked { (s : State)
        → IsTreeAt input.now s position.now (leaf_tree (leaf_of leaf.now))
        → WalksTree input.now s (leaf_tree (leaf_of leaf.now)) found.old result found.new }
{
    match leaf {
        Leaf::Bound(lines) => add_end(input, position, lines, found),
        // Every other leaf has one line, and no grouping ends there.
        _ => {
            found.line += 1;
            Ok(())
        }
    }
}

/// Goes through the `takes` of a branch from `position` on, and past the mark behind them. Returns `Open` at the first
/// gap, or `Memory` if memory was refused.
#[cycle(walk)]
fn put_takes(
    input: &WalkInput,
    position: &Position,
    takes: &[Take],
    found: &mut Found,
) -> Result<(), WalkStop>
    requires input { IsWalkInput input.now }
    requires at { (s : State) × AreAt input.now s position.now (list_of_takes takes.now) }
    requires lines { found.old.line + takes_lines (list_of_takes takes.now) < 2 ^ 64 }
    ensures walked { (s : State)
        → AreAt input.now s position.now (list_of_takes takes.now)
        → WalksTakes input.now s (list_of_takes takes.now) found.old result found.new }
{
    'taking: for take in takes {
        found.line += 1;
        let Ok(closed) = position.with_closed(input.alloc, &take.codes) else {
            return Err(WalkStop::Memory);
        };
        match put_tree(input, closed, &take.tree, found) {
            Ok(()) => {}
            Err(stop) => return Err(stop),
        }
    }
    found.line += 1;
    Ok(())
}

/// Goes through `tree` from `position` on.
#[cycle(walk)]
pub(crate) fn put_tree(
    input: &WalkInput,
    position: Position,
    tree: &Tree,
    found: &mut Found,
) -> Result<(), WalkStop>
    requires input { IsWalkInput input.now }
    requires at { (s : State) × IsTreeAt input.now s position (tree_of tree.now) }
    requires lines { found.old.line + tree_lines (tree_of tree.now) < 2 ^ 64 }
    ensures walked { (s : State)
        → IsTreeAt input.now s position (tree_of tree.now)
        → WalksTree input.now s (tree_of tree.now) found.old result found.new }
{
    let mut position = position;
    'branching: for branch in &tree.branches {
        found.line += 1;
        match put_takes(input, &position, &branch.takes, found) {
            Ok(()) => {}
            Err(stop) => return Err(stop),
        }
        let limit = limit_for(input.round, branch.limit);
        let Ok(raised) = position.raised(input.alloc, branch.county, limit) else {
            return Err(WalkStop::Memory);
        };
        position = raised;
    }
    put_leaf(input, &position, &tree.leaf, found)
}
