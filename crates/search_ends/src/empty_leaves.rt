//! Bound leaves for a state where no group up to some size fits.

ghost use Rattle.std.specs.Prelude.{◌≡◌, ◌≤◌, map, ⊤, ◌⊎◌, IfOk, MatchOption};
ghost use Rattle.certificate_data.specs.TreeValue.{allowance_of, leaf_of};
ghost use Rattle.search_groups.specs.{Positions.{search_problem, search_round, search_state}, Standing.{StandsAhead, NoneUpTo}};
ghost use Rattle.search_ends.specs.{GivenLeaf.{IsStateIn, IsGivenAt, IsCompleteAt}, EmptyLines.{IsEmptyLine, AreEmptyThrough, EndsWith}};
ghost use Rattle.search_ends.specs.MissingGroups.{StandsLevel, TargetEndsAt};

use crate::standing::{first_difference, groups_of_size};
use certificate_data::{Allowance, Leaf, Weights};
use place_sets::CountySet;
use search_groups::SearchInput;
use state_groups::State;
use state_judge::{closed_of_size, room_left};
use std::alloc::AllocError;

/// Returns the line of a bound leaf for a `size`, in counties, that no group has. It is `room` if too few counties are
/// open to a group of the size, and `weigh 1` without weights otherwise.
fn empty_line<C: CountySet>(
    input: &SearchInput<C>,
    state: &State<C>,
    size: u16,
) -> Result<Allowance, AllocError>
    requires at { IsStateIn C.PLACES C.test input.now state.now }
    ensures { IfOk
        result
        (λ line. IsEmptyLine (search_problem input.now) (search_state input.now C.test state.now) size (allowance_of line)) }
{
    let alloc = input.graph.alloc;
    if room_left(alloc, input.graph.ordered, state, size, 0)? < u32::from(size) {
        return Ok(Allowance::Room);
    }
    Ok(Allowance::Weigh {
        quota: 1,
        weights: Weights::new(Vec::new(alloc)),
    })
}

/// Returns the lines of a bound leaf for the sizes from 1 through `last`, where no group has any of these sizes.
fn empty_lines<C: CountySet>(
    input: &SearchInput<C>,
    state: &State<C>,
    last: u16,
) -> Result<Vec<Allowance>, AllocError>
    requires at { IsStateIn C.PLACES C.test input.now state.now }
    ensures { IfOk
        result
        (λ v. AreEmptyThrough (search_problem input.now) (search_state input.now C.test state.now) last (map allowance_of v.items)) }
{
    let mut lines = Vec::new(input.graph.alloc);
    for below in 0..last {
        lines.push(empty_line(input, state, below + 1)?)?;
    }
    Ok(lines)
}

/// Returns a bound leaf that ends with the line `last` for the `size`. For the smaller sizes it has lines without a
/// group that fits.
pub(crate) fn ending_leaf<C: CountySet>(
    input: &SearchInput<C>,
    state: &State<C>,
    size: u16,
    last: Allowance,
) -> Result<Leaf, AllocError>
    requires at { IsStateIn C.PLACES C.test input.now state.now }
    requires size { 1 ≤ size }
    ensures { IfOk
        result
        (λ leaf. EndsWith (search_problem input.now) (search_state input.now C.test state.now) size (allowance_of last) (leaf_of leaf)) }
{
    let mut lines = empty_lines(input, state, size - 1)?;
    lines.push(last)?;
    Ok(Leaf::Bound(lines))
}

/// Returns the last size of a bound leaf, where no group of at most `size` counties fits. It is the first size that
/// differs from the target, if fewer groups of it are closed than the target has. If all counts are the target's, it is
/// the limit. Otherwise it returns `None`.
fn last_size<C: CountySet>(input: &SearchInput<C>, state: &State<C>, size: u16) -> Option<u16>
    requires at { IsStateIn C.PLACES C.test input.now state.now }
    requires small { size ≤ input.now.round.now.limit }
    ensures { MatchOption
        result
        (size ≡ input.now.round.now.limit → StandsAhead (search_round input.now) (search_state input.now C.test state.now))
        (λ last. (last ≤ size) × TargetEndsAt (search_round input.now) (search_state input.now C.test state.now) last) }
{
    let Some(target) = &input.round.target else {
        return None;
    };
    let Some(first) = first_difference(input, target, state, size) else {
        if size < input.round.limit {
            return None;
        }
        return Some(size);
    };
    let closed = closed_of_size(input.graph.ordered, state, first) as usize;
    if closed < groups_of_size(target, first) {
        return Some(first);
    }
    None
}

/// Returns a bound leaf, where no group of at most `size` counties fits. Its lines go through the first size of which
/// fewer groups are closed than the target has. If all counts are the target's, they go through the limit.
///
/// Returns `None` if more groups are closed at the first size that differs. It also returns `None` if `size` is below
/// the limit and no size through `size` differs, or if there is no target.
///
/// The leaf is complete, or the closed groups have the target's counts through the limit.
///
/// Returns an error if memory was refused.
pub fn empty_leaf<C: CountySet>(
    input: &SearchInput<C>,
    state: &State<C>,
    size: u16,
) -> Result<Option<Leaf>, AllocError>
    requires at { IsStateIn C.PLACES C.test input.now state.now }
    requires small { size ≤ input.now.round.now.limit }
    requires none { NoneUpTo (search_problem input.now) (search_round input.now) (search_state input.now C.test state.now) size }
    ensures leaf { IfOk
        result
        (λ found. MatchOption
        found
        (size ≡ input.now.round.now.limit → StandsAhead (search_round input.now) (search_state input.now C.test state.now))
        (IsGivenAt C.test input.now state.now)) }
    ensures complete { IfOk
        result
        (λ found. MatchOption
        found
        ⊤
        (λ leaf. IsCompleteAt C.test input.now state.now leaf
        ⊎ StandsLevel (search_round input.now) (search_state input.now C.test state.now))) }
{
    match last_size(input, state, size) {
        Some(last) => Ok(Some(Leaf::Bound(empty_lines(input, state, last)?))),
        None => Ok(None),
    }
}
