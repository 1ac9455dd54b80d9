//! How the closed groups of a state compare with the target, size by size.

ghost use Rattle.std.specs.Prelude.{◌≡◌, ⊤, MatchOption};
ghost use Rattle.grouping_laws.specs.Grouping.{counts, sets_of};
ghost use Rattle.search_groups.specs.{Positions.{search_round, search_state}, Standing.IsLevel};
ghost use Rattle.search_ends.specs.{GivenLeaf.IsStateIn, MissingGroups.{DiffersAt, IsMissing}};

use county_codes::Grouping;
use place_sets::CountySet;
use search_groups::SearchInput;
use state_groups::State;
use state_judge::closed_of_size;

/// Returns the number of groups of the grouping that have `size` counties.
pub fn groups_of_size(grouping: &Grouping, size: u16) -> usize
    ensures { result ≡ counts (sets_of grouping.now.groups.items) size }
{
    let mut count = 0;
    for group in &grouping.groups {
        if group.codes.as_slice().len() == usize::from(size) {
            count += 1;
        }
    }
    count
}

/// Returns the first size from 1 through `last`, in counties, at which the number of closed groups isn't the target's.
/// Returns `None` if there are as many of each size.
pub(crate) fn first_difference<C: CountySet>(
    input: &SearchInput<C>,
    target: &Grouping,
    state: &State<C>,
    last: u16,
) -> Option<u16>
    requires at { IsStateIn C.PLACES C.test input.now state.now }
    ensures { MatchOption
        result
        (IsLevel (counts (sets_of target.now.groups.items)) (search_state input.now C.test state.now) last)
        (DiffersAt (counts (sets_of target.now.groups.items)) (search_state input.now C.test state.now) last) }
{
    for below in 0..last {
        let size = below + 1;
        let closed = closed_of_size(input.graph.ordered, state, size) as usize;
        if closed != groups_of_size(target, size) {
            return Some(size);
        }
    }
    None
}

/// Returns how many more groups of a `size`, in counties, the target has than are closed, provided that there are as
/// many of each smaller size. Returns `None` if no group is missing, if a smaller size differs, or if there is no
/// target.
pub fn wanted_more<C: CountySet>(input: &SearchInput<C>, state: &State<C>, size: u16) -> Option<u32>
    requires at { IsStateIn C.PLACES C.test input.now state.now }
    ensures { MatchOption result ⊤ (IsMissing (search_round input.now) (search_state input.now C.test state.now) size) }
{
    let Some(target) = &input.round.target else {
        return None;
    };
    if first_difference(input, target, state, size.saturating_sub(1)).is_some() {
        return None;
    }
    let closed = closed_of_size(input.graph.ordered, state, size) as usize;
    let wanted = groups_of_size(target, size);
    if wanted <= closed {
        return None;
    }
    u32::try_from(wanted - closed).ok()
}
