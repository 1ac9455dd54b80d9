//! The lines of a valid bound leaf, if count lines bound the groups of a state.

ghost use Rattle.std.specs.{Prelude.{◌≡◌, ℕ, ◌+◌, ◌*◌, ◌≤◌, List, map, length, IfOk, MatchOption}, Vec.vec_items};
ghost use Rattle.county_codes.specs.Limits.{most_counties};
ghost use Rattle.grouping_laws.specs.Grouping.{counts, sets_of};
ghost use Rattle.connected_sets.specs.Graphs.{graph_order};
ghost use Rattle.certificate_data.specs.{Tree.{Allowance as AllowanceValue}, TreeValue.allowance_of};
ghost use Rattle.certificate_laws.specs.{BoundLines.{allowance, IsBound}, Search.{IsCountLine, AreCountLines}};
ghost use Rattle.search_groups.specs.Positions.{search_problem, search_round, search_state};
ghost use Rattle.bound_proofs.specs.CountLeaves.{IsListOf, IsPlacedIn, AreListsIn, BoundBy, BoundByNone};

use crate::lines::{count_lines, places_in};
use certificate_data::Allowance;
use county_codes::Grouping;
use place_sets::CountySet;
use search_ends::groups_of_size;
use search_groups::SearchInput;
use state_groups::State;
use state_judge::{closed_of_size, room_left};
use std::alloc::AllocError;

/// Returns how many groups of a `size`, in counties, the count line for that size allows. Smaller groups use up `used`
/// counties, at most 256. The `groups` are those of the size that fit.
fn count_allowance<C: CountySet>(
    input: &SearchInput<C>,
    state: &State<C>,
    size: u16,
    used: u32,
    groups: &[C],
) -> Result<u32, AllocError>
    requires at { IsPlacedIn C.PLACES C.test input.now state.now }
    requires size { 1 ≤ size }
    requires used { used ≤ most_counties }
    requires groups { IsListOf C.test (graph_order input.now.graph.now) (search_problem input.now) (search_round input.now) (search_state input.now C.test state.now) size groups.now }
    ensures line { IfOk
        result
        (λ allowed. (line : AllowanceValue)
        → IsCountLine input.now.round.now.format (search_problem input.now) (search_state input.now C.test state.now) size line
        → allowance (search_problem input.now) (search_state input.now C.test state.now) size used line
        ≡ allowed) }
    ensures few { IfOk result (λ allowed. (allowed ≤ most_counties) × (used + size * allowed ≤ most_counties)) }
{
    let graph = input.graph;
    let _places = graph.ordered.places();
    let _problem = graph.ordered.problem();
    let counted = places_in(graph.alloc, groups)?;
    let room = room_left(graph.alloc, graph.ordered, state, size, used)?;
    Ok((room / u32::from(size)).min(counted.size() / u32::from(size)))
}

/// Returns how many count lines make a valid bound leaf for this `target`. Returns `None` if no number of them up to
/// that of the `lists` does. The `lists` are those of the groups of the sizes from 1 on that fit.
fn lines_to_bound<C: CountySet>(
    input: &SearchInput<C>,
    state: &State<C>,
    target: &Grouping,
    lists: &[Vec<C>],
) -> Result<Option<u16>, AllocError>
    requires { AreListsIn C.PLACES C.test input.now state.now vec_items lists.now }
    ensures { IfOk
        result
        (λ found. MatchOption
        found
        (BoundByNone
        (search_problem input.now)
        (search_round input.now)
        (search_state input.now C.test state.now)
        (counts (sets_of target.now.groups.items))
        (length lists.now))
        (λ count. (count ≤ length lists.now)
        × BoundBy
        (search_problem input.now)
        (search_round input.now)
        (search_state input.now C.test state.now)
        (counts (sets_of target.now.groups.items))
        count)) }
{
    let limit = input.round.limit;
    let mut size = 0;
    let mut used = 0;
    for groups in lists {
        size += 1;
        let more = count_allowance(input, state, size, used, groups)?;
        let allowed = (closed_of_size(input.graph.ordered, state, size) + more) as usize;
        let wanted = groups_of_size(target, size);
        if allowed > wanted {
            return Ok(None);
        }
        if allowed < wanted {
            return Ok(Some(size));
        }
        used += u32::from(size) * more;
    }
    if size < limit {
        return Ok(None);
    }
    Ok(Some(size))
}

/// Returns the lines of a valid bound leaf of count lines. Returns `None` if no bound leaf of at most as many count
/// lines as there are `lists` is valid. The `lists` are those of the groups of the sizes from 1 on that fit.
pub(crate) fn bounding_lines<C: CountySet>(
    input: &SearchInput<C>,
    state: &State<C>,
    lists: &[Vec<C>],
) -> Result<Option<Vec<Allowance>>, AllocError>
    requires { AreListsIn C.PLACES C.test input.now state.now vec_items lists.now }
    ensures { IfOk
        result
        (λ found. MatchOption
        found
        ((lines : List AllowanceValue)
        → length lines ≤ length lists.now
        → AreCountLines input.now.round.now.format (search_problem input.now) (search_state input.now C.test state.now) 1 lines
        → ¬ IsBound (search_problem input.now) (search_round input.now) (search_state input.now C.test state.now) lines)
        (λ v. IsBound (search_problem input.now) (search_round input.now) (search_state input.now C.test state.now) (map allowance_of v.items))) }
{
    let Some(target) = &input.round.target else {
        return Ok(None);
    };
    let graph = input.graph;
    match lines_to_bound(input, state, target, lists)? {
        Some(count) => Ok(Some(count_lines(
            graph.alloc,
            graph.ordered,
            &lists[..usize::from(count)],
        )?)),
        None => Ok(None),
    }
}
