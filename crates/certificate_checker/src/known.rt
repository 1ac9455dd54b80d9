//! What a checker knows of the groups at a state of a wide round, so that it need not grow them anew for each line. It
//! is what a search knows there: a position.

ghost use Rattle.std.specs.Prelude.{◌≡◌, ℕ, ◌+◌, ◌*◌, ◌≤◌, ◌<◌, ◌∷◌, List, length, All, Some, IfOk, IfSome, IsErrOf, IsTrue, MatchOption, MatchResult, ⊤};
ghost use Rattle.county_codes.specs.Limits.{most_counties};
ghost use Rattle.connected_sets.specs.Graphs.{graph_problem, graph_order, graph_places, place_problem};
ghost use Rattle.connected_sets.specs.declared.stop.Stop.{Stop};
ghost use Rattle.connected_laws.specs.Listing.{AreBelow};
ghost use Rattle.county_problem.specs.OrderedValue.{code_at};
ghost use Rattle.certificate_data.specs.{RoundValue.round_of, declared.format.Format.TheVariants.Wide};
ghost use Rattle.certificate_data.specs.TreeValue.{allowance_of};
ghost use Rattle.certificate_laws.specs.State.{close, raise, IsState, State as StateValue};
ghost use Rattle.certificate_laws.specs.{Fitting.Fits, Groups.{AreGroupsAt, IsSetAt}};
ghost use Rattle.certificate_laws.specs.Proving.{CanBranch, NamesLimit, limit_of};
ghost use Rattle.checker_laws.specs.{Branches.IsBranchFault, Leaves.IsAllowanceFault, Cost.{IsSetCount, LineLooks}};
ghost use Rattle.state_judge.specs.{LineStops.StopsAt, AllowanceVerdicts.{AllowanceIsSpelled, IsAllowed}};
ghost use Rattle.state_judge.specs.{Candidates.AreListed, declared.fault.LineStop.LineStop};
ghost use Rattle.state_groups.specs.PlacedValues.{state_at, codes_of_set, codes_of_sets, IsPlaced, IsClosable};
ghost use Rattle.search_groups.specs.PartLists.{AreListsOf};
ghost use Rattle.search_groups.specs.Positions.{search_problem, search_round, search_state, IsSearchInput, IsPositionAt};
ghost use Rattle.certificate_checker.specs.{Judging.IsCheckInput, Knowing.{IsKnownAt, AreOfKnownSize}};
ghost use Rattle.certificate_checker.specs.declared.input.CheckInput.{CheckInput};

use crate::input::CheckInput;
use certificate_data::{Allowance, Format};
use connected_sets::Stop;
use county_codes::CountyCode;
use county_problem::Steps;
use place_sets::CountySet;
use search_groups::{
    PartLists, Position, SearchInput, closed_position, groups_to_take, larger_groups, next_groups,
    position_at, raised_position, stuck_county, without_dead,
};
use state_groups::{State, open_places};
use state_judge::{Allowed, Branching, LineStop, closed_of_size, judge_allowance, judge_branch};
use std::alloc::AllocError;

/// The most steps that a list of the groups of one county more may take.
const MOST_STEPS: u64 = 100_000;

/// How many more groups of a size have to be wanted than are closed, so that a list of the groups of one county more
/// is made. It serves each branch below, and there are few where few are wanted.
const LEAST_WANTED: u32 = 4;

/// Returns what is known at `state`, which is a state of the round, before any line is judged there: in a wide round,
/// that no group has less than one county. Returns `None` in a plain round.
///
/// # Errors
///
/// Returns `AllocError` if memory was refused.
pub fn known_at<C: CountySet>(
    input: &CheckInput<C>,
    state: &State<C>,
) -> Result<Option<Position<C>>, AllocError>
    requires input { IsCheckInput C.PLACES C.test input.now }
    requires placed { IsPlaced (graph_places input.now.graph.now) C.test state.now }
    requires state { IsState (graph_problem input.now.graph.now) (round_of input.now.round.now) (state_at (graph_order input.now.graph.now) C.test state.now) }
    ensures { IfOk result (IsKnownAt C.test input.now (state_at (graph_order input.now.graph.now) C.test state.now)) }
{
    match input.round.format {
        Format::Wide => Ok(Some(position_at(
            &SearchInput {
                graph: input.graph,
                round: input.round,
            },
            state,
        )?)),
        Format::Plain => Ok(None),
    }
}

/// Returns what is known where the first of the groups in `left` is closed. The groups fit the `state`, and have the
/// known size. Returns `None` if nothing is known at the state, or if there is no group.
///
/// # Errors
///
/// Returns `AllocError` if memory was refused.
pub fn closed_known<C: CountySet>(
    input: &CheckInput<C>,
    state: &State<C>,
    known: &Option<Position<C>>,
    left: &[C],
) -> Result<Option<Position<C>>, AllocError>
    requires input { IsCheckInput C.PLACES C.test input.now }
    requires known { IsKnownAt C.test input.now (state_at (graph_order input.now.graph.now) C.test state.now) known.now }
    requires below { AreBelow (graph_places input.now.graph.now) C.test left.now }
    requires groups { AreOfKnownSize C.test input.now (state_at (graph_order input.now.graph.now) C.test state.now) known.now left.now }
    ensures { (group : C) (others : List C)
        → left.now ≡ group ∷ others
        → IfOk
        result
        (IsKnownAt C.test input.now (close (codes_of_set (graph_order input.now.graph.now) C.test group) (state_at (graph_order input.now.graph.now) C.test state.now))) }
{
    let Some(position) = known else {
        return Ok(None);
    };
    let Some((group, _)) = left.split_first() else {
        return Ok(None);
    };
    let closed = closed_position(
        &SearchInput {
            graph: input.graph,
            round: input.round,
        },
        position,
        group,
    )?;
    Ok(Some(closed))
}

/// Returns what is known where the county at `place` is raised past the `limit`. Returns `None` if the groups of
/// `limit` counties aren't known at the `state`.
///
/// # Errors
///
/// Returns `AllocError` if memory was refused.
pub fn raised_known<C: CountySet>(
    input: &CheckInput<C>,
    state: &State<C>,
    known: Option<Position<C>>,
    place: u16,
    limit: u16,
) -> Result<Option<Position<C>>, AllocError>
    requires input { IsCheckInput C.PLACES C.test input.now }
    requires known { IsKnownAt C.test input.now (state_at (graph_order input.now.graph.now) C.test state.now) known }
    requires place { place < graph_places input.now.graph.now }
    requires can { CanBranch (round_of input.now.round.now) (state_at (graph_order input.now.graph.now) C.test state.now) (code_at (graph_order input.now.graph.now) place) limit }
    ensures { IfOk
        result
        (IsKnownAt C.test input.now (raise (code_at (graph_order input.now.graph.now) place) limit (state_at (graph_order input.now.graph.now) C.test state.now))) }
{
    let Some(position) = known else {
        return Ok(None);
    };
    if position.size != limit {
        return Ok(None);
    }
    let raised = raised_position(
        &SearchInput {
            graph: input.graph,
            round: input.round,
        },
        position,
        place,
    )?;
    Ok(Some(raised))
}

/// Returns the position that knows the groups of one county more than `position`, at the same state. Returns `None` if
/// a group of the known size fits, if that size is at least the round's limit, or if a part of the rest is stuck.
/// Returns `StepLimit` if the `spare` steps ran out.
fn larger_position<C: CountySet>(
    search: &SearchInput<C>,
    position: Position<C>,
    lists: &mut PartLists<C>,
    spare: &mut Steps,
) -> Result<Option<Position<C>>, Stop>
    requires input { IsSearchInput C.PLACES C.test search.now }
    requires at { IsPositionAt C.test search.now (search_state search.now C.test position.state) position }
    requires lists { AreListsOf C.test (place_problem search.now.graph.now) (graph_places search.now.graph.now) lists.old }
    ensures at { IfOk result (λ found. MatchOption found ⊤ (IsPositionAt C.test search.now (search_state search.now C.test position.state))) }
    ensures larger { IfOk result (λ found. MatchOption found ⊤ (λ at. at.size ≡ position.size + 1)) }
    ensures lists { AreListsOf C.test (place_problem search.now.graph.now) (graph_places search.now.graph.now) lists.new }
{
    let tested = without_dead(search, position, spare)?;
    if !tested.groups.is_empty() || tested.size >= search.round.limit {
        return Ok(None);
    }
    if let Some(_) = stuck_county(search.graph, &tested.state)? {
        return Ok(None);
    }
    let groups = next_groups(search, &tested, lists, spare)?;
    Ok(Some(Position {
        size: tested.size + 1,
        groups,
        tested: true,
        larger: None,
        ..tested
    }))
}

/// Returns the position that knows the groups of at least `size` counties, at the same state. Returns `None` if a
/// smaller group fits, if a part of the rest is stuck, or if the spare steps ran out.
fn position_of_size<C: CountySet>(
    search: &SearchInput<C>,
    position: Position<C>,
    size: u16,
    lists: &mut PartLists<C>,
    spare: &mut Steps,
) -> Result<Option<Position<C>>, AllocError>
    requires input { IsSearchInput C.PLACES C.test search.now }
    requires at { IsPositionAt C.test search.now (search_state search.now C.test position.state) position }
    requires lists { AreListsOf C.test (place_problem search.now.graph.now) (graph_places search.now.graph.now) lists.old }
    ensures at { IfOk result (λ found. MatchOption found ⊤ (λ at. IsPositionAt C.test search.now (search_state search.now C.test position.state) at
        × (size ≤ at.size))) }
    ensures lists { AreListsOf C.test (place_problem search.now.graph.now) (graph_places search.now.graph.now) lists.new }
{
    let mut position = position;
    while position.size < size {
        match larger_position(search, position, lists, spare) {
            Ok(Some(larger)) => position = larger,
            Ok(None) => return Ok(None),
            Err(Stop::StepLimit) => return Ok(None),
            Err(Stop::Memory) => return Err(AllocError),
        }
    }
    Ok(Some(position))
}

/// Returns how many groups of `size` counties the round's target has beyond those that are closed at the `state`.
/// Returns 0 if as many or more are closed, or if there is no target.
fn still_wanted<C: CountySet>(input: &CheckInput<C>, state: &State<C>, size: u16) -> u32
    requires placed { IsPlaced (graph_places input.now.graph.now) C.test state.now }
{
    let wanted = match input.wanted {
        Some(counts) => u32::from(counts.of(size)),
        None => 0,
    };
    wanted.saturating_sub(closed_of_size(input.graph.ordered, state, size))
}

/// Returns the position with a list of the groups of one county more, if it has none, enough groups of its size are
/// `wanted`, and few steps make it.
fn with_ahead<C: CountySet>(
    search: &SearchInput<C>,
    position: Position<C>,
    wanted: u32,
    spare: &mut Steps,
) -> Result<Position<C>, AllocError>
    requires input { IsSearchInput C.PLACES C.test search.now }
    requires at { IsPositionAt C.test search.now (search_state search.now C.test position.state) position }
    ensures { IfOk result (λ at. IsPositionAt C.test search.now (search_state search.now C.test position.state) at
        × (at.size ≡ position.size)) }
{
    if position.larger.is_some() || wanted < LEAST_WANTED {
        return Ok(position);
    }
    let mut steps = Steps::new((spare.limit() - spare.used()).min(MOST_STEPS));
    let found = larger_groups(search, &position, &mut steps);
    for _ in 0..steps.used() {
        spare.tick();
    }
    match found {
        Ok(larger) => Ok(Position {
            larger: Some(larger),
            ..position
        }),
        Err(Stop::StepLimit) => Ok(position),
        Err(Stop::Memory) => Err(AllocError),
    }
}

/// Returns the branch at `place` by a `position` of the branch's size, or `None` if the `spare` steps ran out.
fn branch_of<C: CountySet>(
    search: &SearchInput<C>,
    position: &Position<C>,
    place: u16,
    spare: &mut Steps,
) -> Result<Option<Branching<C>>, AllocError>
    requires input { IsSearchInput C.PLACES C.test search.now }
    requires at { IsPositionAt C.test search.now (search_state search.now C.test position.now.state) position.now }
    requires place { place < graph_places search.now.graph.now }
    ensures branch { IfOk
        result
        (λ found. MatchOption
        found
        ⊤
        (λ b. AreGroupsAt
        (search_problem search.now)
        (search_round search.now)
        (search_state search.now C.test position.now.state)
        (code_at (graph_order search.now.graph.now) place)
        position.now.size
        (codes_of_sets (graph_order search.now.graph.now) C.test b.groups.items))) }
    ensures below { IfOk result (λ found. MatchOption found ⊤ (λ b. AreBelow (graph_places search.now.graph.now) C.test b.groups.items)) }
    ensures place { IfOk result (λ found. MatchOption found ⊤ (λ b. (b.place ≡ place) × (b.limit ≡ position.now.size))) }
{
    match groups_to_take(search, position, place, spare) {
        Ok(groups) => Ok(Some(Branching {
            place,
            limit: position.size,
            groups,
        })),
        Err(Stop::StepLimit) => Ok(None),
        Err(Stop::Memory) => Err(AllocError),
    }
}

/// Returns the branch at the county at `place` by what is known, if that tells its groups. What is known goes on to
/// groups of `limit` counties.
fn known_branch<C: CountySet>(
    input: &CheckInput<C>,
    state: &State<C>,
    known: &mut Option<Position<C>>,
    place: u16,
    limit: u16,
    lists: &mut PartLists<C>,
    spare: &mut Steps,
) -> Result<Option<Branching<C>>, AllocError>
    requires input { IsCheckInput C.PLACES C.test input.now }
    requires placed { IsPlaced (graph_places input.now.graph.now) C.test state.now }
    requires known { IsKnownAt C.test input.now (state_at (graph_order input.now.graph.now) C.test state.now) known.old }
    requires place { place < graph_places input.now.graph.now }
    requires lists { AreListsOf C.test (place_problem input.now.graph.now) (graph_places input.now.graph.now) lists.old }
    ensures known { IsKnownAt C.test input.now (state_at (graph_order input.now.graph.now) C.test state.now) known.new }
    ensures branch { IfOk
        result
        (λ found. MatchOption
        found
        ⊤
        (λ b. (input.now.round.now.format ≡ Wide)
        × AreGroupsAt
        (graph_problem input.now.graph.now)
        (round_of input.now.round.now)
        (state_at (graph_order input.now.graph.now) C.test state.now)
        (code_at (graph_order input.now.graph.now) place)
        limit
        (codes_of_sets (graph_order input.now.graph.now) C.test b.groups.items))) }
    ensures below { IfOk result (λ found. MatchOption found ⊤ (λ b. AreBelow (graph_places input.now.graph.now) C.test b.groups.items)) }
    ensures place { IfOk result (λ found. MatchOption found ⊤ (λ b. (b.place ≡ place) × (b.limit ≡ limit))) }
    ensures sized { IfOk result (λ found. MatchOption found ⊤ (λ b. (at : Position C) → known.new ≡ Some at → at.size ≡ limit)) }
    ensures lists { AreListsOf C.test (place_problem input.now.graph.now) (graph_places input.now.graph.now) lists.new }
{
    let Some(position) = known.take() else {
        return Ok(None);
    };
    let search = SearchInput {
        graph: input.graph,
        round: input.round,
    };
    let Some(position) = position_of_size(&search, position, limit, lists, spare)? else {
        return Ok(None);
    };
    if position.size != limit {
        return Ok(None);
    }
    let wanted = still_wanted(input, state, limit);
    let position = with_ahead(&search, position, wanted, spare)?;
    let found = branch_of(&search, &position, place, spare)?;
    *known = Some(position);
    Ok(found)
}

/// Returns the place of the county, if a branch of a wide round can be at it, with groups of at most `limit` counties.
fn open_place<C: CountySet>(
    input: &CheckInput<C>,
    state: &State<C>,
    county: CountyCode,
    limit: u16,
) -> Result<Option<u16>, AllocError>
    requires input { IsCheckInput C.PLACES C.test input.now }
    requires placed { IsPlaced (graph_places input.now.graph.now) C.test state.now }
    ensures { IfOk
        result
        (λ found. MatchOption
        found
        ⊤
        (λ place. (place < graph_places input.now.graph.now)
        × (code_at (graph_order input.now.graph.now) place ≡ county)
        × (input.now.round.now.format ≡ Wide
        → CanBranch (round_of input.now.round.now) (state_at (graph_order input.now.graph.now) C.test state.now) county limit))) }
{
    if limit > input.round.limit {
        return Ok(None);
    }
    let Some(place) = input.graph.ordered.place_of(county) else {
        return Ok(None);
    };
    let open = open_places(input.graph.alloc, state, limit)?;
    if !open.has(place) {
        return Ok(None);
    }
    Ok(Some(place))
}

/// Returns the branch at `county` by what is `known` at `state`, if that tells its groups and the line names a `limit`.
/// Otherwise returns `None`. What is known goes on to groups of the branch's limit, or is dropped.
fn told_branch<C: CountySet>(
    input: &CheckInput<C>,
    state: &State<C>,
    known: &mut Option<Position<C>>,
    county: CountyCode,
    limit: Option<u16>,
    lists: &mut PartLists<C>,
    spare: &mut Steps,
) -> Result<Option<Branching<C>>, AllocError>
    requires input { IsCheckInput C.PLACES C.test input.now }
    requires placed { IsPlaced (graph_places input.now.graph.now) C.test state.now }
    requires known { IsKnownAt C.test input.now (state_at (graph_order input.now.graph.now) C.test state.now) known.old }
    requires lists { AreListsOf C.test (place_problem input.now.graph.now) (graph_places input.now.graph.now) lists.old }
    ensures known { IsKnownAt C.test input.now (state_at (graph_order input.now.graph.now) C.test state.now) known.new }
    ensures lists { AreListsOf C.test (place_problem input.now.graph.now) (graph_places input.now.graph.now) lists.new }
    ensures sized { IfOk result (λ found. MatchOption found ⊤ (λ b. (at : Position C) → known.new ≡ Some at → at.size ≡ b.limit)) }
    ensures branch { IfOk
        result
        (λ found. MatchOption
        found
        ⊤
        (λ b. NamesLimit input.now.round.now.format limit
        × CanBranch (round_of input.now.round.now) (state_at (graph_order input.now.graph.now) C.test state.now) county (limit_of (round_of input.now.round.now) limit)
        × AreGroupsAt
        (graph_problem input.now.graph.now)
        (round_of input.now.round.now)
        (state_at (graph_order input.now.graph.now) C.test state.now)
        county
        (limit_of (round_of input.now.round.now) limit)
        (codes_of_sets (graph_order input.now.graph.now) C.test b.groups.items))) }
    ensures place { IfOk result (λ found. MatchOption found ⊤ (λ b. (b.place < graph_places input.now.graph.now)
        × (code_at (graph_order input.now.graph.now) b.place ≡ county)
        × (b.limit ≡ limit_of (round_of input.now.round.now) limit))) }
    ensures groups { IfOk result (λ found. MatchOption found ⊤ (λ b. All (IsClosable C.test state.now) b.groups.items)) }
{
    let Some(size) = limit else {
        return Ok(None);
    };
    let Some(place) = open_place(input, state, county, size)? else {
        return Ok(None);
    };
    match known_branch(input, state, known, place, size, lists, spare)? {
        Some(branching) => Ok(Some(branching)),
        None => Ok(None),
    }
}

/// Judges the line of a branch as `judge_branch` does. Its groups are told by what is known, if that tells them, and
/// then no step is taken. Behind the call the groups of the branch's limit are known, or nothing is.
///
/// What is known is extended with the help of `lists`, and takes the `spare` steps, which count for nothing.
///
/// # Errors
///
/// Returns the errors of `judge_branch`.
pub fn knowing_branch<C: CountySet>(
    input: &CheckInput<C>,
    state: &State<C>,
    known: &mut Option<Position<C>>,
    county: CountyCode,
    limit: Option<u16>,
    lists: &mut PartLists<C>,
    spare: &mut Steps,
    steps: &mut Steps,
) -> Result<Branching<C>, LineStop>
    requires input { IsCheckInput C.PLACES C.test input.now }
    requires placed { IsPlaced (graph_places input.now.graph.now) C.test state.now }
    requires known { IsKnownAt C.test input.now (state_at (graph_order input.now.graph.now) C.test state.now) known.old }
    requires lists { AreListsOf C.test (place_problem input.now.graph.now) (graph_places input.now.graph.now) lists.old }
    ensures known { IsKnownAt C.test input.now (state_at (graph_order input.now.graph.now) C.test state.now) known.new }
    ensures lists { AreListsOf C.test (place_problem input.now.graph.now) (graph_places input.now.graph.now) lists.new }
    ensures sized { IfOk result (λ b. (at : Position C) → known.new ≡ Some at → at.size ≡ b.limit) }
    ensures branch { MatchResult
        result
        (λ b. NamesLimit input.now.round.now.format limit
        × CanBranch (round_of input.now.round.now) (state_at (graph_order input.now.graph.now) C.test state.now) county (limit_of (round_of input.now.round.now) limit)
        × AreGroupsAt
        (graph_problem input.now.graph.now)
        (round_of input.now.round.now)
        (state_at (graph_order input.now.graph.now) C.test state.now)
        county
        (limit_of (round_of input.now.round.now) limit)
        (codes_of_sets (graph_order input.now.graph.now) C.test b.groups.items))
        (λ stop. StopsAt
        stop
        (IsBranchFault (round_of input.now.round.now) (state_at (graph_order input.now.graph.now) C.test state.now) county (limit_of (round_of input.now.round.now) limit))
        (NamesLimit input.now.round.now.format limit → ⊥)) }
    ensures place { IfOk result (λ b. (b.place < graph_places input.now.graph.now)
        × (code_at (graph_order input.now.graph.now) b.place ≡ county)) }
    ensures size { IfOk result (λ b. b.limit ≡ limit_of (round_of input.now.round.now) limit) }
    ensures groups { IfOk result (λ b. All (IsClosable C.test state.now) b.groups.items) }
    ensures steps { IfOk
        result
        (λ b. (m : ℕ)
        → IsSetCount (graph_order input.now.graph.now) (IsSetAt (graph_problem input.now.graph.now) (graph_order input.now.graph.now) (state_at (graph_order input.now.graph.now) C.test state.now) county (limit_of (round_of input.now.round.now) limit)) m
        → steps.new.used ≤ steps.old.used + 2 * m) }
    ensures limit { steps.new.limit ≡ steps.old.limit }
    ensures more { steps.old.used ≤ steps.new.used }
    ensures stopped { IsErrOf result LineStop.StepLimit
        → NamesLimit input.now.round.now.format limit
        × CanBranch (round_of input.now.round.now) (state_at (graph_order input.now.graph.now) C.test state.now) county (limit_of (round_of input.now.round.now) limit)
        × ((m : ℕ)
        → IsSetCount (graph_order input.now.graph.now) (IsSetAt (graph_problem input.now.graph.now) (graph_order input.now.graph.now) (state_at (graph_order input.now.graph.now) C.test state.now) county (limit_of (round_of input.now.round.now) limit)) m
        → steps.old.limit ≤ steps.old.used + 2 * m) }
{
    if let Some(branching) = told_branch(input, state, known, county, limit, lists, spare)? {
        return Ok(branching);
    }
    *known = None;
    judge_branch(input.graph, input.round, state, county, limit, steps)
}

/// Returns whether what is known tells that no group of `size` counties fits. It goes on to groups of this size.
fn none_of_size<C: CountySet>(
    input: &CheckInput<C>,
    state: &State<C>,
    known: &mut Option<Position<C>>,
    size: u16,
    lists: &mut PartLists<C>,
    spare: &mut Steps,
) -> Result<bool, AllocError>
    requires input { IsCheckInput C.PLACES C.test input.now }
    requires known { IsKnownAt C.test input.now (state_at (graph_order input.now.graph.now) C.test state.now) known.old }
    requires lists { AreListsOf C.test (place_problem input.now.graph.now) (graph_places input.now.graph.now) lists.old }
    ensures known { IsKnownAt C.test input.now (state_at (graph_order input.now.graph.now) C.test state.now) known.new }
    ensures lists { AreListsOf C.test (place_problem input.now.graph.now) (graph_places input.now.graph.now) lists.new }
    ensures none { IfOk
        result
        (λ none. IsTrue none
        → (g : List ℕ)
        → Fits input.now.round.now.format (graph_problem input.now.graph.now) (state_at (graph_order input.now.graph.now) C.test state.now) g
        → length g ≡ size
        → ⊥) }
{
    let Some(position) = known.take() else {
        return Ok(false);
    };
    let search = SearchInput {
        graph: input.graph,
        round: input.round,
    };
    let Some(position) = position_of_size(&search, position, size, lists, spare)? else {
        return Ok(false);
    };
    if position.size > size {
        *known = Some(position);
        return Ok(true);
    }
    match without_dead(&search, position, spare) {
        Ok(tested) => {
            let none = tested.groups.is_empty();
            *known = Some(tested);
            Ok(none)
        }
        Err(Stop::StepLimit) => Ok(false),
        Err(Stop::Memory) => Err(AllocError),
    }
}

/// Returns what a line without weights allows for a `size` of which no group fits, beside the closed groups, if that is
/// no more than the `wanted` groups.
fn empty_line<C: CountySet>(
    input: &CheckInput<C>,
    state: &State<C>,
    size: u16,
    wanted: u16,
    used: u32,
    line: &Allowance,
) -> Option<Allowed>
    requires input { IsCheckInput C.PLACES C.test input.now }
    requires placed { IsPlaced (graph_places input.now.graph.now) C.test state.now }
    requires used { used ≤ most_counties }
    requires none { (g : List ℕ)
        → Fits input.now.round.now.format (graph_problem input.now.graph.now) (state_at (graph_order input.now.graph.now) C.test state.now) g
        → length g ≡ size
        → ⊥ }
    ensures { IfSome
        result
        (λ allowed. (counts : ℕ → ℕ)
        → counts size ≡ wanted
        → IsAllowed input.now.round.now.format (graph_problem input.now.graph.now) (state_at (graph_order input.now.graph.now) C.test state.now) counts size used (allowance_of line.now) allowed) }
{
    let Allowance::Weigh { quota, weights } = line else {
        return None;
    };
    if *quota == 0 || !weights.as_slice().is_empty() {
        return None;
    }
    let closed = closed_of_size(input.graph.ordered, state, size);
    if closed > u32::from(wanted) {
        return None;
    }
    if closed < u32::from(wanted) {
        return Some(Allowed::Loss);
    }
    Some(Allowed::Even(used))
}

/// Returns the known groups of `size` counties, or `None` if those of this size aren't known.
fn known_candidates<C: CountySet>(known: &Option<Position<C>>, size: u16) -> Option<&[C]>
    ensures { (input : CheckInput C) (s : StateValue)
        → IsKnownAt C.test input s known.now
        → AreListed C.test (graph_order input.graph.now) (graph_problem input.graph.now) (round_of input.round.now) s size result }
{
    let Some(position) = known else {
        return None;
    };
    if position.size == size {
        return Some(position.groups.as_slice());
    }
    None
}

/// Judges the `line` of a bound leaf as `judge_allowance` does. If what is `known` tells that no group of `size`
/// counties fits, a line without weights takes no step. If the groups of this size are known, weights are tested on
/// them, and no step is taken.
pub(crate) fn knowing_allowance<C: CountySet>(
    input: &CheckInput<C>,
    state: &State<C>,
    known: &mut Option<Position<C>>,
    size: u16,
    wanted: u16,
    used: u32,
    line: &Allowance,
    lists: &mut PartLists<C>,
    spare: &mut Steps,
    steps: &mut Steps,
) -> Result<Allowed, LineStop>
    requires input { IsCheckInput C.PLACES C.test input.now }
    requires placed { IsPlaced (graph_places input.now.graph.now) C.test state.now }
    requires known { IsKnownAt C.test input.now (state_at (graph_order input.now.graph.now) C.test state.now) known.old }
    requires lists { AreListsOf C.test (place_problem input.now.graph.now) (graph_places input.now.graph.now) lists.old }
    requires size { 1 ≤ size }
    requires used { used ≤ most_counties }
    ensures known { IsKnownAt C.test input.now (state_at (graph_order input.now.graph.now) C.test state.now) known.new }
    ensures lists { AreListsOf C.test (place_problem input.now.graph.now) (graph_places input.now.graph.now) lists.new }
    ensures line { (counts : ℕ → ℕ)
        → counts size ≡ wanted
        → MatchResult
        result
        (IsAllowed input.now.round.now.format (graph_problem input.now.graph.now) (state_at (graph_order input.now.graph.now) C.test state.now) counts size used (allowance_of line.now))
        (λ stop. StopsAt
        stop
        (IsAllowanceFault input.now.round.now.format (graph_problem input.now.graph.now) (state_at (graph_order input.now.graph.now) C.test state.now) counts size used (allowance_of line.now))
        (AllowanceIsSpelled line.now → ⊥)) }
    ensures steps { IfOk
        result
        (λ _. (m : ℕ)
        → LineLooks (allowance_of line.now) (graph_problem input.now.graph.now) (round_of input.now.round.now) (state_at (graph_order input.now.graph.now) C.test state.now) size m
        → steps.new.used ≤ steps.old.used + 2 * m) }
    ensures limit { steps.new.limit ≡ steps.old.limit }
    ensures more { steps.old.used ≤ steps.new.used }
    ensures stopped { IsErrOf result LineStop.StepLimit
        → (m : ℕ)
        → LineLooks (allowance_of line.now) (graph_problem input.now.graph.now) (round_of input.now.round.now) (state_at (graph_order input.now.graph.now) C.test state.now) size m
        → steps.old.limit ≤ steps.old.used + 2 * m }
{
    if none_of_size(input, state, known, size, lists, spare)? {
        if let Some(allowed) = empty_line(input, state, size, wanted, used, line) {
            return Ok(allowed);
        }
    }
    judge_allowance(
        input.graph,
        input.round,
        state,
        size,
        wanted,
        used,
        line,
        known_candidates(known, size),
        steps,
    )
}
