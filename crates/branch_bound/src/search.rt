//! The search: one recursion over the groups that are closed.

ghost use Rattle.std.specs.Prelude.{◌≡◌, ℕ, ◌≤◌, ◌<◌, ◌∷◌, [], ◌++◌, Some, None, true, length, IfOk, OnOk, IfSome};
ghost use Rattle.county_codes.specs.Limits.{most_counties};
ghost use Rattle.connected_sets.specs.Graphs.{graph_order, graph_places, place_problem};
ghost use Rattle.certificate_data.specs.declared.tree.Branch.{roll-Branch};
ghost use Rattle.county_problem.specs.OrderedValue.{code_at};
ghost use Rattle.search_groups.specs.PartLists.{AreListsOf};
ghost use Rattle.certificate_laws.specs.{Fitting.Fits, Groups.{IsGroupAt, AreGroupsAt}};
ghost use Rattle.connected_laws.specs.Listing.{AreBelow};
ghost use Rattle.certificate_laws.specs.State.{State as StateValue, close, raise};
ghost use Rattle.state_groups.specs.PlacedValues.{codes_of_set, codes_of_sets};
ghost use Rattle.branch_bound.specs.Searching.{search_problem, search_round, search_state, IsSearchInput, IsPositionAt, IsOutcome, IsTakenGroup, AreTakesAt, IsChoice, IsStopped, IsTakeStopped, AreTakesStopped};

use crate::judging::next_move;
use crate::outcome::{Move, SearchOutcome, Taken, Takes};
use crate::parts::{begun_branch, open_part, stopped_behind, stopped_here, stopped_takes};
use crate::watcher::Watcher;
use certificate_data::{Branch, Take, Tree};
use connected_sets::Stop;
use county_problem::Steps;
use place_sets::CountySet;
use search_groups::{
    PartLists, Position, SearchInput, closed_position, groups_to_take, raised_position,
};
use std::alloc::AllocError;

/// Returns the take of `group`, given the `outcome` of the search where it is closed. If the search found a better
/// grouping there, or ran out of steps, that is returned instead. Returns an error if memory was refused.
pub(crate) fn taken_of<C: CountySet>(
    input: &SearchInput<C>,
    group: &C,
    outcome: SearchOutcome,
) -> Result<Taken, AllocError>
    requires fits { graph_places input.now.graph.now ≤ C.PLACES }
    ensures taken { (s : StateValue)
        → Fits input.now.round.now.format (search_problem input.now) s (codes_of_set (graph_order input.now.graph.now) C.test group.now)
        → length (codes_of_set (graph_order input.now.graph.now) C.test group.now) ≤ most_counties
        → IsOutcome (search_problem input.now) (search_round input.now) (close (codes_of_set (graph_order input.now.graph.now) C.test group.now) s) outcome
        → IfOk result (IsTakenGroup (search_problem input.now) (search_round input.now) s (codes_of_set (graph_order input.now.graph.now) C.test group.now)) }
    ensures stopped { IfOk result (λ taken. IsTakeStopped taken → IsStopped outcome) }
{
    match outcome {
        SearchOutcome::Proved(tree) => {
            let codes = input.graph.ordered.codes_of(input.graph.alloc, group)?;
            Ok(Taken::Proved(Take { codes, tree }))
        }
        SearchOutcome::Better(found) => Ok(Taken::Better(found)),
        SearchOutcome::Open(part) => Ok(Taken::Open(part)),
    }
}

/// Returns the position after a branch at the county at `place`, where the county is raised. The branch with these
/// `takes` is appended to the `branches`. Returns an error if memory was refused.
fn raised_behind<C: CountySet>(
    input: &SearchInput<C>,
    at: Position<C>,
    place: u16,
    takes: Vec<Take>,
    branches: &mut Vec<Branch>,
) -> Result<Position<C>, AllocError>
    requires input { IsSearchInput C.PLACES C.test input.now }
    requires at { IsPositionAt C.test input.now (search_state input.now C.test at.state) at }
    requires choice { IsChoice C.test (graph_order input.now.graph.now) at.groups.items place }
    ensures raised { IfOk result (IsPositionAt C.test input.now (raise (code_at (graph_order input.now.graph.now) place) at.size (search_state input.now C.test at.state))) }
    ensures pushed { OnOk
        result
        (branches.new.items
        ≡ branches.old.items
        ++ roll-Branch (record { county = code_at (graph_order input.now.graph.now) place; limit = Some at.size; takes = takes }) ∷ []) }
    ensures county { code_at (graph_order input.now.graph.now) place ≤ 99999 }
{
    let county = input.graph.ordered.code(place);
    let _small = county.get();
    branches.push(Branch {
        county,
        limit: Some(at.size),
        takes,
    })?;
    raised_position(input, at, place)
}

/// Returns the groups of the takes of a branch at the county at `place`, or `None` if the steps ran out. Returns an
/// error if memory was refused.
fn listed_groups<C: CountySet>(
    input: &SearchInput<C>,
    position: &Position<C>,
    place: u16,
    steps: &mut Steps,
) -> Result<Option<Vec<C>>, AllocError>
    requires input { IsSearchInput C.PLACES C.test input.now }
    requires at { IsPositionAt C.test input.now (search_state input.now C.test position.now.state) position.now }
    requires place { place < graph_places input.now.graph.now }
    ensures groups { IfOk
        result
        (λ found. IfSome found (λ v. AreGroupsAt
        (search_problem input.now)
        (search_round input.now)
        (search_state input.now C.test position.now.state)
        (code_at (graph_order input.now.graph.now) place)
        position.now.size
        (codes_of_sets (graph_order input.now.graph.now) C.test v.items))) }
    ensures below { IfOk result (λ found. IfSome found (λ v. AreBelow (graph_places input.now.graph.now) C.test v.items)) }
    ensures more { steps.old.used ≤ steps.new.used }
    ensures limit { steps.new.limit ≡ steps.old.limit }
    ensures stopped { IfOk result (λ found. found ≡ None → steps.new.used ≡ steps.new.limit) }
{
    match groups_to_take(input, position, place, steps) {
        Ok(groups) => Ok(Some(groups)),
        Err(Stop::StepLimit) => Ok(None),
        Err(Stop::Memory) => Err(AllocError),
    }
}

/// Builds the take of `group` at `position` with its proof tree. If a better grouping is found where the group is
/// closed, or the steps run out, that is returned instead.
#[cycle(proving)]
fn prove_take<C: CountySet, W: Watcher>(
    input: &SearchInput<C>,
    position: &Position<C>,
    group: &C,
    lists: &mut PartLists<C>,
    watcher: &mut W,
    steps: &mut Steps,
) -> Result<Taken, AllocError>
    requires input { IsSearchInput C.PLACES C.test input.now }
    requires at { IsPositionAt C.test input.now (search_state input.now C.test position.now.state) position.now }
    requires below { (x : ℕ) → C.test group.now x ≡ true → x < graph_places input.now.graph.now }
    requires group { (c : ℕ)
        × IsGroupAt (search_problem input.now) (search_round input.now) (search_state input.now C.test position.now.state) c position.now.size (codes_of_set (graph_order input.now.graph.now) C.test group.now) }
    requires lists { AreListsOf C.test (place_problem input.now.graph.now) (graph_places input.now.graph.now) lists.old }
    ensures taken { IfOk result (IsTakenGroup (search_problem input.now) (search_round input.now) (search_state input.now C.test position.now.state) (codes_of_set (graph_order input.now.graph.now) C.test group.now)) }
    ensures lists { AreListsOf C.test (place_problem input.now.graph.now) (graph_places input.now.graph.now) lists.new }
    ensures more { steps.old.used ≤ steps.new.used }
    ensures limit { steps.new.limit ≡ steps.old.limit }
    ensures stopped { IfOk result (λ taken. IsTakeStopped taken → steps.new.used ≡ steps.new.limit) }
{
    let closed = closed_position(input, position, group)?;
    let outcome = prove(input, closed, lists, watcher, steps)?;
    taken_of(input, group, outcome)
}

/// Builds the takes of a branch at the county at `place`. If a better grouping is found where the group of a take is
/// closed, it is returned instead. If the steps run out, what was proved by then is returned instead.
#[cycle(proving)]
fn prove_takes<C: CountySet, W: Watcher>(
    input: &SearchInput<C>,
    position: &Position<C>,
    place: u16,
    lists: &mut PartLists<C>,
    watcher: &mut W,
    steps: &mut Steps,
) -> Result<Takes, AllocError>
    requires input { IsSearchInput C.PLACES C.test input.now }
    requires at { IsPositionAt C.test input.now (search_state input.now C.test position.now.state) position.now }
    requires choice { IsChoice C.test (graph_order input.now.graph.now) position.now.groups.items place }
    requires lists { AreListsOf C.test (place_problem input.now.graph.now) (graph_places input.now.graph.now) lists.old }
    ensures takes { IfOk
        result
        (AreTakesAt
        (search_problem input.now)
        (search_round input.now)
        (search_state input.now C.test position.now.state)
        (code_at (graph_order input.now.graph.now) place)
        position.now.size) }
    ensures lists { AreListsOf C.test (place_problem input.now.graph.now) (graph_places input.now.graph.now) lists.new }
    ensures more { steps.old.used ≤ steps.new.used }
    ensures limit { steps.new.limit ≡ steps.old.limit }
    ensures stopped { IfOk result (λ takes. AreTakesStopped takes → steps.new.used ≡ steps.new.limit) }
{
    let Some(groups) = listed_groups(input, position, place, steps)? else {
        return Ok(Takes::Open(open_part(input.graph.alloc)));
    };
    let mut takes = Vec::new(input.graph.alloc);
    'taking: for (index, group) in groups.iter().enumerate() {
        match prove_take(input, position, group, lists, watcher, steps)? {
            Taken::Proved(take) => takes.push(take)?,
            Taken::Better(found) => return Ok(Takes::Better(found)),
            Taken::Open(part) => {
                let parts = stopped_takes(input, takes, group, part, &groups[index + 1..])?;
                let branch = begun_branch(input, place, Some(position.size), parts)?;
                return Ok(Takes::Open(branch));
            }
        }
    }
    Ok(Takes::Proved(takes))
}

/// Builds a proof tree at the state of `position`, or finds a lawful grouping that agrees with the state and is greater
/// than the round's target. If the steps run out, it builds a partial tree of what was proved by then. The recursion
/// goes as deep as takes nest.
///
/// # Errors
///
/// Returns `AllocError` if memory was refused.
#[cycle(proving)]
pub(crate) fn prove<C: CountySet, W: Watcher>(
    input: &SearchInput<C>,
    position: Position<C>,
    lists: &mut PartLists<C>,
    watcher: &mut W,
    steps: &mut Steps,
) -> Result<SearchOutcome, AllocError>
    requires input { IsSearchInput C.PLACES C.test input.now }
    requires at { IsPositionAt C.test input.now (search_state input.now C.test position.state) position }
    requires lists { AreListsOf C.test (place_problem input.now.graph.now) (graph_places input.now.graph.now) lists.old }
    ensures outcome { IfOk result (IsOutcome (search_problem input.now) (search_round input.now) (search_state input.now C.test position.state)) }
    ensures counted { IfOk result (λ outcome. ¬ IsStopped outcome → steps.old.used < steps.new.used) }
    ensures lists { AreListsOf C.test (place_problem input.now.graph.now) (graph_places input.now.graph.now) lists.new }
    ensures more { steps.old.used ≤ steps.new.used }
    ensures limit { steps.new.limit ≡ steps.old.limit }
    ensures stopped { IfOk result (λ outcome. IsStopped outcome → steps.new.used ≡ steps.new.limit) }
{
    let mut position = position;
    let mut branches = Vec::new(input.graph.alloc);
    'branching: loop {
        watcher.step(steps);
        match next_move(input, position, lists, steps) {
            Ok(Move::Leaf(leaf)) => return Ok(SearchOutcome::Proved(Tree { branches, leaf })),
            Ok(Move::Better(found)) => return Ok(SearchOutcome::Better(found)),
            Ok(Move::Branch(place, at)) => {
                match prove_takes(input, &at, place, lists, watcher, steps)? {
                    Takes::Proved(takes) => {
                        position = raised_behind(input, at, place, takes, &mut branches)?;
                    }
                    Takes::Better(found) => return Ok(SearchOutcome::Better(found)),
                    Takes::Open(part) => return stopped_behind(input.graph.alloc, branches, part),
                }
            }
            Err(Stop::StepLimit) => return stopped_here(input.graph.alloc, branches),
            Err(Stop::Memory) => return Err(AllocError),
        }
    }
}
