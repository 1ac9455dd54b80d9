//! The search of a piece of a plain round: one recursion over the groups that are closed. A branch stands at the first
//! county that is open to the limit, and its takes are all groups up to the limit.

ghost use Rattle.std.specs.Prelude.{◌≡◌, ℕ, ◌≤◌, ◌<◌, ◌∷◌, [], ◌++◌, None, All, IfOk, OnOk, IfSome};
ghost use Rattle.connected_sets.specs.Graphs.{graph_order, graph_places};
ghost use Rattle.certificate_data.specs.declared.tree.Branch.{roll-Branch};
ghost use Rattle.county_problem.specs.OrderedValue.{code_at};
ghost use Rattle.certificate_laws.specs.{Groups.{IsGroupAt, AreGroupsAt}, Proving.CanBranch};
ghost use Rattle.state_groups.specs.PlacedValues.{codes_of_set, codes_of_sets, IsClosable};
ghost use Rattle.branch_bound.specs.Searching.{search_problem, search_round, search_state, IsOutcome, IsTakenGroup, AreTakesAt, IsStopped, IsTakeStopped, AreTakesStopped};
ghost use Rattle.branch_bound.specs.PlainRounds.{IsPlainGround, IsStateOf};

use crate::outcome::{PlainMove, SearchOutcome, Taken, Takes};
use crate::parts::{begun_branch, open_part, stopped_behind, stopped_here, stopped_takes};
use crate::plain_judging::next_plain_move;
use crate::search::taken_of;
use certificate_data::{Branch, Take, Tree};
use connected_sets::Stop;
use county_problem::Steps;
use place_sets::CountySet;
use search_groups::SearchInput;
use state_groups::{State, closed_state, groups_at, raise_place};
use std::alloc::AllocError;

/// Returns the groups of the takes of a branch at the county at `place`: all up to the round's limit. Returns `None` if
/// the steps ran out, and an error if memory was refused.
fn plain_groups<C: CountySet>(
    input: &SearchInput<C>,
    state: &State<C>,
    place: u16,
    steps: &mut Steps,
) -> Result<Option<Vec<C>>, AllocError>
    requires input { IsPlainGround C.PLACES C.test input.now }
    requires at { IsStateOf C.test input.now state.now }
    requires place { place < graph_places input.now.graph.now }
    requires can { CanBranch (search_round input.now) (search_state input.now C.test state.now) (code_at (graph_order input.now.graph.now) place) input.now.round.now.limit }
    ensures groups { IfOk
        result
        (λ found. IfSome found (λ v. AreGroupsAt
        (search_problem input.now)
        (search_round input.now)
        (search_state input.now C.test state.now)
        (code_at (graph_order input.now.graph.now) place)
        input.now.round.now.limit
        (codes_of_sets (graph_order input.now.graph.now) C.test v.items))) }
    ensures closable { IfOk result (λ found. IfSome found (λ v. All (IsClosable C.test state.now) v.items)) }
    ensures more { steps.old.used ≤ steps.new.used }
    ensures limit { steps.new.limit ≡ steps.old.limit }
    ensures stopped { IfOk result (λ found. found ≡ None → steps.new.used ≡ steps.new.limit) }
{
    if input.round.limit == 0 {
        return Ok(Some(Vec::new(input.graph.alloc)));
    }
    match groups_at(
        input.graph,
        input.round.format,
        state,
        place,
        input.round.limit,
        steps,
    ) {
        Ok(groups) => Ok(Some(groups)),
        Err(Stop::StepLimit) => Ok(None),
        Err(Stop::Memory) => Err(AllocError),
    }
}

/// Appends to `branches` a branch at the county at `place`, with its `takes`.
fn push_branch<C: CountySet>(
    input: &SearchInput<C>,
    place: u16,
    takes: Vec<Take>,
    branches: &mut Vec<Branch>,
) -> Result<(), AllocError>
    requires place { place < graph_places input.now.graph.now }
    ensures pushed { OnOk
        result
        (branches.new.items ≡ branches.old.items ++ roll-Branch (record { county = code_at (graph_order input.now.graph.now) place; limit = None; takes = takes }) ∷ []) }
    ensures county { code_at (graph_order input.now.graph.now) place ≤ 99999 }
{
    let county = input.graph.ordered.code(place);
    let _small = county.get();
    branches.push(Branch {
        county,
        limit: None,
        takes,
    })?;
    Ok(())
}

/// Returns the take of the `group` with its proof tree, or a better grouping that was found where the group is closed.
/// If the steps run out, what was proved by then is returned instead.
#[cycle(proving_plain)]
fn prove_plain_take<C: CountySet>(
    input: &SearchInput<C>,
    state: &State<C>,
    group: &C,
    steps: &mut Steps,
) -> Result<Taken, AllocError>
    requires input { IsPlainGround C.PLACES C.test input.now }
    requires at { IsStateOf C.test input.now state.now }
    requires closable { IsClosable C.test state.now group.now }
    requires group { (c : ℕ)
        × IsGroupAt
        (search_problem input.now)
        (search_round input.now)
        (search_state input.now C.test state.now)
        c
        input.now.round.now.limit
        (codes_of_set (graph_order input.now.graph.now) C.test group.now) }
    ensures taken { IfOk result (IsTakenGroup (search_problem input.now) (search_round input.now) (search_state input.now C.test state.now) (codes_of_set (graph_order input.now.graph.now) C.test group.now)) }
    ensures more { steps.old.used ≤ steps.new.used }
    ensures limit { steps.new.limit ≡ steps.old.limit }
    ensures stopped { IfOk result (λ taken. IsTakeStopped taken → steps.new.used ≡ steps.new.limit) }
{
    let _problem = input.graph.ordered.problem();
    let closed = closed_state(input.graph.alloc, input.graph.ordered, state, group)?;
    let outcome = prove_plain(input, closed, steps)?;
    taken_of(input, group, outcome)
}

/// Returns the takes of a branch at the county at `place`, or a better grouping that was found in one of them. If the
/// steps run out, what was proved by then is returned instead.
#[cycle(proving_plain)]
fn prove_plain_takes<C: CountySet>(
    input: &SearchInput<C>,
    state: &State<C>,
    place: u16,
    steps: &mut Steps,
) -> Result<Takes, AllocError>
    requires input { IsPlainGround C.PLACES C.test input.now }
    requires at { IsStateOf C.test input.now state.now }
    requires place { place < graph_places input.now.graph.now }
    requires can { CanBranch (search_round input.now) (search_state input.now C.test state.now) (code_at (graph_order input.now.graph.now) place) input.now.round.now.limit }
    ensures takes { IfOk
        result
        (AreTakesAt
        (search_problem input.now)
        (search_round input.now)
        (search_state input.now C.test state.now)
        (code_at (graph_order input.now.graph.now) place)
        input.now.round.now.limit) }
    ensures more { steps.old.used ≤ steps.new.used }
    ensures limit { steps.new.limit ≡ steps.old.limit }
    ensures stopped { IfOk result (λ takes. AreTakesStopped takes → steps.new.used ≡ steps.new.limit) }
{
    let Some(groups) = plain_groups(input, state, place, steps)? else {
        return Ok(Takes::Open(open_part(input.graph.alloc)));
    };
    let mut takes = Vec::new(input.graph.alloc);
    'taking: for (index, group) in groups.iter().enumerate() {
        match prove_plain_take(input, state, group, steps)? {
            Taken::Proved(take) => takes.push(take)?,
            Taken::Better(found) => return Ok(Takes::Better(found)),
            Taken::Open(part) => {
                let parts = stopped_takes(input, takes, group, part, &groups[index + 1..])?;
                let branch = begun_branch(input, place, None, parts)?;
                return Ok(Takes::Open(branch));
            }
        }
    }
    Ok(Takes::Proved(takes))
}

/// Returns a proof tree at the `state`, or a lawful grouping that agrees with the state and is greater than the round's
/// target. If the steps run out, it returns a partial tree of what was proved by then. The recursion goes as deep as
/// takes nest.
///
/// # Errors
///
/// Returns `AllocError` if memory was refused.
#[cycle(proving_plain)]
pub(crate) fn prove_plain<C: CountySet>(
    input: &SearchInput<C>,
    state: State<C>,
    steps: &mut Steps,
) -> Result<SearchOutcome, AllocError>
    requires input { IsPlainGround C.PLACES C.test input.now }
    requires at { IsStateOf C.test input.now state }
    ensures outcome { IfOk result (IsOutcome (search_problem input.now) (search_round input.now) (search_state input.now C.test state)) }
    ensures counted { IfOk result (λ outcome. ¬ IsStopped outcome → steps.old.used < steps.new.used) }
    ensures more { steps.old.used ≤ steps.new.used }
    ensures limit { steps.new.limit ≡ steps.old.limit }
    ensures stopped { IfOk result (λ outcome. IsStopped outcome → steps.new.used ≡ steps.new.limit) }
{
    let mut state = state;
    let mut branches = Vec::new(input.graph.alloc);
    'branching: loop {
        match next_plain_move(input, &state, steps) {
            Ok(PlainMove::Leaf(leaf)) => return Ok(SearchOutcome::Proved(Tree { branches, leaf })),
            Ok(PlainMove::Better(found)) => return Ok(SearchOutcome::Better(found)),
            Ok(PlainMove::Branch(place)) => {
                match prove_plain_takes(input, &state, place, steps)? {
                    Takes::Proved(takes) => {
                        push_branch(input, place, takes, &mut branches)?;
                        raise_place(input.graph.ordered, &mut state, place, input.round.limit);
                    }
                    Takes::Better(found) => return Ok(SearchOutcome::Better(found)),
                    Takes::Open(part) => return stopped_behind(input.graph.alloc, branches, part),
                }
            }
            Err(Stop::StepLimit) => return stopped_here(input.graph.alloc, branches),
            Err(Stop::Memory) => return Err(AllocError),
        }
    }
}
