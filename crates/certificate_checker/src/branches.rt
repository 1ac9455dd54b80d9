//! The judging of the lines of branches and of takes.

ghost use Rattle.std.specs.Prelude.{◌≡◌, ◌≤◌, ◌<◌, ◌∷◌, List, All, IfOk, MatchResult};
ghost use Rattle.county_codes.specs.Limits.{most_counties};
ghost use Rattle.county_problem.specs.OrderedValue.{code_at};
ghost use Rattle.connected_sets.specs.Graphs.{graph_problem, graph_order, graph_places, place_problem};
ghost use Rattle.certificate_data.specs.RoundValue.{round_of};
ghost use Rattle.certificate_laws.specs.{State.close, Proving.{limit_of, CanBranch}, Groups.IsGroupAt};
ghost use Rattle.checker_laws.specs.Branches.{IsNextTake};
ghost use Rattle.state_groups.specs.PlacedValues.{state_at, codes_of_sets, IsPlaced, IsClosable};
ghost use Rattle.certificate_lines.specs.ItemReadings.{Unread};
ghost use Rattle.certificate_checker.specs.{Feeding.{feed_at, CountsSteps, IsFed}, Knowing.IsKnownAt};
ghost use Rattle.certificate_checker.specs.Judging.{IsCheckInput, IsBranchJudged, IsTakeStop};
ghost use Rattle.search_groups.specs.PartLists.{AreListsOf};

use crate::feed::{Feed, Halt};
use crate::forms::judged_at;
use crate::input::CheckInput;
use crate::known::knowing_branch;
use county_codes::CountyCode;
use place_sets::CountySet;
use search_groups::{PartLists, Position};
use state_groups::{State, closed_state};
use state_judge::{Branching, judge_take};

/// Judges the line of a branch at `county`, which was read last from `feed`. Returns its place, its limit in counties,
/// and the groups that the takes of the branch have to be.
pub(crate) fn listed_groups<C: CountySet, S>(
    input: &CheckInput<C>,
    state: &State<C>,
    county: CountyCode,
    limit: Option<u16>,
    known: &mut Option<Position<C>>,
    lists: &mut PartLists<C>,
    feed: &mut Feed<S>,
) -> Result<Branching<C>, Halt>
    requires input { IsCheckInput C.PLACES C.test input.now }
    requires placed { IsPlaced (graph_places input.now.graph.now) C.test state.now }
    requires known { IsKnownAt C.test input.now (state_at (graph_order input.now.graph.now) C.test state.now) known.old }
    requires lists { AreListsOf C.test (place_problem input.now.graph.now) (graph_places input.now.graph.now) lists.old }
    ensures known { IsKnownAt C.test input.now (state_at (graph_order input.now.graph.now) C.test state.now) known.new }
    ensures lists { AreListsOf C.test (place_problem input.now.graph.now) (graph_places input.now.graph.now) lists.new }
    ensures sized { IfOk result (λ b. (at : Position C) → known.new ≡ Some at → at.size ≡ b.limit) }
    ensures can { IfOk result (λ b. CanBranch (round_of input.now.round.now) (state_at (graph_order input.now.graph.now) C.test state.now) county b.limit) }
    ensures fits { IfOk
        result
        (λ b. All (IsGroupAt (graph_problem input.now.graph.now) (round_of input.now.round.now) (state_at (graph_order input.now.graph.now) C.test state.now) county b.limit) (codes_of_sets (graph_order input.now.graph.now) C.test b.groups.items)) }
    ensures counts { CountsSteps feed.old feed.new }
    ensures fed { (reading : Unread) → IsFed (feed_at reading feed.old) result (feed_at reading feed.new) }
    ensures same { feed.new.source ≡ feed.old.source }
    ensures place { IfOk result (λ b. (b.place < graph_places input.now.graph.now)
        × (code_at (graph_order input.now.graph.now) b.place ≡ county)) }
    ensures size { IfOk result (λ b. (b.limit ≡ limit_of (round_of input.now.round.now) limit)
        × (b.limit ≤ most_counties)) }
    ensures groups { IfOk result (λ b. All (IsClosable C.test state.now) b.groups.items) }
    ensures judged { (reading : Unread) → IsBranchJudged
        (λ b. codes_of_sets (graph_order input.now.graph.now) C.test b.groups.items)
        (graph_problem input.now.graph.now)
        (round_of input.now.round.now)
        (state_at (graph_order input.now.graph.now) C.test state.now)
        county
        limit
        (feed_at reading feed.old)
        result
        (feed_at reading feed.new) }
{
    let judged = knowing_branch(
        input,
        state,
        known,
        county,
        limit,
        lists,
        &mut feed.spare,
        &mut feed.steps,
    );
    judged_at(judged, feed.line)
}

/// Judges the line of a take, which was read last, where the groups in `left` have no take yet. Returns the state where
/// the group of the take is closed.
pub(crate) fn taken_state<C: CountySet>(
    input: &CheckInput<C>,
    state: &State<C>,
    left: &[C],
    codes: &[CountyCode],
    line: u64,
) -> Result<State<C>, Halt>
    requires input { IsCheckInput C.PLACES C.test input.now }
    requires placed { IsPlaced (graph_places input.now.graph.now) C.test state.now }
    requires groups { All (IsClosable C.test state.now) left.now }
    ensures placed { IfOk result (λ s. IsPlaced (graph_places input.now.graph.now) C.test s) }
    ensures taken { MatchResult
        result
        (λ s. IsNextTake (codes_of_sets (graph_order input.now.graph.now) C.test left.now) codes.now
        × (state_at (graph_order input.now.graph.now) C.test s
        ≡ close codes.now (state_at (graph_order input.now.graph.now) C.test state.now)))
        (λ found. IsTakeStop (codes_of_sets (graph_order input.now.graph.now) C.test left.now) codes.now line found) }
{
    match judge_take(input.graph.ordered, left, codes) {
        Ok(()) => match left.split_first() {
            Some((group, _)) => match closed_state(
                input.graph.alloc,
                input.graph.ordered,
                state,
                group,
            ) {
                Ok(closed) => Ok(closed),
                Err(_) => Err(Halt::Refused),
            },
            None => Err(Halt::Refused),
        },
        Err(fault) => Err(Halt::Fault(fault, line)),
    }
}

/// Returns the groups of `left` behind the first one. Returns no groups if `left` is empty.
pub(crate) fn groups_behind<C>(left: &[C]) -> &[C]
    ensures { (group : C) (others : List C) → left.now ≡ group ∷ others → result.now ≡ others }
{
    match left.split_first() {
        Some((_, others)) => others,
        None => left,
    }
}
