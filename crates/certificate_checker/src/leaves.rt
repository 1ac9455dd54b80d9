//! The judging of leaves: stuck leaves, seats leaves and bound leaves.

ghost use Rattle.std.specs.Prelude.{◌≡◌, ℕ, ◌≤◌, ◌++◌, List, length, IfOk};
ghost use Rattle.county_codes.specs.Limits.{most_counties};
ghost use Rattle.connected_sets.specs.Graphs.{graph_problem, graph_order, graph_places, place_problem};
ghost use Rattle.certificate_data.specs.RoundValue.{round_of};
ghost use Rattle.certificate_data.specs.Tree.{Allowance as AllowanceValue, stuck, seats, bound};
ghost use Rattle.certificate_lines.specs.declared.item.Item.{Item as ItemValue};
ghost use Rattle.state_groups.specs.PlacedValues.{state_at, IsPlaced};
ghost use Rattle.certificate_checker.specs.ReadableTrees.{AllowancesAreSpelled};
ghost use Rattle.certificate_checker.specs.Feeding.{stream_of, CountsSteps, IsFed, FeedsThrough, ForEach};
ghost use Rattle.certificate_checker.specs.Judging.{IsCheckInput, IsLeafJudged, IsShortLeafJudged, IsFoundAt, IsEndOf, IsSmall, IsLineJudged, line_items};
ghost use Rattle.certificate_checker.specs.Knowing.{IsKnownAt};
ghost use Rattle.search_groups.specs.PartLists.{AreListsOf};

use crate::feed::{Feed, Halt};
use crate::forms::{judged_at, next_allowance};
use crate::input::CheckInput;
use crate::known::knowing_allowance;
use certificate_lines::ItemSource;
use county_codes::CountyCode;
use place_sets::CountySet;
use search_groups::{PartLists, Position};
use state_groups::State;
use state_judge::{Allowed, CheckFault, judge_seats, judge_stuck};

/// Returns the result for a leaf of one line: its `fault` at `line`, if there is one.
fn found_at(fault: Option<CheckFault>, line: u64) -> Result<(), Halt>
    ensures { IsFoundAt fault line result }
{
    match fault {
        Some(fault) => Err(Halt::Fault(fault, line)),
        None => Ok(()),
    }
}

/// Judges a stuck leaf at `county`, where `line` is the number of its line, which was read last. Returns its fault at
/// that line, if it has one.
pub(crate) fn judge_stuck_leaf<C: CountySet>(
    input: &CheckInput<C>,
    state: &State<C>,
    county: CountyCode,
    line: u64,
) -> Result<(), Halt>
    requires input { IsCheckInput C.PLACES C.test input.now }
    requires placed { IsPlaced (graph_places input.now.graph.now) C.test state.now }
    ensures { IsShortLeafJudged (graph_problem input.now.graph.now) (round_of input.now.round.now) (state_at (graph_order input.now.graph.now) C.test state.now) (stuck county) line result }
{
    let fault = judge_stuck(input.graph, state, county)?;
    found_at(fault, line)
}

/// Judges a seats leaf, where `line` is the number of its line, which was read last. Returns its fault at that line, if
/// it has one.
pub(crate) fn judge_seats_leaf<C: CountySet>(
    input: &CheckInput<C>,
    state: &State<C>,
    line: u64,
) -> Result<(), Halt>
    requires input { IsCheckInput C.PLACES C.test input.now }
    requires placed { IsPlaced (graph_places input.now.graph.now) C.test state.now }
    ensures { IsShortLeafJudged (graph_problem input.now.graph.now) (round_of input.now.round.now) (state_at (graph_order input.now.graph.now) C.test state.now) seats line result }
{
    let fault = judge_seats(input.graph, state)?;
    found_at(fault, line)
}

/// Returns the result for a bound leaf where its judging ends, as at a line that allows fewer groups than the target
/// has. If the leaf has to end there (`last`), it has no fault. Otherwise its number of lines is a fault of its first
/// line, `opened`.
fn loss_at(last: bool, opened: u64) -> Result<(), Halt>
    ensures { IsEndOf last opened result }
{
    if last {
        Ok(())
    } else {
        Err(Halt::Fault(CheckFault::BoundLength, opened))
    }
}

/// Judges the next line, which has to be the line of a bound leaf for groups of `size` counties. The target has
/// `wanted` groups of this size, and smaller groups use up `used` counties.
fn judge_line<C: CountySet, F, S: ItemSource<F>>(
    input: &CheckInput<C>,
    state: &State<C>,
    known: &mut Option<Position<C>>,
    size: u16,
    wanted: u16,
    used: u32,
    lists: &mut PartLists<C>,
    feed: &mut Feed<S>,
    from: &mut F,
) -> Result<Allowed, Halt>
    requires input { IsCheckInput C.PLACES C.test input.now }
    requires placed { IsPlaced (graph_places input.now.graph.now) C.test state.now }
    requires known { IsKnownAt C.test input.now (state_at (graph_order input.now.graph.now) C.test state.now) known.old }
    requires lists { AreListsOf C.test (place_problem input.now.graph.now) (graph_places input.now.graph.now) lists.old }
    requires counted { feed.old.line ≤ feed.old.steps.used }
    requires size { 1 ≤ size }
    requires used { used ≤ most_counties }
    ensures known { IsKnownAt C.test input.now (state_at (graph_order input.now.graph.now) C.test state.now) known.new }
    ensures lists { AreListsOf C.test (place_problem input.now.graph.now) (graph_places input.now.graph.now) lists.new }
    ensures counts { CountsSteps feed.old feed.new }
    ensures fed { FeedsThrough (stream_of S.left S.given feed.old from.old) (stream_of S.left S.given feed.new from.new) (λ a b. IsFed a result b) }
    ensures small { IfOk result IsSmall }
    ensures judged { ForEach (stream_of S.left S.given feed.old from.old) (stream_of S.left S.given feed.new from.new) (λ a b. (counts : ℕ → ℕ) (lines : List AllowanceValue) (rest : List ItemValue)
        → counts size ≡ wanted
        → AllowancesAreSpelled lines
        → a.reading.items ≡ line_items lines ++ rest
        → IsLineJudged
        (graph_problem input.now.graph.now)
        (round_of input.now.round.now)
        (state_at (graph_order input.now.graph.now) C.test state.now)
        counts
        size
        used
        lines
        rest
        a
        result
        b) }
{
    let line = next_allowance(feed, from)?;
    let judged = knowing_allowance(
        input,
        state,
        known,
        size,
        wanted,
        used,
        &line,
        lists,
        &mut feed.spare,
        &mut feed.steps,
    );
    judged_at(judged, feed.line)
}

/// Judges a bound leaf whose first line was read last and announces `count` more lines.
pub(crate) fn judge_bound_leaf<C: CountySet, F, S: ItemSource<F>>(
    input: &CheckInput<C>,
    state: &State<C>,
    known: &mut Option<Position<C>>,
    count: u16,
    lists: &mut PartLists<C>,
    feed: &mut Feed<S>,
    from: &mut F,
) -> Result<(), Halt>
    requires input { IsCheckInput C.PLACES C.test input.now }
    requires placed { IsPlaced (graph_places input.now.graph.now) C.test state.now }
    requires known { IsKnownAt C.test input.now (state_at (graph_order input.now.graph.now) C.test state.now) known.old }
    requires lists { AreListsOf C.test (place_problem input.now.graph.now) (graph_places input.now.graph.now) lists.old }
    requires counted { feed.old.line ≤ feed.old.steps.used }
    ensures lists { AreListsOf C.test (place_problem input.now.graph.now) (graph_places input.now.graph.now) lists.new }
    ensures counts { CountsSteps feed.old feed.new }
    ensures fed { FeedsThrough (stream_of S.left S.given feed.old from.old) (stream_of S.left S.given feed.new from.new) (λ a b. IsFed a result b) }
    ensures judged { ForEach (stream_of S.left S.given feed.old from.old) (stream_of S.left S.given feed.new from.new) (λ a b. (lines : List AllowanceValue) (rest : List ItemValue)
        → AllowancesAreSpelled lines
        → length lines ≡ count
        → a.reading.items ≡ line_items lines ++ rest
        → IsLeafJudged
        (graph_problem input.now.graph.now)
        (round_of input.now.round.now)
        (state_at (graph_order input.now.graph.now) C.test state.now)
        (bound lines)
        rest
        a
        result
        b) }
{
    let opened = feed.line;
    let Some(wanted) = input.wanted else {
        return Err(Halt::Fault(CheckFault::BoundWithoutTarget, opened));
    };
    if count > input.round.limit {
        return Err(Halt::Fault(CheckFault::BoundLength, opened));
    }
    let mut used = 0;
    'judging: for before in 0..count {
        let size = before + 1;
        match judge_line(
            input,
            state,
            known,
            size,
            wanted.of(size),
            used,
            lists,
            feed,
            from,
        ) {
            Ok(Allowed::Even(now)) => used = now,
            Ok(Allowed::Loss) => return loss_at(size == count, opened),
            Err(stop) => return Err(stop),
        }
    }
    loss_at(count == input.round.limit, opened)
}
