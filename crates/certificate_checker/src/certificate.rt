//! The judging of a whole certificate: its order, its limit, its target, and its tree.

ghost use Rattle.std.specs.Prelude.{◌≡◌, ◌≤◌, ◌<◌, ◌+◌, ◌∷◌, [], ◌++◌, List, length, nat_lt, IfOk, MatchResult};
ghost use Rattle.std.specs.List.{list_any};
ghost use Rattle.county_codes.specs.Limits.{most_counties};
ghost use Rattle.grouping_laws.specs.{Tolerance.HasTolerance, GroupsFrom.IsOrder};
ghost use Rattle.county_problem.specs.ProblemValue.{problem_of};
ghost use Rattle.certificate_data.specs.{RoundValue.{round_of, target_of}, Tree.Tree, TreeValue.Certificate};
ghost use Rattle.certificate_laws.specs.State.{empty_state};
ghost use Rattle.certificate_lines.specs.Fitting.{AllFit};
ghost use Rattle.certificate_lines.specs.declared.item.Item.{Item as ItemValue};
ghost use Rattle.certificate_lines.specs.declared.item.Wanted.TheVariants as want;
ghost use Rattle.certificate_text.specs.Trees.{items_of_tree, items_of_certificate};
ghost use Rattle.checker_laws.specs.Lines.{tolerance_line, target_lines};
ghost use Rattle.checker_laws.specs.Verdict.{IsToleranceFault, IsOrderFault, IsLargeEnough, IsLimitFault, IsLawfulTarget, IsTargetFault};
ghost use Rattle.checker_laws.specs.Work.{a_tree};
ghost use Rattle.certificate_checker.specs.ReadableTrees.{IsReadable};
ghost use Rattle.certificate_checker.specs.Feeding.{stream_of, CountsSteps, IsFed, FeedsThrough, ForEach};
ghost use Rattle.certificate_checker.specs.Judging.{IsJudged, AreWanted};
ghost use Rattle.certificate_checker.specs.Certificates.{StopsAt, IsTargetStop, AreCounts, IsRoundJudged, IsCertificateJudged};

use crate::feed::{Feed, Halt};
use crate::forms::next_end;
use crate::input::CheckInput;
use crate::known::known_at;
use crate::rounds::read_round;
use crate::tree::judge_tree;
use certificate_data::Round;
use certificate_lines::{ItemSource, MOST};
use connected_sets::CountyGraph;
use county_codes::{Group, Grouping, Tolerance};
use county_problem::{Counts, GroupingFault, OrderFault, Ordered, Problem, judge};
use place_sets::CountySet;
use search_groups::PartLists;
use state_groups::first_state;
use state_judge::CheckFault;
use std::alloc::{AllocError, Global};

/// Returns the number of the line that tells the tolerance of `round`: 2, or 1, the head's, if no tolerance is named.
fn tolerance_line(round: &Round) -> u64
    ensures { result ≡ tolerance_line round.now.tolerance }
{
    match round.tolerance {
        Some(_) => 2,
        None => 1,
    }
}

/// Checks that the tolerance of `round` is that of `problem`, which it is if the fractions are equal. A round that
/// names none has 1/20. Returns the fault `WrongWindow` if they differ.
fn judge_tolerance(problem: &Problem, round: &Round) -> Result<(), Halt>
    ensures { MatchResult result (λ _. HasTolerance (problem_of problem.now) round.now.tolerance) (StopsAt (IsToleranceFault (problem_of problem.now) (round_of round.now)) (tolerance_line round.now.tolerance)) }
{
    let tolerance = round.tolerance.unwrap_or(Tolerance::twentieth());
    if tolerance.same_as(problem.tolerance()) {
        Ok(())
    } else {
        Err(Halt::Fault(CheckFault::WrongWindow, tolerance_line(round)))
    }
}

/// Returns the counties of `problem` in the order of `round`. The order stands on the line behind that of the
/// tolerance. Returns the fault `WrongOrder` at that line, and `Refused` if memory was refused.
fn judge_order<'a>(alloc: Global, problem: &'a Problem, round: &Round) -> Result<Ordered<'a>, Halt>
    ensures value { IfOk result (λ o. o ≡ record { problem = problem.now; order = round.now.order }) }
    ensures order { MatchResult result (λ _. IsOrder (problem_of problem.now) round.now.order) (StopsAt (IsOrderFault (problem_of problem.now) (round_of round.now)) (tolerance_line round.now.tolerance + 1)) }
{
    match Ordered::build(alloc, problem, round.order.as_slice()) {
        Ok(ordered) => Ok(ordered),
        Err(OrderFault::WrongOrder) => {
            Err(Halt::Fault(CheckFault::WrongOrder, tolerance_line(round) + 1))
        }
        Err(OrderFault::Memory) => Err(Halt::Refused),
    }
}

/// Returns whether some group has more counties than `limit`.
fn has_larger(groups: &[Group], limit: u16) -> bool
    ensures { result ≡ list_any (λ g. nat_lt limit (length g.codes)) groups.now }
{
    groups
        .iter()
        .any(|group| group.codes.as_slice().len() > usize::from(limit))
}

/// Judges the limit of `round`, which stands behind the order. Returns the fault `LimitTooSmall` if a group of the
/// target has more counties.
fn judge_limit(round: &Round) -> Result<(), Halt>
    ensures { MatchResult result (λ _. IsLargeEnough round.now.limit (target_of round.now.target)) (StopsAt (IsLimitFault round.now.limit (target_of round.now.target)) (tolerance_line round.now.tolerance + 2)) }
{
    match &round.target {
        Some(target) => {
            if has_larger(&target.groups, round.limit) {
                return Err(Halt::Fault(CheckFault::LimitTooSmall, tolerance_line(round) + 2));
            }
            Ok(())
        }
        None => Ok(()),
    }
}

/// Returns the stop for a `fault` of a target whose first line is `line`.
fn target_stop(fault: GroupingFault, line: u64) -> Halt
    ensures { IsTargetStop fault line result }
{
    match fault {
        GroupingFault::Memory => Halt::Refused,
        _ => Halt::Fault(CheckFault::TargetFault(fault), line),
    }
}

/// Returns the counts of the target of `round`, which has to be lawful in `problem`. Returns `None` if there is no
/// target. The target stands behind the limit, and a fault of it is given at its first line.
fn judge_target(alloc: Global, problem: &Problem, round: &Round) -> Result<Option<Counts>, Halt>
    ensures { MatchResult
        result
        (λ wanted. IsLawfulTarget (problem_of problem.now) (target_of round.now.target)
        × AreCounts (target_of round.now.target) wanted)
        (StopsAt (IsTargetFault (problem_of problem.now) (target_of round.now.target)) (tolerance_line round.now.tolerance + 3)) }
{
    match &round.target {
        Some(grouping) => match judge(alloc, problem, grouping) {
            Ok(counts) => Ok(Some(counts)),
            Err(fault) => Err(target_stop(fault, tolerance_line(round) + 3)),
        },
        None => Ok(None),
    }
}

/// Returns how many groups of each size the lawful target of `round` has, or `None` if it has no target.
///
/// # Errors
///
/// Returns `AllocError` if memory was refused.
pub fn wanted_counts(
    alloc: Global,
    problem: &Problem,
    round: &Round,
) -> Result<Option<Counts>, AllocError>
    requires { IsLawfulTarget (problem_of problem.now) (target_of round.now.target) }
    ensures { IfOk result (AreCounts (target_of round.now.target)) }
{
    match judge_target(alloc, problem, round) {
        Ok(wanted) => Ok(wanted),
        Err(_) => Err(AllocError),
    }
}

/// Judges the tree of a certificate with this `round`, which begins on the next line of `feed`. Everything in front of
/// it is fine.
fn judge_first<C: CountySet, F, S: ItemSource<F>>(
    alloc: Global,
    ordered: &Ordered,
    round: &Round,
    wanted: Option<&Counts>,
    feed: &mut Feed<S>,
    from: &mut F,
) -> Result<(), Halt>
    requires fits { length ordered.now.order ≤ C.PLACES }
    requires order { ordered.now.order ≡ round.now.order }
    requires small { round.now.limit ≤ most_counties }
    requires wanted { AreWanted (target_of round.now.target) wanted }
    requires counted { feed.old.line ≤ feed.old.steps.used }
    ensures counts { CountsSteps feed.old feed.new }
    ensures fed { FeedsThrough (stream_of S.left S.given feed.old from.old) (stream_of S.left S.given feed.new from.new) (λ a b. IsFed a result b) }
    ensures judged { ForEach (stream_of S.left S.given feed.old from.old) (stream_of S.left S.given feed.new from.new) (λ a b. (tree : Tree) (rest : List ItemValue)
        → IsReadable round.now.format tree
        → a.reading.items ≡ items_of_tree tree ++ rest
        → IsJudged
        (problem_of ordered.now.problem)
        (round_of round.now)
        (a_tree tree (empty_state (problem_of ordered.now.problem)) ∷ [])
        []
        rest
        a
        result
        b) }
{
    let graph = CountyGraph::<C>::build(alloc, ordered)?;
    let input = CheckInput {
        graph: &graph,
        round,
        wanted,
    };
    let mut state = first_state::<C>(alloc, ordered)?;
    let known = known_at(&input, &state)?;
    let mut lists = PartLists::new(alloc);
    judge_tree(&input, &mut state, known, &mut lists, feed, from)
}

/// Judges `round`, and then the tree that begins on the next line of `feed`. The first fault met is returned.
fn judge_round<C: CountySet, F, S: ItemSource<F>>(
    alloc: Global,
    problem: &Problem,
    round: &Round,
    feed: &mut Feed<S>,
    from: &mut F,
) -> Result<(), Halt>
    requires fits { length problem.now.counties ≤ C.PLACES }
    requires small { round.now.limit ≤ most_counties }
    requires counted { feed.old.line ≤ feed.old.steps.used }
    ensures counts { CountsSteps feed.old feed.new }
    ensures fed { FeedsThrough (stream_of S.left S.given feed.old from.old) (stream_of S.left S.given feed.new from.new) (λ a b. IsFed a result b) }
    ensures judged { ForEach (stream_of S.left S.given feed.old from.old) (stream_of S.left S.given feed.new from.new) (λ a b. (tree : Tree) (rest : List ItemValue)
        → feed.old.line ≡ tolerance_line round.now.tolerance + 3 + target_lines (target_of round.now.target)
        → IsReadable round.now.format tree
        → a.reading.items ≡ items_of_tree tree ++ rest
        → IsRoundJudged (problem_of problem.now) (round_of round.now) tree rest a result b) }
{
    match judge_tolerance(problem, round) {
        Ok(()) => match judge_order(alloc, problem, round) {
            Ok(ordered) => match judge_limit(round) {
                Ok(()) => match judge_target(alloc, problem, round) {
                    Ok(wanted) => {
                        let _problem = ordered.problem();
                        judge_first::<C, F, S>(alloc, &ordered, round, wanted.as_ref(), feed, from)
                    }
                    Err(stop) => Err(stop),
                },
                Err(stop) => Err(stop),
            },
            Err(stop) => Err(stop),
        },
        Err(stop) => Err(stop),
    }
}

/// Judges the certificate whose lines are to come from `feed`, and returns its target if it has no fault.
pub(crate) fn judge_certificate<C: CountySet, F, S: ItemSource<F>>(
    alloc: Global,
    problem: &Problem,
    feed: &mut Feed<S>,
    from: &mut F,
) -> Result<Option<Grouping>, Halt>
    requires fits { length problem.now.counties ≤ C.PLACES }
    requires start { (feed.old.line ≡ 0) × (feed.old.steps.used ≡ 0) }
    ensures counts { CountsSteps feed.old feed.new }
    ensures fed { FeedsThrough (stream_of S.left S.given feed.old from.old) (stream_of S.left S.given feed.new from.new) (λ a b. IsFed a result b) }
    ensures judged { ForEach (stream_of S.left S.given feed.old from.old) (stream_of S.left S.given feed.new from.new) (λ a b. (c : Certificate)
        → AllFit (want.Head ∷ []) (items_of_certificate c)
        → a.reading.items ≡ items_of_certificate c
        → IsCertificateJudged (problem_of problem.now) c feed.old.steps.limit result) }
{
    match read_round(alloc, feed, from) {
        Ok(round) => {
            if u32::from(round.limit) > MOST {
                return Err(Halt::Unspelled);
            }
            match judge_round::<C, F, S>(alloc, problem, &round, feed, from) {
                Ok(()) => match next_end(feed, from) {
                    Ok(()) => Ok(round.target),
                    Err(stop) => Err(stop),
                },
                Err(stop) => Err(stop),
            }
        }
        Err(stop) => Err(stop),
    }
}
