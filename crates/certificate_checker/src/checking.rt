//! The verdict on a text that stands in memory or is pulled from a source. One body reads both.

ghost use Rattle.std.specs.Prelude.{◌≡◌, ℕ, ◌≤◌, false, List, None, length, IfOk};
ghost use Rattle.grouping_laws.specs.Problem.{Problem as ProblemOf};
ghost use Rattle.county_problem.specs.ProblemValue.{problem_of};
ghost use Rattle.certificate_lines.specs.ItemReadings.{certificate_reading};
ghost use Rattle.certificate_checker.specs.Feeding.{FeedValue, Fed, stream_of, FeedsThrough};
ghost use Rattle.certificate_checker.specs.Answers.{IsCheckAnswer, CheckIsRight, ShowsImpossible, ChecksItems, IsBudgetedAnswer, lines_in_front, IsWithinBudget, ChecksBytes, is_read_fault};

use crate::certificate::judge_certificate;
use crate::fault::CheckStop;
use crate::feed::{Feed, Halt, read_rest};
use crate::verdict::Verdict;
use certificate_lines::{ItemSource, Items, ItemsFrom};
use county_problem::{Problem, Steps};
use field_lines::Source;
use place_sets::{CountySet, MaskSet, WideSet, fits_mask};
use state_judge::CheckFault;
use std::alloc::{AllocError, Global};

/// Keeps a copy of `bytes` in `line`. `line` is empty if memory is refused.
fn keep_line(line: &mut Vec<u8>, bytes: &[u8]) {
    line.clear();
    if line.extend_from_slice(bytes).is_err() {
        line.clear();
    }
}

/// Returns what was `found`, unless a fault of the text stands behind it. Such a fault comes first. `line` keeps the
/// line of the fault that is answered.
fn verdict_after<F, S: ItemSource<F>>(
    found: Verdict,
    feed: &mut Feed<S>,
    from: &mut F,
    line: &mut Vec<u8>,
) -> Result<Verdict, AllocError>
    ensures { FeedsThrough (stream_of S.left S.given feed.old from.old) (stream_of S.left S.given feed.new from.new) (λ a _. (p : ProblemOf) (text : List ℕ) (start : FeedValue)
        → start.reading ≡ certificate_reading text
        → start.line ≡ 0
        → Fed start a
        → ((certificate_reading text).fault ≡ None → IsCheckAnswer p text start.limit found)
        → IfOk result (IsBudgetedAnswer p text start.limit)) }
{
    match read_rest(feed, from) {
        Ok(()) => Ok(found),
        Err(Halt::Text(fault)) => {
            keep_line(line, feed.source.line());
            Ok(Verdict::No(CheckFault::Text(fault), fault.line))
        }
        Err(Halt::Budget) => {
            line.clear();
            Ok(Verdict::Budget)
        }
        Err(_) => {
            line.clear();
            Err(AllocError)
        }
    }
}

/// Returns the verdict on the text whose lines are to come. Lines that fit no certificate are met only in front of a
/// fault of the text. `line` keeps the line of the fault that is answered, as `check_from_keeping` says.
fn check_source<C: CountySet, F, S: ItemSource<F> + Drop>(
    alloc: Global,
    problem: &Problem,
    source: S,
    from: &mut F,
    budget: u64,
    line: &mut Vec<u8>,
) -> Result<Verdict, AllocError>
    requires fits { length problem.now.counties ≤ C.PLACES }
    ensures { ChecksItems (problem_of problem.now) (S.left source) (S.given from.old) budget result (S.given from.new) }
{
    let mut feed = Feed {
        source,
        line: 0,
        steps: Steps::new(budget),
        spare: Steps::new(budget),
    };
    line.clear();
    match judge_certificate::<C, F, S>(alloc, problem, &mut feed, from) {
        Ok(Some(target)) => verdict_after(Verdict::Best(target), &mut feed, from, line),
        Ok(None) => verdict_after(Verdict::Impossible, &mut feed, from, line),
        Err(Halt::Fault(fault, at)) => {
            if at == feed.line {
                keep_line(line, feed.source.line());
            }
            verdict_after(Verdict::No(fault, at), &mut feed, from, line)
        }
        Err(Halt::Budget) => verdict_after(Verdict::Budget, &mut feed, from, line),
        Err(Halt::Unspelled) => verdict_after(Verdict::Budget, &mut feed, from, line),
        Err(Halt::Text(fault)) => {
            keep_line(line, feed.source.line());
            Ok(Verdict::No(CheckFault::Text(fault), fault.line))
        }
        Err(Halt::Refused) => Err(AllocError),
    }
}

/// Returns what `check` returns for `text`, with any form of sets of places that has room for the counties of
/// `problem`.
///
/// # Errors
///
/// Returns `AllocError` if memory was refused.
pub fn check_over<C: CountySet>(
    alloc: Global,
    problem: &Problem,
    text: &[u8],
    budget: u64,
) -> Result<Verdict, AllocError>
    requires fits { length problem.now.counties ≤ C.PLACES }
    ensures verdict { IfOk result (IsCheckAnswer (problem_of problem.now) text.now budget) }
    ensures within { IfOk result (IsWithinBudget (lines_in_front text.now) budget) }
    ensures best { IfOk result (CheckIsRight (problem_of problem.now)) }
    ensures impossible { IfOk result (ShowsImpossible (problem_of problem.now)) }
{
    let items = Items::of_certificate(alloc, text);
    let mut line = Vec::new(alloc);
    check_source::<C, (), Items>(alloc, problem, items, &mut (), budget, &mut line)
}

/// Returns the verdict on a text that should be a certificate of the problem, plain or wide.
///
/// `Best` names the target of the text. It is lawful, and no lawful grouping has a lexicographically greater list of
/// counts by size, as *Stephenson v. Bartlett* asks. `Impossible` says that no grouping is lawful. `No` gives the first
/// fault with its line, from 1. A fault in the text's words comes before any other.
///
/// Each line that is read counts one step, and so does each set of counties that is met. `Budget` comes only if
/// `budget` is below the cost of the text: three for each of its lines, and three for each set of counties that its
/// lines ask to look through. Take the number of lines in front of the text's end, or of the first fault in its words,
/// and add one. Any other answer comes only if this sum is no more than `budget`.
///
/// # Errors
///
/// Returns `AllocError` if memory was refused.
pub fn check(
    alloc: Global,
    problem: &Problem,
    text: &[u8],
    budget: u64,
) -> Result<Verdict, AllocError>
    ensures verdict { IfOk result (IsCheckAnswer (problem_of problem.now) text.now budget) }
    ensures within { IfOk result (IsWithinBudget (lines_in_front text.now) budget) }
    ensures best { IfOk result (CheckIsRight (problem_of problem.now)) }
    ensures impossible { IfOk result (ShowsImpossible (problem_of problem.now)) }
{
    if fits_mask(problem.counties().len()) {
        check_over::<MaskSet>(alloc, problem, text, budget)
    } else {
        check_over::<WideSet>(alloc, problem, text, budget)
    }
}

/// Returns what `check_from_keeping` returns for `source`, with any form of sets of places that has room for the
/// counties of `problem`.
///
/// # Errors
///
/// Returns the errors of `check_from`.
pub fn check_from_over<C: CountySet, S: Source>(
    alloc: Global,
    problem: &Problem,
    source: &mut S,
    budget: u64,
    line: &mut Vec<u8>,
) -> Result<Verdict, CheckStop>
    requires fits { length problem.now.counties ≤ C.PLACES }
    requires works { S.is_failed source.old ≡ false }
    ensures verdict { IfOk result (ChecksBytes (problem_of problem.now) (S.given source.old) (S.given source.new) budget) }
    ensures best { IfOk result (CheckIsRight (problem_of problem.now)) }
    ensures impossible { IfOk result (ShowsImpossible (problem_of problem.now)) }
    ensures failed { S.is_failed source.new ≡ is_read_fault result }
{
    let Ok(items) = ItemsFrom::of_certificate(alloc) else {
        return Err(CheckStop::Memory);
    };
    let checked = check_source::<C, S, ItemsFrom>(alloc, problem, items, source, budget, line);
    if source.failed() {
        return Err(CheckStop::ReadFault);
    }
    match checked {
        Ok(verdict) => Ok(verdict),
        Err(_) => Err(CheckStop::Memory),
    }
}

/// Returns what `check_from` returns, and keeps a copy of the line at fault in `line`, for whoever shows it to a
/// person.
///
/// If a fault is answered, `line` has the bytes of its line, at most 65,536 of them and without LF. `line` is empty in
/// these cases:
///
/// - The fault is that the text ends too early.
/// - The fault stands above the last line that was read when it was found. Tolerance, order, limit and target are
///   judged behind the last group, and the length of a bound leaf behind its lines.
/// - No fault is answered.
/// - Memory for `line` is refused.
///
/// No clause speaks of `line`.
///
/// # Errors
///
/// Returns the errors of `check_from`.
pub fn check_from_keeping<S: Source>(
    alloc: Global,
    problem: &Problem,
    source: &mut S,
    budget: u64,
    line: &mut Vec<u8>,
) -> Result<Verdict, CheckStop>
    requires { S.is_failed source.old ≡ false }
    ensures verdict { IfOk result (ChecksBytes (problem_of problem.now) (S.given source.old) (S.given source.new) budget) }
    ensures best { IfOk result (CheckIsRight (problem_of problem.now)) }
    ensures impossible { IfOk result (ShowsImpossible (problem_of problem.now)) }
    ensures failed { S.is_failed source.new ≡ is_read_fault result }
{
    if fits_mask(problem.counties().len()) {
        check_from_over::<MaskSet, S>(alloc, problem, source, budget, line)
    } else {
        check_from_over::<WideSet, S>(alloc, problem, source, budget, line)
    }
}

/// Returns the verdict on a text that is pulled from `source` line by line, as `check` gives it on a text in memory.
///
/// It holds one line, and makes no value of a tree. It reads on behind a fault that it finds, up to the end of the text
/// or to a fault in the text's words, which comes before any other. So it pulls at most as many lines as the budget has
/// steps, even from a source that never ends. The verdict is that of the bytes that were pulled, with whatever may come
/// later.
///
/// # Errors
///
/// Returns `ReadFault` if the source could not be read, and `Memory` if memory was refused.
pub fn check_from<S: Source>(
    alloc: Global,
    problem: &Problem,
    source: &mut S,
    budget: u64,
) -> Result<Verdict, CheckStop>
    requires { S.is_failed source.old ≡ false }
    ensures verdict { IfOk result (ChecksBytes (problem_of problem.now) (S.given source.old) (S.given source.new) budget) }
    ensures best { IfOk result (CheckIsRight (problem_of problem.now)) }
    ensures impossible { IfOk result (ShowsImpossible (problem_of problem.now)) }
    ensures failed { S.is_failed source.new ≡ is_read_fault result }
{
    let mut line = Vec::new(alloc);
    check_from_keeping(alloc, problem, source, budget, &mut line)
}
