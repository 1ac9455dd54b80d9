//! The list of all best groupings, by the text of a certificate.

ghost use Rattle.std.specs.Prelude.{◌≡◌, ◌+◌, ◌≤◌, ℕ, IfOk};
ghost use Rattle.county_problem.specs.ProblemValue.{problem_of};
ghost use Rattle.checker_laws.specs.{Lines.tolerance_line, TextVerdict.IsTextVerdict};
ghost use Rattle.checker_laws.specs.Verdict as said;
ghost use Rattle.certificate_checker.specs.Answers.{lines_in_front};
ghost use Rattle.list_groupings.specs.Answers.{IsReady, IsListing, IsListedWithin, ListsAllBest};

use crate::listing::Listing;
use crate::position::Position;
use crate::sorting::sorted_groupings;
use crate::walk::{Found, WalkInput, WalkStop, put_tree};
use certificate_checker::{Verdict, check};
use certificate_data::{Certificate, Round};
use certificate_text::read;
use county_codes::Grouping;
use county_problem::{Counts, Problem, judge};
use std::alloc::{AllocError, Global};

/// Returns the number of the line behind that of the target in a certificate of this `round`, for a target without
/// groups. It is 6 if a tolerance is named, which has a line of its own, and 5 otherwise.
fn line_behind(round: &Round) -> u64
    ensures value { result ≡ tolerance_line round.now.tolerance + 4 }
    ensures small { result ≤ 6 }
{
    match round.tolerance {
        Some(_) => 6,
        None => 5,
    }
}

/// Returns the listing of the certificate that `text` spells, with its `target` and the counts of the target, `wanted`.
fn listing_of(
    alloc: Global,
    problem: &Problem,
    text: &[u8],
    certificate: &Certificate,
    target: &Grouping,
    wanted: &Counts,
) -> Result<Listing, AllocError>
    requires ready { IsReady (problem_of problem.now) text.now certificate.now target.now wanted.now }
    ensures listing { IfOk result (λ listing. (budget : ℕ)
        → IsListing (problem_of problem.now) text.now budget listing) }
    ensures all { IfOk result (ListsAllBest (problem_of problem.now)) }
{
    let _length = text.len();
    let input = WalkInput {
        alloc,
        problem,
        round: &certificate.round,
        wanted,
    };
    let position = Position::first(alloc, problem)?;
    let mut found = Found {
        line: line_behind(&certificate.round) + target.groups.len() as u64,
        list: Vec::new(alloc),
    };
    match put_tree(&input, position, &certificate.tree, &mut found) {
        Ok(()) => Ok(Listing::All(sorted_groupings(found.list)?)),
        Err(WalkStop::Open(gap, line)) => Ok(Listing::Open(gap, line)),
        Err(WalkStop::Memory) => Err(AllocError),
    }
}

/// Returns the listing of a text that names `target` as best.
fn read_listing(
    alloc: Global,
    problem: &Problem,
    text: &[u8],
    target: &Grouping,
) -> Result<Listing, AllocError>
    requires best { IsTextVerdict (problem_of problem.now) text.now (said.Best target.now.groups.items) }
    ensures listing { IfOk result (λ listing. (budget : ℕ)
        → IsListing (problem_of problem.now) text.now budget listing) }
    ensures all { IfOk result (ListsAllBest (problem_of problem.now)) }
{
    let Ok(certificate) = read(alloc, text) else {
        return Err(AllocError);
    };
    let Ok(wanted) = judge(alloc, problem, target) else {
        return Err(AllocError);
    };
    listing_of(alloc, problem, text, &certificate, target, &wanted)
}

/// Returns what the `text` of a certificate, plain or wide, shows of all best groupings of the `problem`.
///
/// - `All` lists them. Each grouping is best, no two have the same sets of counties, and each best grouping has the
///   sets of one that is listed. The codes of a group ascend. The groups of a grouping are ordered by size and then by
///   codes. The groupings are ordered by their lists of groups, the lesser first. The seats of a grouping are those
///   that `allot` gives to its groups in their order.
/// - `Open` says that the target is best, but that the certificate doesn't show which other groupings are. It gives the
///   first leaf that hides some, with its line, counted from 1: a bound leaf that doesn't fall short of the target's
///   counts, where a county is left or no seats add up.
/// - `Impossible`, `No` and `Budget` are what `check` answers with the same `budget`. As there, any other answer than
///   `Budget` comes only if the lines in front of the text's end, or of the first fault of its words, and one more are
///   no more than the budget.
///
/// # Errors
///
/// Returns `AllocError` if memory was refused.
pub fn all_best(
    alloc: Global,
    problem: &Problem,
    text: &[u8],
    budget: u64,
) -> Result<Listing, AllocError>
    ensures listing { IfOk result (IsListing (problem_of problem.now) text.now budget) }
    ensures within { IfOk result (IsListedWithin (lines_in_front text.now) budget) }
    ensures all { IfOk result (ListsAllBest (problem_of problem.now)) }
{
    match check(alloc, problem, text, budget)? {
        Verdict::Best(target) => read_listing(alloc, problem, text, &target),
        Verdict::Impossible => Ok(Listing::Impossible),
        Verdict::No(fault, line) => Ok(Listing::No(fault, line)),
        Verdict::Budget => Ok(Listing::Budget),
    }
}
