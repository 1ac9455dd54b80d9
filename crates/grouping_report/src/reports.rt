//! The report of a problem and what was found of it.

ghost use Rattle.std.specs.Prelude.{◌≡◌, ℕ, ◌++◌, ◌≤◌, OnOk, IfOk, codes};
ghost use Rattle.grouping_laws.specs.Sets.{count_in};
ghost use Rattle.county_problem.specs.ProblemValue.{problem_of};
ghost use Rattle.grouping_laws.specs.Grouping.{Lawful, sets_of, counts as counts_by_size};
ghost use Rattle.grouping_report.specs.Report.{head_lines, answer_line, longest_size, numbers_to, counts_line, group_line, group_lines, report_text, open_words};
ghost use Rattle.grouping_report.specs.Outcomes.{NamesLawful, outcome_text};

use crate::faults::push_words_number;
use crate::first_lines::push_first_lines;
use crate::outcome::Outcome;
use county_codes::{Group, Grouping, push_codes};
use county_problem::Problem;
use field_lines::push_number;
use std::alloc::{AllocError, Global};

/// Appends the people, the chamber, the tolerance, the seats left and the number of counties of `problem`, each in a
/// line. If the tolerance is one twentieth, it has no line.
///
/// # Errors
///
/// Returns `AllocError` if memory was refused.
pub fn push_head(out: &mut Vec<u8>, problem: &Problem) -> Result<(), AllocError>
    ensures { OnOk result (out.new.items ≡ out.old.items ++ head_lines problem.now) }
{
    push_first_lines(out, problem)?;
    push_words_number(out, b"seats left ", u64::from(problem.seats_left()))?;
    push_words_number(out, b"\ncounties ", problem.counties().len() as u64)?;
    out.extend_from_slice(b"\n")
}

/// Appends the line that tells what the `answer` is.
///
/// # Errors
///
/// Returns `AllocError` if memory was refused.
pub fn push_answer(out: &mut Vec<u8>, answer: &[u8]) -> Result<(), AllocError>
    ensures { OnOk result (out.new.items ≡ out.old.items ++ answer_line answer.now) }
{
    out.extend_from_slice(b"answer ")?;
    out.extend_from_slice(answer)?;
    out.extend_from_slice(b"\n")
}

/// Returns the number of counties of the longest of `groups`, or 0 if there are no groups.
pub fn longest_group(groups: &[Group]) -> usize
    ensures { result ≡ longest_size (sets_of groups.now) }
{
    let mut longest = 0;
    for group in groups {
        longest = longest.max(group.codes.as_slice().len());
    }
    longest
}

/// Returns how many of `groups` have `size` counties.
#[tactic(auto, using(crate::proofs::ReportLemmas::count_of_size))]
pub fn groups_of_size(groups: &[Group], size: usize) -> usize
    ensures { result ≡ counts_by_size (sets_of groups.now) size }
{
    groups
        .iter()
        .filter(|group| group.codes.as_slice().len() == size)
        .count()
}

/// Appends how many of `groups` have each size from 1 to the longest, each number after a blank.
fn push_numbers(out: &mut Vec<u8>, groups: &[Group]) -> Result<(), AllocError>
    ensures { OnOk result (out.new.items
        ≡ out.old.items ++ numbers_to (counts_by_size (sets_of groups.now)) (longest_size (sets_of groups.now))) }
{
    for shorter in 0..longest_group(groups) {
        out.extend_from_slice(b" ")?;
        push_number(out, groups_of_size(groups, shorter + 1) as u64)?;
    }
    Ok(())
}

/// Appends the line that tells how many of `groups` have each size, up to the longest. It says `none` if there are no
/// groups.
///
/// # Errors
///
/// Returns `AllocError` if memory was refused.
pub fn push_counts(out: &mut Vec<u8>, groups: &[Group]) -> Result<(), AllocError>
    ensures { OnOk result (out.new.items ≡ out.old.items ++ counts_line (sets_of groups.now)) }
{
    if groups.is_empty() {
        return out.extend_from_slice(b"counts none\n");
    }
    out.extend_from_slice(b"counts")?;
    push_numbers(out, groups)?;
    out.extend_from_slice(b"\n")
}

/// Appends the line of `group` with its `number` and its `people`.
fn push_group(out: &mut Vec<u8>, number: u64, people: u64, group: &Group) -> Result<(), AllocError>
    ensures { OnOk result (out.new.items ≡ out.old.items ++ group_line number group.now.seats people group.now.codes) }
{
    push_words_number(out, b"group ", number)?;
    push_words_number(out, b" seats ", u64::from(group.seats))?;
    push_words_number(out, b" people ", people)?;
    out.extend_from_slice(b" counties")?;
    push_codes(out, b" ", group.codes.as_slice())?;
    out.extend_from_slice(b"\n")
}

/// Appends the lines of `groups`, numbered from 1.
fn push_groups(out: &mut Vec<u8>, problem: &Problem, groups: &[Group]) -> Result<(), AllocError>
    requires { (c : ℕ) → count_in c (sets_of groups.now) ≤ 1 }
    ensures { OnOk result (out.new.items ≡ out.old.items ++ group_lines (problem_of problem.now) 1 groups.now) }
{
    for (i, group) in groups.iter().enumerate() {
        let people = problem.people_of(group.codes.as_slice());
        push_group(out, i as u64 + 1, people, group)?;
    }
    Ok(())
}

/// Returns the report of an `answer` without a grouping. It has the head and the answer alone.
fn top_report(alloc: Global, problem: &Problem, answer: &[u8]) -> Result<Vec<u8>, AllocError>
    ensures { IfOk result (λ v. v.items ≡ head_lines problem.now ++ answer_line answer.now) }
{
    let mut out = Vec::new(alloc);
    push_head(&mut out, problem)?;
    push_answer(&mut out, answer)?;
    Ok(out)
}

/// Returns the report of an `answer` with a lawful `grouping`.
fn full_report(
    alloc: Global,
    problem: &Problem,
    answer: &[u8],
    grouping: &Grouping,
) -> Result<Vec<u8>, AllocError>
    requires { Lawful (problem_of problem.now) grouping.now.groups.items }
    ensures { IfOk result (λ v. v.items ≡ report_text problem.now answer.now grouping.now.groups.items) }
{
    let groups = grouping.groups.as_slice();
    let mut out = Vec::new(alloc);
    push_head(&mut out, problem)?;
    push_answer(&mut out, answer)?;
    push_counts(&mut out, groups)?;
    push_groups(&mut out, problem, groups)?;
    Ok(out)
}

/// Returns the answer `open after STEPS steps`, where STEPS is `steps`.
#[tactic(auto, unfolding(crate::specs::Report::open_words))]
fn open_answer(alloc: Global, steps: u64) -> Result<Vec<u8>, AllocError>
    ensures { IfOk result (λ v. v.items ≡ open_words steps) }
{
    let mut out = Vec::from_slice(alloc, b"open after ")?;
    push_number(&mut out, steps)?;
    out.extend_from_slice(b" steps")?;
    Ok(out)
}

/// Returns the report of a problem that is open after `steps` steps, which found no lawful grouping.
fn open_report(alloc: Global, problem: &Problem, steps: u64) -> Result<Vec<u8>, AllocError>
    ensures { IfOk result (λ v. v.items
        ≡ (head_lines problem.now ++ answer_line (open_words steps)) ++ codes "grouping none\n") }
{
    let answer = open_answer(alloc, steps)?;
    let mut out = top_report(alloc, problem, &answer)?;
    out.extend_from_slice(b"grouping none\n")?;
    Ok(out)
}

/// Returns the report of a problem that is open after `steps` steps, which found a lawful `grouping`.
fn found_report(
    alloc: Global,
    problem: &Problem,
    grouping: &Grouping,
    steps: u64,
) -> Result<Vec<u8>, AllocError>
    requires { Lawful (problem_of problem.now) grouping.now.groups.items }
    ensures { IfOk result (λ v. v.items ≡ report_text problem.now (open_words steps) grouping.now.groups.items) }
{
    let answer = open_answer(alloc, steps)?;
    full_report(alloc, problem, &answer, grouping)
}

/// Returns the report of `problem`: its people, its chamber, its tolerance, the seats left, the number of its counties,
/// and the answer. If the tolerance is one twentieth, it has no line. If `outcome` has a grouping, a line follows with
/// the counts of its groups by size, from one county on. Then comes each group with its number from 1, its seats, its
/// people and its counties. If the outcome is open and has no grouping, the line `grouping none` follows.
///
/// The grouping has to be lawful. The outcome is reported as it is told: that the grouping is best, that no grouping is
/// lawful, or how many steps were taken.
///
/// # Errors
///
/// Returns `AllocError` if memory was refused.
pub fn report(alloc: Global, problem: &Problem, outcome: &Outcome) -> Result<Vec<u8>, AllocError>
    requires { NamesLawful problem.now outcome.now }
    ensures { IfOk result (λ v. v.items ≡ outcome_text problem.now outcome.now) }
{
    match outcome {
        Outcome::Lawful(grouping) => full_report(alloc, problem, b"lawful", grouping),
        Outcome::Best(grouping) => full_report(alloc, problem, b"best", grouping),
        Outcome::Impossible => top_report(alloc, problem, b"impossible"),
        Outcome::Open(None, steps) => open_report(alloc, problem, *steps),
        Outcome::Open(Some(grouping), steps) => found_report(alloc, problem, grouping, *steps),
    }
}
