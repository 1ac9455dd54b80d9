//! The object of a report.

ghost use Rattle.std.specs.Prelude.{◌≡◌, ℕ, ◌++◌, ◌≤◌, ◌∷◌, [], List, IfOk, codes, map, option_map};
ghost use Rattle.json.specs.Token.{Token, begin_object, key, null};
ghost use Rattle.grouping_laws.specs.Grouping.{Lawful, sets_of, counts as counts_by_size};
ghost use Rattle.grouping_laws.specs.Sets.{count_in};
ghost use Rattle.grouping_report.specs.{Outcomes.NamesLawful, Report.longest_size};
ghost use Rattle.county_problem.specs.ProblemValue.{problem_of};
ghost use Rattle.pl94_counties.specs.CountyNames.{county_name};
ghost use Rattle.json_report.specs.Parts.{Adds};
ghost use Rattle.json_report.specs.ReportObject.{answer_member, counts_tokens, first_members, greater_json as greater_object, greater_member, group_object, group_objects, grouping_members, head_members, numbers_to, object_line, open_members, outcome_json, outcome_members, report_members};

use crate::parts::{push_codes, push_names, push_number, push_text};
use county_codes::{Group, Grouping};
use county_problem::Problem;
use grouping_report::{Outcome, groups_of_size, longest_group};
use json::Writer;
use pl94_counties::NamedCounty;
use std::alloc::{AllocError, Global};

/// Returns a writer that has begun an object.
///
/// # Errors
///
/// Returns `AllocError` if memory was refused.
pub fn begin(alloc: Global) -> Result<Writer, AllocError>
    ensures { IfOk result (λ w. (w.before ≡ []) × (w.tokens ≡ begin_object ∷ [])) }
{
    let mut out = Writer::new(Vec::new(alloc));
    out.begin_object()?;
    Ok(out)
}

/// Ends the object that `out` has begun, with the names of the counties in `named` if they have names. Returns the
/// object's line.
///
/// # Errors
///
/// Returns `AllocError` if memory was refused.
pub fn finish(mut out: Writer, named: &Option<Vec<NamedCounty>>) -> Result<Vec<u8>, AllocError>
    requires { out.before ≡ [] }
    ensures { IfOk result (λ v. (members : List Token) → out.tokens ≡ begin_object ∷ members
        → v.items ≡ object_line members (option_map (λ v. map county_name v.items) named.now)) }
{
    push_names(&mut out, named)?;
    out.end_object()?;
    let mut line = out.into_inner();
    line.extend_from_slice(b"\n")?;
    Ok(line)
}

/// Appends the people, the chamber and the tolerance of `problem`.
pub(crate) fn push_first(out: &mut Writer, problem: &Problem) -> Result<(), AllocError>
    ensures { Adds result out.old out.new (first_members problem.now) }
{
    let tolerance = problem.tolerance();
    push_number(out, "people", problem.total_people())?;
    push_number(out, "chamber", u64::from(problem.chamber()))?;
    out.key("tolerance")?;
    out.begin_array()?;
    out.u64(u64::from(tolerance.numerator))?;
    out.u64(u64::from(tolerance.denominator))?;
    out.end_array()
}

/// Appends the people, the chamber, the tolerance, the seats left and the number of counties of `problem`.
///
/// # Errors
///
/// Returns `AllocError` if memory was refused.
pub fn push_head(out: &mut Writer, problem: &Problem) -> Result<(), AllocError>
    ensures { Adds result out.old out.new (head_members problem.now) }
{
    push_first(out, problem)?;
    push_number(out, "seats_left", u64::from(problem.seats_left()))?;
    push_number(out, "counties", problem.counties().len() as u64)
}

/// Appends what the `answer` is.
///
/// # Errors
///
/// Returns `AllocError` if memory was refused.
pub fn push_answer(out: &mut Writer, answer: &str) -> Result<(), AllocError>
    ensures { Adds result out.old out.new (answer_member answer.now) }
{
    push_text(out, "answer", answer)
}

/// Appends how many of `groups` have each size from 1 to the longest.
fn push_numbers(out: &mut Writer, groups: &[Group]) -> Result<(), AllocError>
    ensures { Adds result out.old out.new (numbers_to (counts_by_size (sets_of groups.now)) (longest_size (sets_of groups.now))) }
{
    for shorter in 0..longest_group(groups) {
        out.u64(groups_of_size(groups, shorter + 1) as u64)?;
    }
    Ok(())
}

/// Appends how many of `groups` have each size from 1 to the longest.
///
/// # Errors
///
/// Returns `AllocError` if memory was refused.
pub fn push_counts(out: &mut Writer, groups: &[Group]) -> Result<(), AllocError>
    ensures { Adds result out.old out.new (counts_tokens (sets_of groups.now)) }
{
    out.begin_array()?;
    push_numbers(out, groups)?;
    out.end_array()
}

/// Appends the object of `group` with its `number` and its `people`.
fn push_group(out: &mut Writer, number: u64, people: u64, group: &Group) -> Result<(), AllocError>
    ensures { Adds result out.old out.new (group_object number group.now.seats people group.now.codes) }
{
    out.begin_object()?;
    push_number(out, "group", number)?;
    push_number(out, "seats", u64::from(group.seats))?;
    push_number(out, "people", people)?;
    out.key("counties")?;
    push_codes(out, group.codes.as_slice())?;
    out.end_object()
}

/// Appends the objects of `groups`, numbered from 1.
fn push_groups(out: &mut Writer, problem: &Problem, groups: &[Group]) -> Result<(), AllocError>
    requires { (c : ℕ) → count_in c (sets_of groups.now) ≤ 1 }
    ensures { Adds result out.old out.new (group_objects (problem_of problem.now) 1 groups.now) }
{
    for (i, group) in groups.iter().enumerate() {
        let people = problem.people_of(group.codes.as_slice());
        push_group(out, i as u64 + 1, people, group)?;
    }
    Ok(())
}

/// Appends the counts of a lawful `grouping`, and its groups.
fn push_grouping(out: &mut Writer, problem: &Problem, grouping: &Grouping) -> Result<(), AllocError>
    requires { Lawful (problem_of problem.now) grouping.now.groups.items }
    ensures { Adds result out.old out.new (grouping_members problem.now grouping.now.groups.items) }
{
    let groups = grouping.groups.as_slice();
    out.key("counts")?;
    push_counts(out, groups)?;
    out.key("groups")?;
    out.begin_array()?;
    push_groups(out, problem, groups)?;
    out.end_array()
}

/// Appends the members of an `answer` with a lawful `grouping`.
fn push_report(
    out: &mut Writer,
    problem: &Problem,
    answer: &str,
    grouping: &Grouping,
) -> Result<(), AllocError>
    requires { Lawful (problem_of problem.now) grouping.now.groups.items }
    ensures { Adds result out.old out.new (report_members problem.now answer.now grouping.now.groups.items) }
{
    push_answer(out, answer)?;
    push_head(out, problem)?;
    push_grouping(out, problem, grouping)
}

/// Appends that the answer is open after this number of `steps`, and the head of `problem`.
fn push_steps(out: &mut Writer, problem: &Problem, steps: u64) -> Result<(), AllocError>
    ensures { Adds result out.old out.new (open_members steps ++ head_members problem.now) }
{
    push_answer(out, "open")?;
    push_number(out, "steps", steps)?;
    push_head(out, problem)
}

/// Appends the members of an answer that is open after this number of `steps`, which found no lawful grouping.
fn push_open(out: &mut Writer, problem: &Problem, steps: u64) -> Result<(), AllocError>
    ensures { Adds result out.old out.new (open_members steps ++ head_members problem.now
        ++ key (codes "groups") ∷ null ∷ []) }
{
    push_steps(out, problem, steps)?;
    out.key("groups")?;
    out.null()
}

/// Appends the members of an answer that is open after this number of `steps`, which found a lawful `grouping`.
fn push_found(
    out: &mut Writer,
    problem: &Problem,
    grouping: &Grouping,
    steps: u64,
) -> Result<(), AllocError>
    requires { Lawful (problem_of problem.now) grouping.now.groups.items }
    ensures { Adds result out.old out.new (open_members steps ++ head_members problem.now
        ++ grouping_members problem.now grouping.now.groups.items) }
{
    push_steps(out, problem, steps)?;
    push_grouping(out, problem, grouping)
}

/// Appends the members of `outcome`.
fn push_outcome(out: &mut Writer, problem: &Problem, outcome: &Outcome) -> Result<(), AllocError>
    requires { NamesLawful problem.now outcome.now }
    ensures { Adds result out.old out.new (outcome_members problem.now outcome.now) }
{
    match outcome {
        Outcome::Lawful(grouping) => push_report(out, problem, "lawful", grouping),
        Outcome::Best(grouping) => push_report(out, problem, "best", grouping),
        Outcome::Impossible => {
            push_answer(out, "impossible")?;
            push_head(out, problem)
        }
        Outcome::Open(None, steps) => push_open(out, problem, *steps),
        Outcome::Open(Some(grouping), steps) => push_found(out, problem, grouping, *steps),
    }
}

/// Returns the report of `problem` as an object on one line: the answer, its people, its chamber, its tolerance, the
/// seats left and the number of its counties. If `outcome` has a grouping, its counts and its groups follow. The names
/// of the counties in `named` stand last, if they have names.
///
/// The grouping has to be lawful. The outcome is reported as it is told, as by `grouping_report::report`.
///
/// # Errors
///
/// Returns `AllocError` if memory was refused.
pub fn report_json(
    alloc: Global,
    problem: &Problem,
    named: &Option<Vec<NamedCounty>>,
    outcome: &Outcome,
) -> Result<Vec<u8>, AllocError>
    requires { NamesLawful problem.now outcome.now }
    ensures { IfOk result (λ v. v.items ≡ outcome_json problem.now (option_map (λ v. map county_name v.items) named.now) outcome.now) }
{
    let mut out = begin(alloc)?;
    push_outcome(&mut out, problem, outcome)?;
    finish(out, named)
}

/// Appends the members of the report of a lawful `grouping`, and the counts of `target`.
fn push_greater(
    out: &mut Writer,
    problem: &Problem,
    grouping: &Grouping,
    target: &Grouping,
) -> Result<(), AllocError>
    requires { Lawful (problem_of problem.now) grouping.now.groups.items }
    ensures { Adds result out.old out.new (report_members problem.now (codes "lawful") grouping.now.groups.items
        ++ greater_member target.now.groups.items) }
{
    push_report(out, problem, "lawful", grouping)?;
    out.key("greater_counts")?;
    push_counts(out, target.groups.as_slice())
}

/// Returns the report of a lawful `grouping` as an object on one line, with the counts of `target`, a grouping with
/// greater counts.
///
/// # Errors
///
/// Returns `AllocError` if memory was refused.
pub fn greater_json(
    alloc: Global,
    problem: &Problem,
    named: &Option<Vec<NamedCounty>>,
    grouping: &Grouping,
    target: &Grouping,
) -> Result<Vec<u8>, AllocError>
    requires { Lawful (problem_of problem.now) grouping.now.groups.items }
    ensures { IfOk result (λ v. v.items ≡ greater_object problem.now (option_map (λ v. map county_name v.items) named.now) grouping.now.groups.items target.now.groups.items) }
{
    let mut out = begin(alloc)?;
    push_greater(&mut out, problem, grouping, target)?;
    finish(out, named)
}
