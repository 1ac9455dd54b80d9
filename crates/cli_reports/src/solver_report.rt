//! What `solve` says of a problem.

ghost use Rattle.std.specs.{Prelude.{◌≡◌, ℕ, List, IfOk, option_map}, Option.option_and_then};
ghost use Rattle.county_problem.specs.ProblemValue.{problem_of};
ghost use Rattle.grouping_laws.specs.Grouping.{Lawful};
ghost use Rattle.grouping_report.specs.GroupingText.{grouping_text as text_of};
ghost use Rattle.grouping_report.specs.Outcomes.{NamesLawful};
ghost use Rattle.grouping_report.specs.declared.outcome.Outcome.TheVariants as outcome;
ghost use Rattle.certificate_data.specs.TreeValue.{certificate_of};
ghost use Rattle.certificate_text.specs.Spelling.{IsSpelling};
ghost use Rattle.board_report.specs.{EventSpelling.text_of_events, Resuming.resuming_events};
ghost use Rattle.branch_bound.specs.Answers.{IsFoundOpen, IsSolveAnswer, SolveIsRight};
ghost use Rattle.branch_bound.specs.declared.answer.Answer.TheVariants as solver;
ghost use Rattle.run_laws.specs.SolveSteps.{SaysSolved, IsSolved};
ghost use Rattle.cli_reports.specs.Texts.{solved_of, tabled_of};
ghost use Rattle.run_laws.specs.TableSteps.{table_of as table_text_of};

use crate::forms::report_in;
use crate::table_runs::{Tabled, table_of};
use board_report::resuming_text;
use branch_bound::{Answer as SolverAnswer, Watcher, solve_watched};
use certificate_data::Certificate;
use certificate_lines::WriteFault;
use certificate_text::write;
use cli_answers::{RunAnswer, RunOutcome};
use cli_words::Form;
use county_codes::Grouping;
use grouping_report::{Outcome, grouping_text};
use partial_trees::PartialTree;
use std::alloc::{AllocError, Global};

/// What `solve` says, and the texts for its files.
#[derive(Drop)]
pub struct Solved {
    /// The report, with status 0 if a grouping is best, 1 if none is lawful and 3 if the steps ran out.
    pub answer: RunAnswer,
    /// The text of the certificate, or `None` if the steps ran out.
    pub certificate: Option<Vec<u8>>,
    /// The lines of the grouping that is best, or that was found when the steps ran out.
    pub grouping: Option<Vec<u8>>,
    /// The table of that grouping, or `None` if no table is asked for.
    pub table: Option<Vec<u8>>,
    /// The text of the events by which a board of that grouping goes on, if the steps ran out.
    pub events: Option<Vec<u8>>,
}

/// Returns the text of a `certificate` that has one.
fn certificate_lines(alloc: Global, certificate: &Certificate) -> Result<Vec<u8>, AllocError>
    requires { (text : List ℕ) × IsSpelling text (certificate_of certificate.now) }
    ensures { IfOk result (λ v. IsSpelling v.items (certificate_of certificate.now)) }
{
    match write(alloc, certificate) {
        Ok(text) => Ok(text),
        Err(WriteFault::Memory) => Err(AllocError),
        Err(WriteFault::NoSpelling) => unreachable!(),
    }
}

/// Returns what is said of the best `grouping`, with its `certificate`.
fn report_best(
    alloc: Global,
    form: Form,
    tabled: &Tabled,
    grouping: Grouping,
    certificate: Certificate,
) -> Result<Solved, AllocError>
    requires lawful { Lawful (problem_of tabled.now.problem) grouping.groups.items }
    requires spelled { (text : List ℕ) × IsSpelling text (certificate_of certificate) }
    ensures { IfOk result (λ s. SaysSolved form (tabled_of tabled.now) (solver.Best grouping certificate) (solved_of s)) }
{
    let lines = certificate_lines(alloc, &certificate)?;
    let groups = grouping_text(alloc, &grouping)?;
    let table = table_of(alloc, tabled, &grouping)?;
    let text = report_in(alloc, form, tabled, &Outcome::Best(grouping))?;
    Ok(Solved {
        answer: RunAnswer {
            text,
            status: 0,
            outcome: RunOutcome::Done,
            subject: None,
        },
        certificate: Some(lines),
        grouping: Some(groups),
        table,
        events: None,
    })
}

/// Returns what is said if no grouping is lawful, with the `certificate` that shows it.
fn report_impossible(
    alloc: Global,
    form: Form,
    tabled: &Tabled,
    certificate: Certificate,
) -> Result<Solved, AllocError>
    requires { (text : List ℕ) × IsSpelling text (certificate_of certificate) }
    ensures { IfOk result (λ s. SaysSolved form (tabled_of tabled.now) (solver.Impossible certificate) (solved_of s)) }
{
    let lines = certificate_lines(alloc, &certificate)?;
    let text = report_in(alloc, form, tabled, &Outcome::Impossible)?;
    Ok(Solved {
        answer: RunAnswer {
            text,
            status: 1,
            outcome: RunOutcome::Impossible,
            subject: None,
        },
        certificate: Some(lines),
        grouping: None,
        table: None,
        events: None,
    })
}

/// Returns the lines of the grouping that was `found`, if there is one.
fn lines_of(alloc: Global, found: &Option<Grouping>) -> Result<Option<Vec<u8>>, AllocError>
    ensures { IfOk result (λ lines. option_map (λ t. t.items) lines
        ≡ option_map (λ g. text_of g.groups.items) found.now) }
{
    match found {
        Some(grouping) => Ok(Some(grouping_text(alloc, grouping)?)),
        None => Ok(None),
    }
}

/// Returns the table of the grouping that was `found`, if there is one and a table is asked for.
fn table_of_found(
    alloc: Global,
    tabled: &Tabled,
    found: &Option<Grouping>,
) -> Result<Option<Vec<u8>>, AllocError>
    ensures { IfOk result (λ table. option_map (λ t. t.items) table
        ≡ option_and_then (λ g. table_text_of (tabled_of tabled.now) g.groups.items) found.now) }
{
    match found {
        Some(grouping) => table_of(alloc, tabled, grouping),
        None => Ok(None),
    }
}

/// Returns the text of the events by which a board of the grouping that was `found` goes on, if there is one. `part` is
/// what was proved of that grouping being best.
fn events_of_found(
    alloc: Global,
    tabled: &Tabled,
    found: &Option<Grouping>,
    part: Option<PartialTree>,
) -> Result<Option<Vec<u8>>, AllocError>
    requires { (limit : ℕ) × IsFoundOpen (problem_of tabled.now.problem) limit found.now part }
    ensures { IfOk result (λ events. option_map (λ t. t.items) events
        ≡ option_map (λ _. text_of_events (resuming_events part)) found.now) }
{
    match found {
        Some(_) => Ok(Some(resuming_text(alloc, &tabled.problem, part)?)),
        None => Ok(None),
    }
}

/// Returns what is said if the steps ran out after this number of `steps`, with the grouping that was `found`, if any,
/// and the `part` that was proved of it being best.
fn report_open(
    alloc: Global,
    form: Form,
    tabled: &Tabled,
    found: Option<Grouping>,
    part: Option<PartialTree>,
    steps: u64,
) -> Result<Solved, AllocError>
    requires lawful { NamesLawful tabled.now.problem (outcome.Open found steps) }
    requires part { (limit : ℕ) × IsFoundOpen (problem_of tabled.now.problem) limit found part }
    ensures { IfOk result (λ s. SaysSolved form (tabled_of tabled.now) (solver.Open found part steps) (solved_of s)) }
{
    let groups = lines_of(alloc, &found)?;
    let table = table_of_found(alloc, tabled, &found)?;
    let events = events_of_found(alloc, tabled, &found, part)?;
    let text = report_in(alloc, form, tabled, &Outcome::Open(found, steps))?;
    Ok(Solved {
        answer: RunAnswer {
            text,
            status: 3,
            outcome: RunOutcome::Open,
            subject: None,
        },
        certificate: None,
        grouping: groups,
        table,
        events,
    })
}

/// Returns what is said of `found`, the solver's answer, with the texts for the files of `solve`.
fn report_answer(
    alloc: Global,
    form: Form,
    tabled: &Tabled,
    found: SolverAnswer,
) -> Result<Solved, AllocError>
    requires answer { (limit : ℕ) × IsSolveAnswer (problem_of tabled.now.problem) limit found }
    requires best { SolveIsRight (problem_of tabled.now.problem) found }
    ensures { IfOk result (λ s. SaysSolved form (tabled_of tabled.now) found (solved_of s)) }
{
    match found {
        SolverAnswer::Best(grouping, certificate) => report_best(
            alloc,
            form,
            tabled,
            grouping,
            certificate,
        ),
        SolverAnswer::Impossible(certificate) => report_impossible(
            alloc,
            form,
            tabled,
            certificate,
        ),
        SolverAnswer::Open { found, part, steps } => {
            report_open(alloc, form, tabled, found, part, steps)
        }
    }
}

/// Returns what `solve` says of a problem. The solver takes at most this number of `steps`. Its answer is told as a
/// report in this `form`, with the texts of its certificate, of its grouping, of its table and of its events. `watcher`
/// is told how far the search is, and changes nothing of what is said.
///
/// # Errors
///
/// Returns `AllocError` if memory was refused.
pub fn solve_and_report<W: Watcher>(
    alloc: Global,
    form: Form,
    tabled: &Tabled,
    steps: u64,
    watcher: &mut W,
) -> Result<Solved, AllocError>
    ensures { IfOk result (λ s. IsSolved form (tabled_of tabled.now) steps (solved_of s)) }
{
    let found = solve_watched(alloc, &tabled.problem, steps, watcher)?;
    report_answer(alloc, form, tabled, found)
}
