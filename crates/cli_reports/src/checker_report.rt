//! What `check` says of a text.

ghost use Rattle.std.specs.Prelude.{◌≡◌, false, None, IfOk};
ghost use Rattle.county_problem.specs.ProblemValue.{problem_of};
ghost use Rattle.certificate_checker.specs.Answers.{CheckIsRight, is_read_fault};
ghost use Rattle.certificate_checker.specs.declared.verdict.Verdict.TheVariants as verdict;
ghost use Rattle.cli_answers.specs.Answers.{answer_of};
ghost use Rattle.run_laws.specs.CheckSteps.{ChecksGiven, verdict_said, verdict_table};
ghost use Rattle.cli_reports.specs.Texts.{reported_of, tabled_of};

use crate::forms::{line_in, report_in};
use crate::table_runs::{Reported, Tabled, table_of};
use certificate_checker::{CheckStop, Verdict, check_from_keeping};
use cli_answers::{RunAnswer, RunOutcome, budget_answer, no_answer};
use cli_words::Form;
use county_codes::Grouping;
use field_lines::Source;
use grouping_report::Outcome;
use std::alloc::{AllocError, Global};

/// Returns `answer` without a table.
fn without_table(answer: RunAnswer) -> Reported
    ensures { reported_of result ≡ record { answer = answer_of answer; table = None } }
{
    Reported {
        answer,
        table: None,
    }
}

/// Returns what is said of a `grouping` that is best, with its table if a table is asked for.
fn report_best(
    alloc: Global,
    form: Form,
    tabled: &Tabled,
    grouping: Grouping,
) -> Result<Reported, AllocError>
    requires { CheckIsRight (problem_of tabled.now.problem) (verdict.Best grouping) }
    ensures { IfOk result (λ r. reported_of r
        ≡ record { answer = verdict_said form (tabled_of tabled.now) (verdict.Best grouping); table = verdict_table (tabled_of tabled.now) (verdict.Best grouping) }) }
{
    let table = table_of(alloc, tabled, &grouping)?;
    let text = report_in(alloc, form, tabled, &Outcome::Best(grouping))?;
    Ok(Reported {
        answer: RunAnswer {
            text,
            status: 0,
            outcome: RunOutcome::Done,
            subject: None,
        },
        table,
    })
}

/// Returns what is said of `verdict`.
fn report_verdict(
    alloc: Global,
    form: Form,
    tabled: &Tabled,
    verdict: Verdict,
) -> Result<Reported, AllocError>
    requires { CheckIsRight (problem_of tabled.now.problem) verdict }
    ensures { IfOk result (λ r. reported_of r
        ≡ record { answer = verdict_said form (tabled_of tabled.now) verdict; table = verdict_table (tabled_of tabled.now) verdict }) }
{
    match verdict {
        Verdict::Best(grouping) => report_best(alloc, form, tabled, grouping),
        Verdict::Impossible => {
            let text = report_in(alloc, form, tabled, &Outcome::Impossible)?;
            Ok(without_table(RunAnswer {
                text,
                status: 1,
                outcome: RunOutcome::Impossible,
                subject: None,
            }))
        }
        Verdict::No(fault, line) => {
            let answer = no_answer(alloc, fault, line)?;
            Ok(without_table(line_in(alloc, form, answer)?))
        }
        Verdict::Budget => {
            let answer = budget_answer(alloc)?;
            Ok(without_table(line_in(alloc, form, answer)?))
        }
    }
}

/// Returns what `check` says of the bytes that `source` gives up to its end, or to where the checker left it. The
/// verdict of a checker with this `budget` is told as a report or as the line that stands in its place, in this `form`.
/// `line` keeps the bytes of the line at fault, at most 65,536, for whoever shows it.
///
/// # Errors
///
/// Returns `ReadFault` if the source could not be read, and `Memory` if memory was refused.
pub fn check_from_and_report<S: Source>(
    alloc: Global,
    form: Form,
    tabled: &Tabled,
    source: &mut S,
    budget: u64,
    line: &mut Vec<u8>,
) -> Result<Reported, CheckStop>
    requires { S.is_failed source.old ≡ false }
    ensures checked { IfOk result (λ r. ChecksGiven form (tabled_of tabled.now) budget (S.given source.old) (S.given source.new) (reported_of r)) }
    ensures failed { S.is_failed source.new ≡ is_read_fault result }
{
    let verdict = match check_from_keeping(alloc, &tabled.problem, source, budget, line) {
        Ok(verdict) => verdict,
        Err(stop) => return Err(stop),
    };
    match report_verdict(alloc, form, tabled, verdict) {
        Ok(reported) => Ok(reported),
        Err(AllocError) => Err(CheckStop::Memory),
    }
}
