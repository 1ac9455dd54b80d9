//! What `judge` says of a lawful grouping.

ghost use Rattle.std.specs.Prelude.{◌≡◌, ◌++◌, ℕ, IfOk, OnOk, codes, option_map};
ghost use Rattle.grouping_report.specs.Report.{report_text};
ghost use Rattle.county_problem.specs.{ProblemValue.problem_of, CountList.count_at};
ghost use Rattle.grouping_laws.specs.Grouping.{Lawful, counts, sets_of};
ghost use Rattle.certificate_checker.specs.Answers.{CheckIsRight};
ghost use Rattle.cli_answers.specs.Answers.{answer_of};
ghost use Rattle.run_laws.specs.JudgeWithCertificate.{IsSaidBy, IsSaidOf, SaysBeside, best_answer, greater_answer, greater_in, greater_line, lawful_answer};
ghost use Rattle.run_laws.specs.JudgeSteps.{HasTable};
ghost use Rattle.cli_reports.specs.Texts.{reported_of, tabled_of};

use crate::forms::{report_in, with_names};
use crate::table_runs::{Reported, Tabled, table_of};
use certificate_checker::{Verdict, check};
use cli_answers::{BestNotShown, RunAnswer, RunOutcome};
use cli_words::Form;
use county_codes::Grouping;
use county_problem::{Counts, Problem, compare, judge};
use grouping_report::{Outcome, push_counts, report};
use json_report::greater_json;
use std::alloc::{AllocError, Global};
use std::cmp::Ordering;

/// Returns the report of a lawful `grouping`, with status 0, and its table if a table is asked for. `outcome` tells why
/// the grouping isn't shown to be best, if a certificate was given.
fn lawful_report(
    alloc: Global,
    form: Form,
    tabled: &Tabled,
    grouping: Grouping,
    outcome: RunOutcome,
) -> Result<Reported, AllocError>
    requires { Lawful (problem_of tabled.now.problem) grouping.groups.items }
    ensures said { IfOk result (λ r. answer_of r.answer ≡ lawful_answer form tabled.now.problem (tabled_of tabled.now).named grouping.groups.items) }
    ensures table { IfOk result (λ r. HasTable (tabled_of tabled.now) grouping.groups.items (reported_of r)) }
{
    let table = table_of(alloc, tabled, &grouping)?;
    let text = report_in(alloc, form, tabled, &Outcome::Lawful(grouping))?;
    let answer = RunAnswer {
        text,
        status: 0,
        outcome,
        subject: None,
    };
    Ok(Reported { answer, table })
}

/// Returns the report of a `grouping` that is best, with status 0, and its table if a table is asked for.
fn best_report(
    alloc: Global,
    form: Form,
    tabled: &Tabled,
    grouping: Grouping,
) -> Result<Reported, AllocError>
    requires { Lawful (problem_of tabled.now.problem) grouping.groups.items }
    ensures said { IfOk result (λ r. answer_of r.answer ≡ best_answer form tabled.now.problem (tabled_of tabled.now).named grouping.groups.items) }
    ensures table { IfOk result (λ r. HasTable (tabled_of tabled.now) grouping.groups.items (reported_of r)) }
{
    let table = table_of(alloc, tabled, &grouping)?;
    let text = report_in(alloc, form, tabled, &Outcome::Best(grouping))?;
    let answer = RunAnswer {
        text,
        status: 0,
        outcome: RunOutcome::Done,
        subject: None,
    };
    Ok(Reported { answer, table })
}

/// Returns what is said of a lawful `grouping` whose certificate doesn't show that it is best. `best_not_shown` tells
/// why it doesn't.
fn left_lawful(
    alloc: Global,
    form: Form,
    tabled: &Tabled,
    grouping: Grouping,
    best_not_shown: BestNotShown,
) -> Result<Reported, AllocError>
    requires { Lawful (problem_of tabled.now.problem) grouping.groups.items }
    ensures said { IfOk result (λ r. answer_of r.answer ≡ lawful_answer form tabled.now.problem (tabled_of tabled.now).named grouping.groups.items) }
    ensures table { IfOk result (λ r. HasTable (tabled_of tabled.now) grouping.groups.items (reported_of r)) }
{
    lawful_report(
        alloc,
        form,
        tabled,
        grouping,
        RunOutcome::NotShownBest(best_not_shown),
    )
}

/// Returns the counts of a lawful `grouping`. Judging it can fail only for want of memory.
fn counts_of(alloc: Global, problem: &Problem, grouping: &Grouping) -> Result<Counts, AllocError>
    requires { Lawful (problem_of problem.now) grouping.now.groups.items }
    ensures { IfOk result (λ list. (size : ℕ) → count_at list size ≡ counts (sets_of grouping.now.groups.items) size) }
{
    match judge(alloc, problem, grouping) {
        Ok(counts) => Ok(counts),
        Err(_) => Err(AllocError),
    }
}

/// Appends the line of the counts of `target`, a grouping with greater counts than the one that is judged.
fn push_greater_line(out: &mut Vec<u8>, target: &Grouping) -> Result<(), AllocError>
    ensures { OnOk result (out.new.items ≡ out.old.items ++ greater_line target.now.groups.items) }
{
    out.extend_from_slice(b"greater ")?;
    push_counts(out, &target.groups)
}

/// Returns the lines of the report of a lawful `grouping`, with the line of the counts of `target` behind them.
fn greater_lines(
    alloc: Global,
    tabled: &Tabled,
    grouping: Grouping,
    target: &Grouping,
) -> Result<Vec<u8>, AllocError>
    requires { Lawful (problem_of tabled.now.problem) grouping.groups.items }
    ensures { IfOk result (λ v. v.items ≡ report_text tabled.now.problem (codes "lawful") grouping.groups.items ++ greater_line target.now.groups.items) }
{
    let mut text = report(alloc, &tabled.problem, &Outcome::Lawful(grouping))?;
    push_greater_line(&mut text, target)?;
    Ok(text)
}

/// Returns the report of a lawful `grouping`, with the counts of `target` behind it, in this `form`.
fn greater_text(
    alloc: Global,
    form: Form,
    tabled: &Tabled,
    grouping: Grouping,
    target: &Grouping,
) -> Result<Vec<u8>, AllocError>
    requires { Lawful (problem_of tabled.now.problem) grouping.groups.items }
    ensures { IfOk result (λ v. v.items ≡ greater_in form tabled.now.problem (tabled_of tabled.now).named grouping.groups.items target.now.groups.items) }
{
    match form {
        Form::Codes => greater_lines(alloc, tabled, grouping, target),
        Form::Names => {
            let text = greater_lines(alloc, tabled, grouping, target)?;
            with_names(alloc, tabled, text)
        }
        Form::Object => greater_json(alloc, &tabled.problem, &tabled.named, &grouping, target),
    }
}

/// Returns the report of a lawful `grouping` than which the `target` of a certificate has greater counts, with status
/// 1, and its table if a table is asked for. `lesser` are the counts of the grouping and those of the target.
fn greater_report(
    alloc: Global,
    form: Form,
    tabled: &Tabled,
    grouping: Grouping,
    target: &Grouping,
    lesser: BestNotShown,
) -> Result<Reported, AllocError>
    requires { Lawful (problem_of tabled.now.problem) grouping.groups.items }
    ensures said { IfOk result (λ r. answer_of r.answer ≡ greater_answer form tabled.now.problem (tabled_of tabled.now).named grouping.groups.items target.now.groups.items) }
    ensures table { IfOk result (λ r. HasTable (tabled_of tabled.now) grouping.groups.items (reported_of r)) }
{
    let table = table_of(alloc, tabled, &grouping)?;
    let text = greater_text(alloc, form, tabled, grouping, target)?;
    let answer = RunAnswer {
        text,
        status: 1,
        outcome: RunOutcome::NotShownBest(lesser),
        subject: None,
    };
    Ok(Reported { answer, table })
}

/// Returns what is said of a lawful `grouping` with the counts `own`, where the `target` of a certificate is best. If
/// both have the same counts, the grouping is said to be best, and else the target to have greater counts.
fn report_beside_best(
    alloc: Global,
    form: Form,
    tabled: &Tabled,
    grouping: Grouping,
    own: Counts,
    target: Grouping,
) -> Result<Reported, AllocError>
    requires lawful { Lawful (problem_of tabled.now.problem) grouping.groups.items }
    requires own { (size : ℕ) → count_at own size ≡ counts (sets_of grouping.groups.items) size }
    requires best { CheckIsRight (problem_of tabled.now.problem) (Verdict.Best target) }
    ensures said { IfOk result (λ r. SaysBeside form (tabled_of tabled.now) grouping.groups.items (Verdict.Best target) (answer_of r.answer)) }
    ensures table { IfOk result (λ r. HasTable (tabled_of tabled.now) grouping.groups.items (reported_of r)) }
{
    let best = counts_of(alloc, &tabled.problem, &target)?;
    match compare(&own, &best) {
        Ordering::Equal => best_report(alloc, form, tabled, grouping),
        _ => {
            let lesser = BestNotShown::Lesser(own, best);
            greater_report(alloc, form, tabled, grouping, &target, lesser)
        }
    }
}

/// Returns what is said of a lawful `grouping` with the counts `own`, where a certificate has this `verdict`.
fn report_beside(
    alloc: Global,
    form: Form,
    tabled: &Tabled,
    grouping: Grouping,
    own: Counts,
    verdict: Verdict,
) -> Result<Reported, AllocError>
    requires lawful { Lawful (problem_of tabled.now.problem) grouping.groups.items }
    requires own { (size : ℕ) → count_at own size ≡ counts (sets_of grouping.groups.items) size }
    requires best { CheckIsRight (problem_of tabled.now.problem) verdict }
    ensures said { IfOk result (λ r. SaysBeside form (tabled_of tabled.now) grouping.groups.items verdict (answer_of r.answer)) }
    ensures table { IfOk result (λ r. HasTable (tabled_of tabled.now) grouping.groups.items (reported_of r)) }
{
    match verdict {
        Verdict::Best(target) => report_beside_best(alloc, form, tabled, grouping, own, target),
        Verdict::Impossible => left_lawful(alloc, form, tabled, grouping, BestNotShown::Impossible),
        Verdict::No(fault, line) => {
            let best_not_shown = BestNotShown::NoCertificate(fault, line);
            left_lawful(alloc, form, tabled, grouping, best_not_shown)
        }
        Verdict::Budget => left_lawful(alloc, form, tabled, grouping, BestNotShown::Budget),
    }
}

/// Returns what is said of a lawful `grouping` with the counts `own`, by the `text` of a certificate. Its checker has
/// this `budget`.
fn report_by(
    alloc: Global,
    form: Form,
    tabled: &Tabled,
    grouping: Grouping,
    own: Counts,
    text: &[u8],
    budget: u64,
) -> Result<Reported, AllocError>
    requires lawful { Lawful (problem_of tabled.now.problem) grouping.groups.items }
    requires own { (size : ℕ) → count_at own size ≡ counts (sets_of grouping.groups.items) size }
    ensures said { IfOk result (λ r. IsSaidBy form (tabled_of tabled.now) grouping.groups.items budget text.now (answer_of r.answer)) }
    ensures table { IfOk result (λ r. HasTable (tabled_of tabled.now) grouping.groups.items (reported_of r)) }
{
    let verdict = check(alloc, &tabled.problem, text, budget)?;
    report_beside(alloc, form, tabled, grouping, own, verdict)
}

/// Returns what `judge` says of a lawful `grouping` with the counts `own`: that it is lawful, or, if `certificate` shows
/// it, that it is best, or that the certificate's grouping has greater counts. The certificate's checker has this
/// `budget`. The report has this `form`.
///
/// # Errors
///
/// Returns `AllocError` if memory was refused.
pub fn judge_and_report(
    alloc: Global,
    form: Form,
    tabled: &Tabled,
    grouping: Grouping,
    own: Counts,
    certificate: Option<&Vec<u8>>,
    budget: u64,
) -> Result<Reported, AllocError>
    requires lawful { Lawful (problem_of tabled.now.problem) grouping.groups.items }
    requires own { (size : ℕ) → count_at own size ≡ counts (sets_of grouping.groups.items) size }
    ensures said { IfOk result (λ r. IsSaidOf form (tabled_of tabled.now) grouping.groups.items budget (option_map (λ t. t.now.items) certificate.entry) (answer_of r.answer)) }
    ensures table { IfOk result (λ r. HasTable (tabled_of tabled.now) grouping.groups.items (reported_of r)) }
{
    match certificate {
        Some(text) => report_by(alloc, form, tabled, grouping, own, text, budget),
        None => lawful_report(alloc, form, tabled, grouping, RunOutcome::Done),
    }
}
