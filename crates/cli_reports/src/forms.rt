//! Answers in their form: a text with the codes of the counties or with their names, or an object of JSON.

ghost use Rattle.std.specs.Prelude.{◌≡◌, ◌&&◌, IfOk, codes, map, nat_eq, nat_le, not, option_map};
ghost use Rattle.std.specs.Cmp.Lexicographic.{pointwise};
ghost use Rattle.cli_answers.specs.{Answer.Answered, Answers.{RefusalShows, answer_of, said_by}};
ghost use Rattle.grouping_report.specs.Outcomes.{NamesLawful};
ghost use Rattle.pl94_counties.specs.CountyNames.{county_name};
ghost use Rattle.run_laws.specs.Forms.{IsShown, findings_in, is_refused_line, line_in as line_in_form, outcome_in, size_in};
ghost use Rattle.run_laws.specs.Forms.{with_names as with_names_of};
ghost use Rattle.cli_words.specs.declared.words.Form.TheVariants as form_kinds;
ghost use Rattle.cli_reports.specs.Texts.{tabled_of};

use crate::table_runs::Tabled;
use baf_auditor::Findings;
use cli_answers::{MEMORY, Refusal, RunAnswer};
use cli_words::Form;
use county_problem::Problem;
use grouping_report::{Outcome, findings_text, report, size_table};
use json_report::{findings_json, message_json, report_json, size_json};
use named_text::named_text;
use pl94_counties::NamedCounty;
use std::alloc::{AllocError, Global};

/// Returns `text` with the names of the counties behind their codes, if `tabled` has the names.
pub(crate) fn with_names(
    alloc: Global,
    tabled: &Tabled,
    text: Vec<u8>,
) -> Result<Vec<u8>, AllocError>
    ensures { IfOk result (λ v. v.items ≡ with_names_of (tabled_of tabled.now).named text.items) }
{
    match &tabled.named {
        Some(named) => named_text(alloc, &text, named),
        None => Ok(text),
    }
}

/// Returns the report of `outcome`, of a lawful grouping if it has one, in this `form`. It has the names of the counties
/// if `tabled` has them and the form is another than `Codes`.
pub(crate) fn report_in(
    alloc: Global,
    form: Form,
    tabled: &Tabled,
    outcome: &Outcome,
) -> Result<Vec<u8>, AllocError>
    requires { NamesLawful tabled.now.problem outcome.now }
    ensures { IfOk result (λ v. v.items ≡ outcome_in form tabled.now.problem (tabled_of tabled.now).named outcome.now) }
{
    match form {
        Form::Codes => report(alloc, &tabled.problem, outcome),
        Form::Names => {
            let text = report(alloc, &tabled.problem, outcome)?;
            with_names(alloc, tabled, text)
        }
        Form::Object => report_json(alloc, &tabled.problem, &tabled.named, outcome),
    }
}

/// Returns the size table of `problem` in this `form`. An object has the names of the counties in `named`, and a text
/// has none.
///
/// # Errors
///
/// Returns `AllocError` if memory was refused.
pub fn sizes_in(
    alloc: Global,
    form: Form,
    problem: &Problem,
    named: &Option<Vec<NamedCounty>>,
) -> Result<Vec<u8>, AllocError>
    ensures { IfOk result (λ v. v.items ≡ size_in form problem.now (option_map (λ v. map county_name v.items) named.now)) }
{
    match form {
        Form::Codes | Form::Names => size_table(alloc, problem),
        Form::Object => size_json(alloc, problem, named),
    }
}

/// Returns the `findings` of an audit in this `form`. Neither has names of counties.
pub(crate) fn findings_in(
    alloc: Global,
    form: Form,
    findings: &Findings,
) -> Result<Vec<u8>, AllocError>
    ensures { IfOk result (λ v. v.items ≡ findings_in form findings.now.list.items) }
{
    match form {
        Form::Codes | Form::Names => findings_text(alloc, findings),
        Form::Object => findings_json(alloc, findings),
    }
}

/// Returns `answer` with the object whose message its line is.
fn as_message(alloc: Global, answer: RunAnswer) -> Result<RunAnswer, AllocError>
    ensures { IfOk result (λ a. answer_of a ≡ line_in_form form_kinds.Object (answer_of answer)) }
{
    let RunAnswer {
        text,
        status,
        outcome,
        subject,
    } = answer;
    let text = message_json(alloc, &text)?;
    Ok(RunAnswer {
        text,
        status,
        outcome,
        subject,
    })
}

/// Returns `answer`, a line that stands in place of a report: if the `form` is `Object`, as the object whose message it
/// is.
///
/// # Errors
///
/// Returns `AllocError` if memory was refused.
pub fn line_in(alloc: Global, form: Form, answer: RunAnswer) -> Result<RunAnswer, AllocError>
    ensures { IfOk result (λ a. answer_of a ≡ line_in_form form (answer_of answer)) }
{
    match form {
        Form::Codes | Form::Names => Ok(answer),
        Form::Object => as_message(alloc, answer),
    }
}

/// Returns `refusal`, whose answer is a line: if the `form` is `Object`, with the object whose message it is.
pub fn refusal_in(alloc: Global, form: Form, refusal: Refusal) -> Refusal
    ensures { (want : Answered) → RefusalShows want refusal → RefusalShows (line_in_form form want) result }
{
    match refusal {
        Refusal::Shown(answer) => match line_in(alloc, form, answer) {
            Ok(answer) => Refusal::Shown(answer),
            Err(AllocError) => Refusal::Memory,
        },
        Refusal::Memory => Refusal::Memory,
    }
}

/// Returns whether `answer` is a line that says what was refused, but for the line that memory was.
fn is_refused(answer: &RunAnswer) -> bool
    ensures { result ≡ is_refused_line (answer_of answer.now) }
{
    answer.status >= 4 && answer.text.as_slice() != MEMORY
}

/// Returns `answer` as it is shown: if the `form` is `Object` and it says what was refused, as the object whose message
/// it is. Returns `Memory` if memory was refused.
fn answer_shown(alloc: Global, form: Form, answer: RunAnswer) -> Result<RunAnswer, Refusal>
    ensures { IsShown form (answer_of answer) (said_by result) }
{
    if !is_refused(&answer) {
        return Ok(answer);
    }
    match form {
        Form::Codes | Form::Names => Ok(answer),
        Form::Object => {
            let shown = as_message(alloc, answer)?;
            Ok(shown)
        }
    }
}

/// Returns what a command came to as it is shown, an answer or the refusal of one: if the `form` is `Object`, what was
/// refused is an object, whose message is the line. The line that memory was refused stays a line.
pub fn shown(
    alloc: Global,
    form: Form,
    end: Result<RunAnswer, Refusal>,
) -> Result<RunAnswer, Refusal>
    ensures { IsShown form (said_by end) (said_by result) }
{
    match end {
        Ok(answer) => answer_shown(alloc, form, answer),
        Err(Refusal::Shown(answer)) => answer_shown(alloc, form, answer),
        Err(Refusal::Memory) => Err(Refusal::Memory),
    }
}
