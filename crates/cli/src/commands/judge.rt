//! The subcommand `judge`.

ghost use Rattle.std.specs.Prelude.{◌≡◌, ◌≤◌, List, option_map};
ghost use Rattle.cli_file_stores.specs.{Files.NamedFile, History.History};
ghost use Rattle.cli_answers.specs.Answers.{Comes, said_by};
ghost use Rattle.run_laws.specs.{JudgeWithCertificate.certificate_text_of, JudgeSteps.{judge_step, judge_steps}};
ghost use Rattle.run_laws.specs.{Storing.HasStored, Run.CommandAnswers};
ghost use Rattle.cli_reports.specs.Texts.{reported_of, tabled_of};

use crate::input::files::{load, load_grouping};
use crate::input::problem::load_tabled_problem;
use crate::notes::Notes;
use crate::storing::store_reported;
use cli_answers::{FaultText, FileOption, Refusal, RunAnswer, Subject, refuse_verdict};
use cli_file_stores::FileStore;
use cli_reports::{Reported, Tabled, judge_and_report, refusal_in};
use cli_words::{CommandWords, Form, JudgeWords};
use county_codes::Grouping;
use county_problem::{Problem, judge as judge_grouping};
use std::alloc::Global;

/// Loads the text of a certificate, if `name` is given.
fn load_certificate<H: FileStore>(
    alloc: Global,
    name: Option<&str>,
    file_store: &mut H,
) -> Result<Option<Vec<u8>>, Refusal>
    ensures steps { Comes (option_map (λ t. t.items)) result (certificate_text_of (H.contents file_store.old) name.entry (H.history file_store.old) (H.history file_store.new)) }
    ensures same { H.contents file_store.new ≡ H.contents file_store.old }
    ensures kept { H.stored file_store.new ≡ H.stored file_store.old }
{
    match name {
        Some(name) => {
            let text = load(alloc, FileOption::Certificate, name, file_store)?;
            Ok(Some(text))
        }
        None => Ok(None),
    }
}

/// Returns what was judged: a lawful grouping of `problem`, by the text of a `certificate` if one was given.
fn subject_of(problem: Problem, certificate: Option<Vec<u8>>) -> Subject {
    let certificate = match certificate {
        Some(text) => Some(FaultText::Whole(text)),
        None => None,
    };
    Subject {
        problem,
        grouping: None,
        certificate,
    }
}

/// Returns what is said of a lawful `grouping`, with the text of a certificate or without one. If the grouping isn't
/// lawful, returns the answer to its fault.
fn verdict(
    alloc: Global,
    form: Form,
    tabled: Tabled,
    grouping: Grouping,
    certificate: Option<Vec<u8>>,
    budget: u64,
) -> Result<Reported, Refusal>
    ensures { (history : History)
        → Comes reported_of result (judge_step form (tabled_of tabled) grouping.groups.items budget (option_map (λ t. t.items) certificate) history history) }
{
    match judge_grouping(alloc, &tabled.problem, &grouping) {
        Ok(own) => {
            let text = certificate.as_ref();
            let mut reported = judge_and_report(alloc, form, &tabled, grouping, own, text, budget)?;
            reported.answer.subject = Some(subject_of(tabled.problem, certificate));
            Ok(reported)
        }
        Err(fault) => {
            let subject = Subject {
                problem: tabled.problem,
                grouping: Some(grouping),
                certificate: None,
            };
            Err(refusal_in(alloc, form, refuse_verdict(alloc, fault, subject)))
        }
    }
}

/// Returns what is said of the grouping whose file `words` name, before anything is stored.
fn judge_files<H: FileStore>(
    alloc: Global,
    words: JudgeWords<'_>,
    file_store: &mut H,
    notes: &mut Notes,
) -> Result<Reported, Refusal>
    requires { words.problem.common.state ≤ 99 }
    ensures steps { Comes reported_of result (judge_steps (H.contents file_store.old) words.entry (H.history file_store.old) (H.history file_store.new)) }
    ensures same { H.contents file_store.new ≡ H.contents file_store.old }
    ensures kept { H.stored file_store.new ≡ H.stored file_store.old }
{
    let form = words.problem.common.form;
    let tabled = load_tabled_problem(alloc, words.problem, words.table, file_store, notes)?;
    let grouping = load_grouping(alloc, FileOption::Grouping, words.grouping, file_store)?;
    let certificate = load_certificate(alloc, words.certificate, file_store)?;
    verdict(alloc, form, tabled, grouping, certificate, words.budget)
}

/// Judges whether the grouping whose file `words` name is lawful, and with a certificate whether it is best. The
/// problem is built first. Then the grouping is loaded and read, and then the certificate is loaded. If the grouping is
/// lawful, its table is then stored. The first fault met is the answer.
pub(crate) fn judge<H: FileStore>(
    alloc: Global,
    words: JudgeWords<'_>,
    file_store: &mut H,
    notes: &mut Notes,
) -> Result<RunAnswer, Refusal>
    requires { words.problem.common.state ≤ 99 }
    ensures { (stored : List NamedFile)
        × HasStored (H.contents file_store.old) (H.contents file_store.new) (H.stored file_store.old) (H.stored file_store.new) stored
        × CommandAnswers (H.contents file_store.old) (CommandWords.Judge words.entry) (H.history file_store.old) (H.history file_store.new) stored (said_by result) }
{
    let reported = judge_files(alloc, words, file_store, notes)?;
    store_reported(alloc, words.table, reported, file_store, notes)
}
