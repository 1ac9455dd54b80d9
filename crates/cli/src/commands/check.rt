//! The subcommand `check`.

ghost use Rattle.std.specs.Prelude.{◌≡◌, ◌≤◌, List, MatchResult, IsOkAnd};
ghost use Rattle.cli_file_stores.specs.Files.{NamedFile};
ghost use Rattle.cli_answers.specs.Answers.{Comes, said_by};
ghost use Rattle.run_laws.specs.{CheckSteps.check_steps, Storing.HasStored, Run.CommandAnswers};
ghost use Rattle.cli_reports.specs.Texts.{reported_of, tabled_of};
ghost use Rattle.cli.specs.Streams.{checked_file};

use crate::input::head_reader::HeadReader;
use crate::input::problem::load_tabled_problem;
use crate::input::readers::{give_one_back, open};
use crate::notes::Notes;
use crate::storing::store_reported;
use certificate_checker::CheckStop;
use cli_answers::{FaultText, FileOption, Refusal, RunAnswer, Subject};
use cli_file_stores::FileStore;
use cli_reports::{Reported, Tabled, check_from_and_report};
use cli_words::{CertificateWords, CheckWords, CommandWords};
use county_problem::Problem;
use std::alloc::Global;

/// Returns what a check said of the certificate with this `text`. If the check said nothing, returns `Memory`.
fn said(
    checked: Result<Reported, CheckStop>,
    text: FaultText,
    problem: Problem,
) -> Result<Reported, Refusal>
    ensures { MatchResult result (λ r. IsOkAnd checked (λ c. reported_of c ≡ reported_of r)) (λ refusal. refusal ≡ Refusal.Memory) }
{
    match checked {
        Ok(mut reported) => {
            reported.answer.subject = Some(Subject {
                problem,
                grouping: None,
                certificate: Some(text),
            });
            Ok(reported)
        }
        Err(_) => Err(Refusal::Memory),
    }
}

/// Checks the certificate whose file `words` name against the problem of `tabled`. The file is read once, piece by
/// piece, and no further than the verdict asks.
fn check_file<H: FileStore>(
    alloc: Global,
    words: CertificateWords<'_>,
    tabled: Tabled,
    file_store: &mut H,
) -> Result<Reported, Refusal>
    ensures steps { Comes reported_of result (checked_file (H.contents file_store.old) words.entry (tabled_of tabled) (H.history file_store.old) (H.history file_store.new)) }
    ensures same { H.contents file_store.new ≡ H.contents file_store.old }
    ensures kept { H.stored file_store.new ≡ H.stored file_store.old }
{
    let (option, name) = (FileOption::Certificate, words.certificate);
    let reader = open(alloc, option, name, file_store)?;
    let mut source = HeadReader::new(alloc, reader);
    let mut line = Vec::new(alloc);
    let form = words.problem.common.form;
    let checked = check_from_and_report(alloc, form, &tabled, &mut source, words.budget, &mut line);
    let (reader, head) = source.into_parts();
    give_one_back(alloc, option, name, reader, file_store)?;
    said(checked, FaultText::Read { head, line }, tabled.problem)
}

/// Returns the verdict on the certificate whose file `words` name, before anything is stored.
fn check_files<H: FileStore>(
    alloc: Global,
    words: CheckWords<'_>,
    file_store: &mut H,
    notes: &mut Notes,
) -> Result<Reported, Refusal>
    requires { words.check.problem.common.state ≤ 99 }
    ensures steps { Comes reported_of result (check_steps (H.contents file_store.old) words.entry (H.history file_store.old) (H.history file_store.new)) }
    ensures same { H.contents file_store.new ≡ H.contents file_store.old }
    ensures kept { H.stored file_store.new ≡ H.stored file_store.old }
{
    let tabled = load_tabled_problem(alloc, words.check.problem, words.table, file_store, notes)?;
    check_file(alloc, words.check, tabled, file_store)
}

/// Returns the verdict on the certificate whose file `words` name. The problem is built before the certificate is
/// opened. If a grouping is best, its table is then stored. The first fault met is the answer.
pub(crate) fn check<H: FileStore>(
    alloc: Global,
    words: CheckWords<'_>,
    file_store: &mut H,
    notes: &mut Notes,
) -> Result<RunAnswer, Refusal>
    requires { words.check.problem.common.state ≤ 99 }
    ensures { (stored : List NamedFile)
        × HasStored (H.contents file_store.old) (H.contents file_store.new) (H.stored file_store.old) (H.stored file_store.new) stored
        × CommandAnswers (H.contents file_store.old) (CommandWords.Check words.entry) (H.history file_store.old) (H.history file_store.new) stored (said_by result) }
{
    let reported = check_files(alloc, words, file_store, notes)?;
    store_reported(alloc, words.table, reported, file_store, notes)
}
