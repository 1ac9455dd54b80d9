//! The subcommand `list`.

ghost use Rattle.std.specs.Prelude.{◌≡◌, ◌≤◌, List, option_map};
ghost use Rattle.cli_file_stores.specs.Files.{NamedFile};
ghost use Rattle.cli_answers.specs.Answers.{Comes, said_by};
ghost use Rattle.run_laws.specs.{Storing.{HasStored, store_steps}, ListSteps.{list_steps, listed_files, which_of}};
ghost use Rattle.run_laws.specs.Run.{CommandAnswers};
ghost use Rattle.cli_reports.specs.Texts.{listed_of};
ghost use Rattle.cli.specs.Ends.{refusal_by};

use crate::input::files::{load, load_grouping};
use crate::input::problem::load_tabled_problem;
use crate::notes::Notes;
use crate::storing::store_named;
use cli_answers::{FaultText, FileOption, Refusal, RunAnswer, Subject};
use cli_file_stores::FileStore;
use cli_reports::{Asked, Listed, list_and_report};
use cli_words::{CommandWords, ListWords, StoredWords};
use county_codes::Grouping;
use std::alloc::Global;

/// Returns the number in `words` of the grouping to store, or `None` if none is to be stored.
fn number_in(words: Option<StoredWords<'_>>) -> Option<u32>
    ensures { result ≡ option_map (λ w. w.number) words.entry }
{
    match words {
        Some(words) => Some(words.number),
        None => None,
    }
}

/// Returns the name in `words` of the file that the grouping is written to, or `None` if none is to be stored.
fn out_in<'a>(words: Option<StoredWords<'a>>) -> Option<&'a str>
    ensures { result ≡ option_map (λ w. w.out) words.entry }
{
    match words {
        Some(words) => Some(words.out),
        None => None,
    }
}

/// Loads the grouping whose number is asked for, if `name` is given.
fn load_which<H: FileStore>(
    alloc: Global,
    name: Option<&str>,
    file_store: &mut H,
) -> Result<Option<Grouping>, Refusal>
    ensures steps { Comes (option_map (λ g. g.groups.items)) result (which_of (H.contents file_store.old) name.entry (H.history file_store.old) (H.history file_store.new)) }
    ensures same { H.contents file_store.new ≡ H.contents file_store.old }
    ensures kept { H.stored file_store.new ≡ H.stored file_store.old }
{
    match name {
        Some(name) => {
            let grouping = load_grouping(alloc, FileOption::Which, name, file_store)?;
            Ok(Some(grouping))
        }
        None => Ok(None),
    }
}

/// Returns what `list` says of the certificate whose file `words` name, before anything is stored.
fn list_files<H: FileStore>(
    alloc: Global,
    words: ListWords<'_>,
    file_store: &mut H,
    notes: &mut Notes,
) -> Result<Listed, Refusal>
    requires { words.check.problem.common.state ≤ 99 }
    ensures steps { Comes listed_of result (list_steps (H.contents file_store.old) words.entry (H.history file_store.old) (H.history file_store.new)) }
    ensures same { H.contents file_store.new ≡ H.contents file_store.old }
    ensures kept { H.stored file_store.new ≡ H.stored file_store.old }
{
    let form = words.check.problem.common.form;
    let tabled = load_tabled_problem(
        alloc,
        words.check.problem,
        words.groupings,
        file_store,
        notes,
    )?;
    let which = load_which(alloc, words.which, file_store)?;
    let text = load(
        alloc,
        FileOption::Certificate,
        words.check.certificate,
        file_store,
    )?;
    let number = number_in(words.stored);
    let asked = Asked { number, which };
    let mut listed = list_and_report(alloc, form, &tabled, &text, words.check.budget, &asked)?;
    listed.answer.subject = Some(Subject {
        problem: tabled.problem,
        grouping: None,
        certificate: Some(FaultText::Whole(text)),
    });
    Ok(listed)
}

/// Stores the grouping of the number that `words` give, and then the table of all groupings. Each is stored if `listed`
/// has it and `words` name its file.
fn store_listed<H: FileStore>(
    alloc: Global,
    words: ListWords<'_>,
    listed: &Listed,
    file_store: &mut H,
    notes: &mut Notes,
) -> Result<(), Refusal>
    ensures { (stored : List NamedFile)
        × HasStored (H.contents file_store.old) (H.contents file_store.new) (H.stored file_store.old) (H.stored file_store.new) stored
        × store_steps (listed_files words.entry (listed_of listed.now)) (H.history file_store.old) (H.history file_store.new) stored (refusal_by result) }
{
    let out = out_in(words.stored);
    store_named(
        alloc,
        FileOption::Out,
        out,
        listed.grouping.as_ref(),
        file_store,
        notes,
    )?;
    store_named(
        alloc,
        FileOption::Groupings,
        words.groupings,
        listed.table.as_ref(),
        file_store,
        notes,
    )
}

/// Returns all best groupings, as a certificate shows them. The problem is built first. Then the grouping whose number
/// is asked for is loaded, and then the certificate. The grouping of a number and the table of all groupings are stored
/// if `words` name their files. The first fault met is the answer.
pub(crate) fn list<H: FileStore>(
    alloc: Global,
    words: ListWords<'_>,
    file_store: &mut H,
    notes: &mut Notes,
) -> Result<RunAnswer, Refusal>
    requires { words.check.problem.common.state ≤ 99 }
    ensures { (stored : List NamedFile)
        × HasStored (H.contents file_store.old) (H.contents file_store.new) (H.stored file_store.old) (H.stored file_store.new) stored
        × CommandAnswers (H.contents file_store.old) (CommandWords.List words.entry) (H.history file_store.old) (H.history file_store.new) stored (said_by result) }
{
    let listed = list_files(alloc, words, file_store, notes)?;
    match store_listed(alloc, words, &listed, file_store, notes) {
        Ok(()) => Ok(listed.answer),
        Err(refusal) => {
            let answer = listed.answer;
            notes.note_report(answer.text);
            Err(refusal)
        }
    }
}
