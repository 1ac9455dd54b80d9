//! The subcommand `solve`.

ghost use Rattle.std.specs.Prelude.{◌≡◌, ◌≤◌, ◌++◌, List};
ghost use Rattle.cli_file_stores.specs.Files.{NamedFile};
ghost use Rattle.cli_answers.specs.Answers.{Comes, said_by};
ghost use Rattle.run_laws.specs.Storing.{HasStored, named_file, store_steps};
ghost use Rattle.run_laws.specs.{SolveSteps.{solve_steps, files_to_store}, Run.CommandAnswers};
ghost use Rattle.cli_reports.specs.Texts.{solved_of};
ghost use Rattle.cli.specs.Ends.{refusal_by};

use crate::input::problem::load_tabled_problem;
use crate::notes::Notes;
use crate::storing::store_named;
use branch_bound::Watcher;
use cli_answers::{FileOption, Refusal, RunAnswer};
use cli_file_stores::FileStore;
use cli_reports::{Solved, solve_and_report};
use cli_words::{CommandWords, SolveWords};
use std::alloc::Global;

/// Returns what `solve` says of the problem of the files that `words` name, before anything is stored.
fn solve_files<H: FileStore, V: Watcher>(
    alloc: Global,
    words: SolveWords<'_>,
    file_store: &mut H,
    notes: &mut Notes,
    watcher: &mut V,
) -> Result<Solved, Refusal>
    requires { words.problem.common.state ≤ 99 }
    ensures steps { Comes solved_of result (solve_steps (H.contents file_store.old) words.entry (H.history file_store.old) (H.history file_store.new)) }
    ensures same { H.contents file_store.new ≡ H.contents file_store.old }
    ensures kept { H.stored file_store.new ≡ H.stored file_store.old }
{
    let form = words.problem.common.form;
    let tabled = load_tabled_problem(alloc, words.problem, words.table, file_store, notes)?;
    let solved = solve_and_report(alloc, form, &tabled, words.steps, watcher)?;
    Ok(solved)
}

/// Stores the table and then the events. Each is stored if `solved` has it and `words` name its file.
fn store_table_and_events<H: FileStore>(
    alloc: Global,
    words: SolveWords<'_>,
    solved: &Solved,
    file_store: &mut H,
    notes: &mut Notes,
) -> Result<(), Refusal>
    ensures { (stored : List NamedFile)
        × HasStored (H.contents file_store.old) (H.contents file_store.new) (H.stored file_store.old) (H.stored file_store.new) stored
        × store_steps (named_file words.entry.table (solved_of solved.now).table
        ++ named_file words.entry.events (solved_of solved.now).events) (H.history file_store.old) (H.history file_store.new) stored (refusal_by result) }
{
    store_named(
        alloc,
        FileOption::Table,
        words.table,
        solved.table.as_ref(),
        file_store,
        notes,
    )?;
    store_named(
        alloc,
        FileOption::EventsOut,
        words.events,
        solved.events.as_ref(),
        file_store,
        notes,
    )
}

/// Stores the certificate, the grouping, the table and the events, in this order. Each is stored if `solved` has it and
/// `words` name its file.
fn store_solved<H: FileStore>(
    alloc: Global,
    words: SolveWords<'_>,
    solved: &Solved,
    file_store: &mut H,
    notes: &mut Notes,
) -> Result<(), Refusal>
    ensures { (stored : List NamedFile)
        × HasStored (H.contents file_store.old) (H.contents file_store.new) (H.stored file_store.old) (H.stored file_store.new) stored
        × store_steps (files_to_store words.entry (solved_of solved.now)) (H.history file_store.old) (H.history file_store.new) stored (refusal_by result) }
{
    store_named(
        alloc,
        FileOption::CertificateOut,
        words.certificate,
        solved.certificate.as_ref(),
        file_store,
        notes,
    )?;
    store_named(
        alloc,
        FileOption::Out,
        words.out,
        solved.grouping.as_ref(),
        file_store,
        notes,
    )?;
    store_table_and_events(alloc, words, solved, file_store, notes)
}

/// Returns the best grouping of the problem of `words` with its certificate. The problem is built first, and then the
/// solver answers. Then the files are stored: the certificate first, then the grouping, the table and the events. The
/// first fault met is the answer.
pub(crate) fn solve<H: FileStore, V: Watcher>(
    alloc: Global,
    words: SolveWords<'_>,
    file_store: &mut H,
    notes: &mut Notes,
    watcher: &mut V,
) -> Result<RunAnswer, Refusal>
    requires { words.problem.common.state ≤ 99 }
    ensures { (stored : List NamedFile)
        × HasStored (H.contents file_store.old) (H.contents file_store.new) (H.stored file_store.old) (H.stored file_store.new) stored
        × CommandAnswers (H.contents file_store.old) (CommandWords.Solve words.entry) (H.history file_store.old) (H.history file_store.new) stored (said_by result) }
{
    let solved = solve_files(alloc, words, file_store, notes, watcher)?;
    match store_solved(alloc, words, &solved, file_store, notes) {
        Ok(()) => Ok(solved.answer),
        Err(refusal) => {
            let answer = solved.answer;
            notes.note_report(answer.text);
            Err(refusal)
        }
    }
}
