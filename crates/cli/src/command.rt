//! A run of one command. Its words are parsed, and the command is run. Its record is stored if the words ask for it.
//! Then the answer is written.

ghost use Rattle.std.specs.Prelude.{◌≡◌, ◌++◌, ℕ, List, IfOk};
ghost use Rattle.cli_file_stores.specs.Files.{NamedFile};
ghost use Rattle.cli_answers.specs.{Answer.Answered, Answers.{answer_of, said_by}};
ghost use Rattle.written_output.specs.Writing.{HasWritten, IsFresh};
ghost use Rattle.run_laws.specs.{Spoken.behind, Storing.HasStored};
ghost use Rattle.run_laws.specs.{Run.{CommandRun, IsEndAnswer, IsRunAnswer, HasState}, Headline.RunTells};
ghost use Rattle.cli.specs.{Delivery.{Delivers, texts}, Ends.said_of};

use crate::commands::audit::audit;
use crate::commands::check::check;
use crate::commands::judge::judge;
use crate::commands::list::list;
use crate::commands::piece::piece;
use crate::commands::share::share;
use crate::commands::size::size;
use crate::commands::solve::solve;
use crate::commands::worker::worker;
use crate::ended_run::EndedRun;
use crate::notes::Notes;
use crate::recording::answer_as_asked;
use branch_bound::{NoWatcher, Watcher};
use cli_answers::{MEMORY, Refusal, RunAnswer, RunOutcome};
use cli_file_stores::{FileStore, Sink};
use cli_reports::shown;
use cli_words::{CommandWords, WordsEnd, parse};
use std::alloc::{AllocError, Global};
use written_output::Written;

/// Runs `command`. Returns its answer, or the refusal with which it ends before that, each in the form that the words
/// ask for. What `worker` has to say before
/// it is written to `out` at once.
fn command_end<H: FileStore, W: Sink, V: Watcher>(
    alloc: Global,
    command: CommandWords<'_>,
    file_store: &mut H,
    out: &mut W,
    written: &mut Written,
    notes: &mut Notes,
    watcher: &mut V,
) -> Result<RunAnswer, Refusal>
    requires { HasState command }
    ensures { (stored : List NamedFile) × (text : List ℕ)
        × HasStored (H.contents file_store.old) (H.contents file_store.new) (H.stored file_store.old) (H.stored file_store.new) stored
        × HasWritten W.contents W.is_failed out.old written.old out.new written.new text
        × CommandRun (H.contents file_store.old) command.entry (H.history file_store.old) (H.history file_store.new) stored (behind text (said_by result)) }
{
    match command {
        CommandWords::Size(words) => {
            shown(alloc, words.form, size(alloc, words, file_store, notes))
        }
        CommandWords::Judge(words) => {
            let form = words.problem.common.form;
            shown(alloc, form, judge(alloc, words, file_store, notes))
        }
        CommandWords::Solve(words) => {
            let form = words.problem.common.form;
            shown(alloc, form, solve(alloc, words, file_store, notes, watcher))
        }
        CommandWords::Check(words) => {
            let form = words.check.problem.common.form;
            shown(alloc, form, check(alloc, words, file_store, notes))
        }
        CommandWords::Audit(words) => {
            let form = words.problem.common.form;
            shown(alloc, form, audit(alloc, words, file_store, notes))
        }
        CommandWords::List(words) => {
            let form = words.check.problem.common.form;
            shown(alloc, form, list(alloc, words, file_store, notes))
        }
        CommandWords::Share(words) => share(alloc, words, file_store, notes),
        CommandWords::Piece(words) => piece(alloc, words, file_store, notes),
        CommandWords::Worker(words) => worker(alloc, words, file_store, out, written, notes),
    }
}

/// Runs `command` and returns its answer. Returns `AllocError` if memory was refused. What `worker` has to say before
/// it is written to `out` at once.
pub(crate) fn command_answer<H: FileStore, W: Sink, V: Watcher>(
    alloc: Global,
    command: CommandWords<'_>,
    file_store: &mut H,
    out: &mut W,
    written: &mut Written,
    notes: &mut Notes,
    watcher: &mut V,
) -> Result<RunAnswer, AllocError>
    requires { HasState command }
    ensures { (stored : List NamedFile) × (text : List ℕ)
        × HasStored (H.contents file_store.old) (H.contents file_store.new) (H.stored file_store.old) (H.stored file_store.new) stored
        × HasWritten W.contents W.is_failed out.old written.old out.new written.new text
        × CommandRun (H.contents file_store.old) command.entry (H.history file_store.old) (H.history file_store.new) stored (behind text (said_of result)) }
{
    match command_end(alloc, command, file_store, out, written, notes, watcher) {
        Ok(answer) => Ok(answer),
        Err(Refusal::Shown(answer)) => Ok(answer),
        Err(Refusal::Memory) => Err(AllocError),
    }
}

/// Returns the text and the status of the answer to words that give no command, as `words_end` tells. The status is 0
/// for help and the version, 2 for a fault of the words, and 5 if memory was refused to them.
fn end_text(alloc: Global, words_end: &WordsEnd) -> Result<(Vec<u8>, u8), AllocError>
    ensures { IfOk result (λ r. IsEndAnswer words_end.now (record { text = r.0.items; status = r.1 })) }
{
    let (text, status) = match words_end {
        WordsEnd::Help(text) | WordsEnd::Version(text) => (text.as_bytes(), 0),
        WordsEnd::Usage(text) => (text.as_bytes(), 2),
        WordsEnd::Memory => (MEMORY, 5),
    };
    Ok((Vec::from_slice(alloc, text)?, status))
}

/// Returns the answer to words that give no command, as `words_end` tells.
fn words_end_answer(alloc: Global, words_end: WordsEnd) -> Result<RunAnswer, AllocError>
    ensures { IfOk result (λ a. IsEndAnswer words_end (answer_of a)) }
{
    let (text, status) = end_text(alloc, &words_end)?;
    Ok(RunAnswer {
        text,
        status,
        outcome: RunOutcome::Words(words_end),
        subject: None,
    })
}

/// Parses `words`, runs their command and returns the answer. Returns `AllocError` if memory was refused. What `worker`
/// has to say before it is written to `out` at once.
pub(crate) fn words_answer<H: FileStore, W: Sink, V: Watcher>(
    alloc: Global,
    words: &[&str],
    file_store: &mut H,
    out: &mut W,
    written: &mut Written,
    notes: &mut Notes,
    watcher: &mut V,
) -> Result<RunAnswer, AllocError>
    requires { IsFresh written.old }
    ensures { (stored : List NamedFile) × (text : List ℕ)
        × HasStored (H.contents file_store.old) (H.contents file_store.new) (H.stored file_store.old) (H.stored file_store.new) stored
        × HasWritten W.contents W.is_failed out.old written.old out.new written.new text
        × IsRunAnswer (H.contents file_store.old) (texts words.now) (H.history file_store.old) (H.history file_store.new) stored (behind text (said_of result)) }
{
    match parse(alloc, words) {
        Ok(command) => {
            answer_as_asked(
                alloc, words, command, file_store, out, written, notes, watcher,
            )
        }
        Err(words_end) => words_end_answer(alloc, words_end),
    }
}

/// Writes `text` and returns `status`, or 5 if the writing failed.
pub(crate) fn deliver<W: Sink>(out: &mut W, text: &[u8], status: u8) -> u8
    ensures { Delivers (W.is_failed out.new) (W.contents out.old) (W.contents out.new) (record { text = text.now; status = status }) result }
{
    match out.put(text) {
        Ok(()) => status,
        Err(_) => 5,
    }
}

/// Writes `text` behind what was `written`, and returns `status`, or 5 if a write failed.
fn deliver_rest<W: Sink>(out: &mut W, written: &Written, text: &[u8], status: u8) -> u8
    ensures { (begun : W) (fresh : Written) (front : List ℕ) → IsFresh fresh
        → HasWritten W.contents W.is_failed begun fresh out.old written.now front
        → Delivers (W.is_failed out.new) (W.contents begun) (W.contents out.new) (record { text = front ++ text.now; status = status }) result }
{
    if written.is_cut {
        return 5;
    }
    deliver(out, text, status)
}

/// Writes the answer that was `said` behind what was `written`, or the line that says that memory was refused. Returns
/// the status, or 5 if a write failed.
fn deliver_said<W: Sink>(out: &mut W, written: &Written, said: &Result<RunAnswer, AllocError>) -> u8
    ensures { (begun : W) (fresh : Written) (front : List ℕ) → IsFresh fresh
        → HasWritten W.contents W.is_failed begun fresh out.old written.now front
        → Delivers (W.is_failed out.new) (W.contents begun) (W.contents out.new) (behind front (said_of said.now)) result }
{
    match said {
        Ok(answer) => deliver_rest(out, written, &answer.text, answer.status),
        Err(AllocError) => deliver_rest(out, written, MEMORY, 5),
    }
}

/// Runs the command of `words`, and returns the exit status and the run that has ended. `watcher` is told how far a
/// search is. All that `run` promises holds of it and of its status, for each watcher.
pub fn run_with_notes<H: FileStore, W: Sink, V: Watcher>(
    alloc: Global,
    words: &[&str],
    file_store: &mut H,
    out: &mut W,
    watcher: &mut V,
) -> (u8, EndedRun)

    // The answer is that of the steps of the words' command, its files are stored, and its text is written. If the
    // status is 0, 1 or 3, this answer tells of the machine's files what the command promises.
    ensures run { (a : Answered) × (stored : List NamedFile)
        × HasStored (H.contents file_store.old) (H.contents file_store.new) (H.stored file_store.old) (H.stored file_store.new) stored
        × IsRunAnswer (H.contents file_store.old) (texts words.now) (H.history file_store.old) (H.history file_store.new) stored a
        × RunTells (texts words.now) (H.history file_store.old) (H.history file_store.new) a
        × Delivers (W.is_failed out.new) (W.contents out.old) (W.contents out.new) a result.0 }
{
    let mut notes = Notes::new(alloc);
    let mut written = Written::new(None);
    let said = words_answer(
        alloc,
        words,
        file_store,
        out,
        &mut written,
        &mut notes,
        watcher,
    );
    let status = deliver_said(out, &written, &said);
    (status, EndedRun::of_words(said, notes))
}

/// Runs one command and returns its exit status. `words` are those after the program's name. The answer is composed
/// whole, files are stored, and then the answer is written to `out`.
///
/// If `solve` or `check` ends with status 0, the grouping that it printed is lawful for the problem of the files, and
/// no lawful grouping has greater counts. The files are any bytes under the names by which this run's readings went as
/// they did, so those of the machine are among them. `specs/Headline.antt` of `run_laws` says what each command tells
/// with each status.
///
/// The status is 0 for an answer, for help and for the version.
///
/// It is 1 where `judge` finds a fault of the grouping, or `audit` finds anything. It is 1, too, where `solve`, `check`
/// or `list` tells that no grouping is lawful, or `check` or `list` that the text is no certificate. So it is where
/// `list` tells that the grouping of `--which` isn't one of the best.
///
/// It is 2 for usage. It is 3 where the steps of `solve` or `piece` or the budget of `check`, `list` or `share` ran
/// out, or pieces are left to `share`. It is 3, too, where the certificate of `list` doesn't show which other groupings
/// are best.
///
/// It is 4 where the input was refused, no grouping has the number that `list` should store, or no piece has that of
/// `piece`. It is 5 where a file could not be had or stored, memory was refused, or the writing failed. If memory was
/// refused, the line is `memory`. If the writing failed, the status doesn't say how much went out.
///
/// `solve` stores the certificate, the grouping and the table. `judge` and `check` store the table. `list` stores a
/// grouping and the table of all groupings, `audit` the table of the districts, and `share` a certificate. Each is
/// stored if the words name its file. If they name a file for the record of the run and the status is 0, 1 or 3, the
/// record is stored last. What was stored before a fault stays stored.
pub fn run<H: FileStore, W: Sink>(
    alloc: Global,
    words: &[&str],
    file_store: &mut H,
    out: &mut W,
) -> u8

    // The answer is that of the steps of the words' command, its files are stored, and its text is written. If the
    // status is 0, 1 or 3, this answer tells of the machine's files what the command promises.
    ensures run { (a : Answered) × (stored : List NamedFile)
        × HasStored (H.contents file_store.old) (H.contents file_store.new) (H.stored file_store.old) (H.stored file_store.new) stored
        × IsRunAnswer (H.contents file_store.old) (texts words.now) (H.history file_store.old) (H.history file_store.new) stored a
        × RunTells (texts words.now) (H.history file_store.old) (H.history file_store.new) a
        × Delivers (W.is_failed out.new) (W.contents out.old) (W.contents out.new) a result }
{
    run_with_notes(alloc, words, file_store, out, &mut NoWatcher).0
}
