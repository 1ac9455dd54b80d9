//! The record of a run, which is stored after the files of its command.

ghost use Rattle.std.specs.Prelude.{◌≡◌, ◌-◌, ◌^◌, ◌∷◌, ◌++◌, [], ℕ, true, List, Option, Err, Some, IfSome, length, min};
ghost use Rattle.cli_file_stores.specs.{Files.NamedFile, History.History};
ghost use Rattle.cli_record.specs.{RecordFiles.record_name_of, RunRecord.{IsRecord, sums_between}};
ghost use Rattle.cli_answers.specs.{Answer.{Answered, memory_answer}, Answers.{answer_of, said_by}};
ghost use Rattle.written_output.specs.Writing.{HasWritten, IsFresh, kept_of};
ghost use Rattle.run_laws.specs.{Spoken.behind, Storing.{HasStored, store_steps}};
ghost use Rattle.run_laws.specs.Run.{HasState, RunsAsAsked, RunsWithRecord};
ghost use Rattle.run_laws.specs.Recording.{IsSaidAfter, RecordEnds, is_recorded as must_be_recorded};
ghost use Rattle.run_laws.specs.Forms.{IsShown, form_of_answer as form_in};
ghost use Rattle.cli.specs.{Delivery.texts, Ends.{refusal_by, said_of}};

use crate::command::command_answer;
use crate::notes::Notes;
use crate::storing::store_named;
use branch_bound::Watcher;
use cli_answers::{FileOption, Refusal, RunAnswer};
use cli_file_stores::{FileStore, Sink};
use cli_record::{record_file, record_since};
use cli_reports::shown;
use cli_words::{CommandWords, Form};
use std::alloc::{AllocError, Global};
use written_output::Written;

/// Returns the form of the answer of `command`.
fn form_of_answer(command: &CommandWords<'_>) -> Form
    ensures { result ≡ form_in command.now }
{
    match command {
        CommandWords::Size(words) => words.form,
        CommandWords::Judge(words) => words.problem.common.form,
        CommandWords::Solve(words) => words.problem.common.form,
        CommandWords::Check(words) => words.check.problem.common.form,
        CommandWords::Audit(words) => words.problem.common.form,
        CommandWords::List(words) => words.check.problem.common.form,
        CommandWords::Share(_) | CommandWords::Piece(_) | CommandWords::Worker(_) => Form::Codes,
    }
}

/// Returns whether a run that ends with `status` stores its record.
fn is_recorded(status: u8) -> bool
    ensures { result ≡ must_be_recorded status }
{
    status == 0 || status == 1 || status == 3
}

/// Returns the answer to `refusal` in this `form`. Returns `AllocError` if memory was refused.
fn refusal_shown(alloc: Global, form: Form, refusal: Refusal) -> Result<RunAnswer, AllocError>
    ensures { IsShown form (said_by (Err refusal)) (said_of result) }
{
    match shown(alloc, form, Err(refusal)) {
        Ok(answer) => Ok(answer),
        Err(Refusal::Shown(answer)) => Ok(answer),
        Err(Refusal::Memory) => Err(AllocError),
    }
}

/// Returns the answer that stands once the record was handed over. It is `answer`, that of the run, or the answer to a
/// refused file, in this `form`. Unless the record was stored, the text of `answer` is noted. Returns `AllocError` if
/// `handed_over` says that memory was refused.
fn answer_after(
    alloc: Global,
    form: Form,
    handed_over: Result<(), Refusal>,
    answer: RunAnswer,
    notes: &mut Notes,
) -> Result<RunAnswer, AllocError>
    ensures { IsSaidAfter form (refusal_by handed_over) (answer_of answer) (said_of result) }
{
    match handed_over {
        Ok(()) => Ok(answer),
        Err(refusal) => {
            notes.note_report(answer.text);
            refusal_shown(alloc, form, refusal)
        }
    }
}

/// Stores the `bytes` of a record. Returns the answer of the run, unless the file was refused, which is told in this
/// `form`.
fn store_bytes<H: FileStore>(
    alloc: Global,
    form: Form,
    name: &str,
    bytes: Vec<u8>,
    answer: RunAnswer,
    file_store: &mut H,
    notes: &mut Notes,
) -> Result<RunAnswer, AllocError>
    ensures { (last : List NamedFile) × (refusal : Option Answered)
        × HasStored (H.contents file_store.old) (H.contents file_store.new) (H.stored file_store.old) (H.stored file_store.new) last
        × store_steps (record { name = name.now; bytes = bytes.items }
        ∷ []) (H.history file_store.old) (H.history file_store.new) last refusal
        × IsSaidAfter form refusal (answer_of answer) (said_of result) }
{
    let option = FileOption::Record;
    let handed_over = store_named(alloc, option, Some(name), Some(&bytes), file_store, notes);
    answer_after(alloc, form, handed_over, answer, notes)
}

/// Reports `AllocError`, since a growth was refused while the record was composed, and notes the text of `answer`.
/// Nothing more is stored.
fn uncomposed(answer: RunAnswer, notes: &mut Notes) -> Result<RunAnswer, AllocError>
    ensures { said_of result ≡ memory_answer }
{
    notes.note_report(answer.text);
    Err(AllocError)
}

/// Returns the text of an `answer` behind what was `written` before it, or `None` if memory was refused.
fn whole_text(alloc: Global, written: &Written, answer: &RunAnswer) -> Option<Vec<u8>>
    ensures { IfSome result (λ v. (front : List ℕ) → kept_of written.now ≡ Some front → v.items ≡ front ++ answer.now.text.items) }
{
    let mut text = Vec::new(alloc);
    if let Some(kept) = &written.kept {
        text.extend_from_slice(kept).ok()?;
    }
    text.extend_from_slice(&answer.text).ok()?;
    Some(text)
}

/// Returns the record of a run that ends with an `answer` behind what was `written` before it, or `None` if memory was
/// refused. The file store had `first` events before the run.
fn composed<H: FileStore>(
    alloc: Global,
    words: &[&str],
    command: &CommandWords<'_>,
    first: u64,
    written: &Written,
    answer: &RunAnswer,
    file_store: &H,
) -> Option<Vec<u8>>
    ensures { (before : History) (front : List ℕ) → first ≡ min (length before.events) (2 ^ 64 - 1)
        → kept_of written.now ≡ Some front
        → IfSome result (λ v. IsRecord (texts words.now) command.now (sums_between before (H.history file_store.now)) answer.now.status (front ++ answer.now.text.items) v.items) }
{
    let text = whole_text(alloc, written, answer)?;
    record_since(
        alloc,
        words,
        command,
        file_store,
        first,
        answer.status,
        &text,
    )
}

/// Stores the record of a run whose status asks for it. The file store had `first` events before the run.
fn store_composed<H: FileStore>(
    alloc: Global,
    words: &[&str],
    command: &CommandWords<'_>,
    name: &str,
    first: u64,
    written: &Written,
    answer: RunAnswer,
    file_store: &mut H,
    notes: &mut Notes,
) -> Result<RunAnswer, AllocError>
    requires { must_be_recorded answer.status ≡ true }
    ensures { (before : History) (front : List ℕ) → first ≡ min (length before.events) (2 ^ 64 - 1)
        → kept_of written.now ≡ Some front → (last : List NamedFile)
        × HasStored (H.contents file_store.old) (H.contents file_store.new) (H.stored file_store.old) (H.stored file_store.new) last
        × RecordEnds (texts words.now) command.now name.now before (H.history file_store.old) (H.history file_store.new) last front (answer_of answer) (said_of result) }
{
    match composed(alloc, words, command, first, written, &answer, file_store) {
        Some(bytes) => {
            let form = form_of_answer(command);
            store_bytes(alloc, form, name, bytes, answer, file_store, notes)
        }
        None => uncomposed(answer, notes),
    }
}

/// Stores the record of a run, if the answer's status asks for it. The file store had `first` events before the run.
fn store_record<H: FileStore>(
    alloc: Global,
    words: &[&str],
    command: &CommandWords<'_>,
    name: &str,
    first: u64,
    written: &Written,
    answer: RunAnswer,
    file_store: &mut H,
    notes: &mut Notes,
) -> Result<RunAnswer, AllocError>
    ensures { (before : History) (front : List ℕ) → first ≡ min (length before.events) (2 ^ 64 - 1)
        → kept_of written.now ≡ Some front → (last : List NamedFile)
        × HasStored (H.contents file_store.old) (H.contents file_store.new) (H.stored file_store.old) (H.stored file_store.new) last
        × RecordEnds (texts words.now) command.now name.now before (H.history file_store.old) (H.history file_store.new) last front (answer_of answer) (said_of result) }
{
    if is_recorded(answer.status) {
        store_composed(
            alloc, words, command, name, first, written, answer, file_store, notes,
        )
    } else {
        Ok(answer)
    }
}

/// Runs `command`, whose words name the file `name` for the record of the run, and returns its answer. The record is
/// stored if the answer's status asks for it. Returns `AllocError` if memory was refused.
fn answer_with_record<H: FileStore, W: Sink, V: Watcher>(
    alloc: Global,
    words: &[&str],
    command: CommandWords<'_>,
    name: &str,
    file_store: &mut H,
    out: &mut W,
    written: &mut Written,
    notes: &mut Notes,
    watcher: &mut V,
) -> Result<RunAnswer, AllocError>
    requires state { HasState command }
    requires fresh { IsFresh written.old }
    ensures { (stored : List NamedFile) × (text : List ℕ)
        × HasStored (H.contents file_store.old) (H.contents file_store.new) (H.stored file_store.old) (H.stored file_store.new) stored
        × HasWritten W.contents W.is_failed out.old written.old out.new written.new text
        × RunsWithRecord (H.contents file_store.old) (texts words.now) command.entry name.now (H.history file_store.old) (H.history file_store.new) stored (behind text (said_of result)) }
{
    let first = file_store.events();
    file_store.keep_sums(alloc);
    written.keep_all(alloc);
    match command_answer(alloc, command, file_store, out, written, notes, watcher) {
        Ok(answer) => store_record(
            alloc, words, &command, name, first, written, answer, file_store, notes,
        ),
        Err(AllocError) => Err(AllocError),
    }
}

/// Runs `command` and returns its answer. The record of the run is stored if the words name a file for it and the
/// answer's status asks for it. What `worker` has to say before it is written to `out` at once.
pub(crate) fn answer_as_asked<H: FileStore, W: Sink, V: Watcher>(
    alloc: Global,
    words: &[&str],
    command: CommandWords<'_>,
    file_store: &mut H,
    out: &mut W,
    written: &mut Written,
    notes: &mut Notes,
    watcher: &mut V,
) -> Result<RunAnswer, AllocError>
    requires state { HasState command }
    requires fresh { IsFresh written.old }
    ensures { (stored : List NamedFile) × (text : List ℕ)
        × HasStored (H.contents file_store.old) (H.contents file_store.new) (H.stored file_store.old) (H.stored file_store.new) stored
        × HasWritten W.contents W.is_failed out.old written.old out.new written.new text
        × RunsAsAsked (H.contents file_store.old) (texts words.now) command.entry (record_name_of command.entry) (H.history file_store.old) (H.history file_store.new) stored (behind text (said_of result)) }
{
    match record_file(&command) {
        Some(name) => answer_with_record(
            alloc, words, command, name, file_store, out, written, notes, watcher,
        ),
        None => command_answer(alloc, command, file_store, out, written, notes, watcher),
    }
}
