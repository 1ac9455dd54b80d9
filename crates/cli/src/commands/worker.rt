//! The subcommand `worker`.

ghost use Rattle.std.specs.Prelude.{◌≡◌, ◌≤◌, ◌≢◌, ℕ, List, []};
ghost use Rattle.certificate_lines.specs.declared.fault.TextKind.TheVariants as text;
ghost use Rattle.cli_file_stores.specs.Files.{NamedFile};
ghost use Rattle.cli_answers.specs.{Answers.{said_by, RefusalShows, IsShown}, Refusals.pieces_answer};
ghost use Rattle.run_laws.specs.{Spoken.behind, WorkerSteps.{worker_steps, texts_steps}, Run.CommandAnswers};
ghost use Rattle.run_laws.specs.Storing.{HasStored};
ghost use Rattle.written_output.specs.Writing.{HasWritten};
ghost use Rattle.cli.specs.GoingOn.{ProvesBy};

use crate::input::problem::load_problem;
use crate::input::readers::open;
use crate::notes::Notes;
use certificate_lines::TextFault;
use cli_answers::{
    FaultText, FileOption, Refusal, RefusedFile, RunAnswer, RunOutcome, refuse_load, refuse_pieces,
};
use cli_file_stores::{FileStore, Sink};
use cli_words::{CommandWords, STANDARD_INPUT, WorkerWords};
use county_problem::Problem;
use piece_worker::prove_pieces;
use std::alloc::Global;
use written_output::Written;

/// Returns the refusal of a text that is neither a round nor an open piece, for its `fault`.
fn refuse_text(alloc: Global, fault: TextFault) -> Refusal
    ensures answer { RefusalShows (pieces_answer fault) result }
    ensures shown { IsShown result → fault.kind ≢ text.Memory }
{
    let refused = RefusedFile {
        option: FileOption::Input,
        text: FaultText::Whole(Vec::new(alloc)),
    };
    refuse_pieces(alloc, fault, refused)
}

/// Returns the answer where the texts have ended.
fn answer_of_end(alloc: Global) -> RunAnswer
    ensures text { result.text.items ≡ [] }
    ensures status { result.status ≡ 0 }
{
    RunAnswer {
        text: Vec::new(alloc),
        status: 0,
        outcome: RunOutcome::Done,
        subject: None,
    }
}

/// Proves the pieces of `problem` that standard input tells, each within `steps` steps. What is said of each is written
/// to `out` at once.
fn prove_input<H: FileStore, W: Sink>(
    alloc: Global,
    problem: &Problem,
    steps: u64,
    file_store: &mut H,
    out: &mut W,
    written: &mut Written,
) -> Result<RunAnswer, Refusal>
    ensures proved { (text : List ℕ)
        × HasWritten W.contents W.is_failed out.old written.old out.new written.new text
        × ProvesBy (texts_steps (H.contents file_store.old) problem.now) (H.history file_store.old) (H.history file_store.new) text result }
    ensures same { H.contents file_store.new ≡ H.contents file_store.old }
    ensures kept { H.stored file_store.new ≡ H.stored file_store.old }
{
    let (option, name) = (FileOption::Input, STANDARD_INPUT);
    let mut reader = open(alloc, option, name, file_store)?;
    let proved = prove_pieces(alloc, problem, steps, &mut reader, out, written);
    match file_store.give_back(name, reader) {
        Ok(_) => match proved {
            Ok(()) => Ok(answer_of_end(alloc)),
            Err(fault) => Err(refuse_text(alloc, fault)),
        },
        Err(fault) => Err(refuse_load(alloc, option, name, fault)),
    }
}

/// Returns the outcome of `worker` for `words`. What is said of each piece is written to `out` at once.
fn prove_files<H: FileStore, W: Sink>(
    alloc: Global,
    words: WorkerWords<'_>,
    file_store: &mut H,
    out: &mut W,
    written: &mut Written,
    notes: &mut Notes,
) -> Result<RunAnswer, Refusal>
    requires { words.problem.common.state ≤ 99 }
    ensures proved { (text : List ℕ)
        × HasWritten W.contents W.is_failed out.old written.old out.new written.new text
        × ProvesBy (worker_steps (H.contents file_store.old) words.entry) (H.history file_store.old) (H.history file_store.new) text result }
    ensures same { H.contents file_store.new ≡ H.contents file_store.old }
    ensures kept { H.stored file_store.new ≡ H.stored file_store.old }
{
    let problem = load_problem(alloc, words.problem, file_store, notes)?;
    prove_input(alloc, &problem, words.steps, file_store, out, written)
}

/// Proves the pieces that standard input tells, one after the other. The problem of `words` is built before. What is
/// said of each piece is written to `out` at once.
pub(crate) fn worker<H: FileStore, W: Sink>(
    alloc: Global,
    words: WorkerWords<'_>,
    file_store: &mut H,
    out: &mut W,
    written: &mut Written,
    notes: &mut Notes,
) -> Result<RunAnswer, Refusal>
    requires { words.problem.common.state ≤ 99 }
    ensures { (stored : List NamedFile) × (text : List ℕ)
        × HasStored (H.contents file_store.old) (H.contents file_store.new) (H.stored file_store.old) (H.stored file_store.new) stored
        × HasWritten W.contents W.is_failed out.old written.old out.new written.new text
        × CommandAnswers (H.contents file_store.old) (CommandWords.Worker words.entry) (H.history file_store.old) (H.history file_store.new) stored (behind text (said_by result)) }
{
    prove_files(alloc, words, file_store, out, written, notes)
}
