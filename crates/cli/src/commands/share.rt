//! The subcommand `share`.

ghost use Rattle.std.specs.Prelude.{◌≡◌, ◌≤◌, List, map, length};
ghost use Rattle.cli_file_stores.specs.{Files.NamedFile, History.History};
ghost use Rattle.share_board.specs.Events.{event_of};
ghost use Rattle.cli_answers.specs.Answers.{answer_of, Comes, said_by};
ghost use Rattle.run_laws.specs.{Storing.HasStored, ShareSteps.{share_answer, share_step, share_steps}};
ghost use Rattle.run_laws.specs.Run.{CommandAnswers};

use crate::input::board_files::load_events;
use crate::input::files::load_grouping;
use crate::input::problem::load_problem;
use crate::notes::Notes;
use crate::storing::store_named;
use board_report::Shared;
use cli_answers::{FileOption, Refusal, RunAnswer, RunOutcome, refuse_board};
use cli_file_stores::FileStore;
use cli_reports::share_events;
use cli_words::{CommandWords, ShareWords};
use county_codes::Grouping;
use county_problem::Problem;
use share_board::Event;
use std::alloc::Global;

/// Returns the outcome of a board that takes `events`.
fn taken(
    alloc: Global,
    problem: &Problem,
    grouping: &Grouping,
    events: Vec<Event>,
    words: ShareWords<'_>,
) -> Result<Shared, Refusal>
    ensures { (history : History)
        → Comes (λ s. s) result (share_step problem.now grouping.now.groups.items words.entry (map event_of events.items) history history) }
{
    match share_events(
        alloc,
        problem,
        grouping,
        words.board.round,
        events,
        words.budget,
    ) {
        Ok(shared) => Ok(shared),
        Err(fault) => Err(refuse_board(alloc, fault)),
    }
}

/// Returns the outcome of `share` over the files that `words` name, before anything is stored.
fn share_files<H: FileStore>(
    alloc: Global,
    words: ShareWords<'_>,
    file_store: &mut H,
    notes: &mut Notes,
) -> Result<Shared, Refusal>
    requires { words.board.problem.common.state ≤ 99 }
    ensures steps { Comes (λ s. s) result (share_steps (H.contents file_store.old) words.entry (H.history file_store.old) (H.history file_store.new)) }
    ensures same { H.contents file_store.new ≡ H.contents file_store.old }
    ensures kept { H.stored file_store.new ≡ H.stored file_store.old }
{
    let problem = load_problem(alloc, words.board.problem, file_store, notes)?;
    let grouping = load_grouping(
        alloc,
        FileOption::Grouping,
        words.board.grouping,
        file_store,
    )?;
    let events = load_events(alloc, words.events, words.board.round, &problem, file_store)?;
    taken(alloc, &problem, &grouping, events, words)
}

/// Returns what a run of a board comes to at which `left` pieces are still waiting.
fn board_outcome(left: usize) -> RunOutcome {
    if left == 0 {
        RunOutcome::Done
    } else {
        RunOutcome::PiecesLeft(left)
    }
}

/// Returns the answer of the board `shared`: its text, with status 0 if no piece is waiting, and 3 otherwise.
pub(crate) fn answer_to(shared: Shared) -> RunAnswer
    ensures { answer_of result ≡ share_answer shared }
{
    RunAnswer {
        status: if shared.left == 0 { 0 } else { 3 },
        text: shared.text,
        outcome: board_outcome(shared.left),
        subject: None,
    }
}

/// Opens the board of `words`, which takes the events that solvers have sent, and stores the certificate that it joins.
/// All files are read before the board is opened. The first fault met is the answer.
pub(crate) fn share<H: FileStore>(
    alloc: Global,
    words: ShareWords<'_>,
    file_store: &mut H,
    notes: &mut Notes,
) -> Result<RunAnswer, Refusal>
    requires { words.board.problem.common.state ≤ 99 }
    ensures { (stored : List NamedFile)
        × HasStored (H.contents file_store.old) (H.contents file_store.new) (H.stored file_store.old) (H.stored file_store.new) stored
        × CommandAnswers (H.contents file_store.old) (CommandWords.Share words.entry) (H.history file_store.old) (H.history file_store.new) stored (said_by result) }
{
    let shared = share_files(alloc, words, file_store, notes)?;
    match store_named(
        alloc,
        FileOption::CertificateOut,
        words.certificate,
        shared.certificate.as_ref(),
        file_store,
        notes,
    ) {
        Ok(()) => Ok(answer_to(shared)),
        Err(refusal) => {
            notes.note_report(shared.text);
            Err(refusal)
        }
    }
}
