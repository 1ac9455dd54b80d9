//! The subcommand `piece`.

ghost use Rattle.std.specs.Prelude.{◌≡◌, ◌≤◌, map, length};
ghost use Rattle.cli_file_stores.specs.History.{History};
ghost use Rattle.share_board.specs.Events.{event_of};
ghost use Rattle.cli_answers.specs.Answers.{answer_of, Comes};
ghost use Rattle.run_laws.specs.PieceSteps.{said_step, piece_steps};

use crate::input::board_files::load_named_events;
use crate::input::files::load_grouping;
use crate::input::problem::load_problem;
use crate::notes::Notes;
use cli_answers::{FileOption, Refusal, RunAnswer, refuse_board};
use cli_file_stores::FileStore;
use cli_reports::piece_and_report;
use cli_words::PieceWords;
use county_codes::Grouping;
use county_problem::Problem;
use share_board::Event;
use std::alloc::Global;

/// Returns what the solver answers for the piece, on a board that takes `events`.
fn proved(
    alloc: Global,
    problem: &Problem,
    grouping: &Grouping,
    events: Vec<Event>,
    words: PieceWords<'_>,
) -> Result<RunAnswer, Refusal>
    ensures { (history : History)
        → Comes answer_of result (said_step problem.now grouping.now.groups.items words.entry (map event_of events.items) history history) }
{
    match piece_and_report(alloc, problem, grouping, words, events) {
        Ok(answer) => Ok(answer),
        Err(fault) => Err(refuse_board(alloc, fault)),
    }
}

/// Returns what the solver answers for the piece of a board that `words` name. All files are read before the board is
/// opened. The first fault met is the answer.
pub(crate) fn piece<H: FileStore>(
    alloc: Global,
    words: PieceWords<'_>,
    file_store: &mut H,
    notes: &mut Notes,
) -> Result<RunAnswer, Refusal>
    requires { words.board.problem.common.state ≤ 99 }
    ensures steps { Comes answer_of result (piece_steps (H.contents file_store.old) words.entry (H.history file_store.old) (H.history file_store.new)) }
    ensures same { H.contents file_store.new ≡ H.contents file_store.old }
    ensures kept { H.stored file_store.new ≡ H.stored file_store.old }
{
    let problem = load_problem(alloc, words.board.problem, file_store, notes)?;
    let grouping = load_grouping(
        alloc,
        FileOption::Grouping,
        words.board.grouping,
        file_store,
    )?;
    let events = load_named_events(alloc, words.events, words.board.round, &problem, file_store)?;
    proved(alloc, &problem, &grouping, events, words)
}
