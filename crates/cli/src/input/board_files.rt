//! What the file of a board's events gives.

ghost use Rattle.std.specs.Prelude.{◌≡◌, length, map};
ghost use Rattle.share_board.specs.Events.{event_of};
ghost use Rattle.cli_file_stores.specs.History.{History};
ghost use Rattle.cli_answers.specs.Answers.{Comes};
ghost use Rattle.run_laws.specs.BoardSteps.{format_of, events_in, events_of, named_events_of};

use crate::input::files::load;
use board_report::read_events;
use cli_answers::{FaultText, FileOption, Refusal, RefusedFile, refuse_events};
use cli_file_stores::FileStore;
use cli_reports::format_for;
use cli_words::RoundWords;
use county_problem::Problem;
use share_board::Event;
use std::alloc::Global;

/// Reads the events in the `text` of a file.
fn events_from(
    alloc: Global,
    text: Vec<u8>,
    words: RoundWords,
    problem: &Problem,
) -> Result<Vec<Event>, Refusal>
    ensures { (history : History)
        → Comes (λ v. map event_of v.items) result (events_in (format_of words) (length problem.now.counties) text.items history history) }
{
    let format = format_for(words);
    let counties = problem.counties().len() as u16;
    match read_events(alloc, &text, format, counties) {
        Ok(events) => Ok(events),
        Err(fault) => {
            let refused = RefusedFile {
                option: FileOption::Events,
                text: FaultText::Whole(text),
            };
            Err(refuse_events(alloc, fault, refused))
        }
    }
}

/// Loads and reads the events of the file `name`. Their trees are in the format of the rounds, and for the counties
/// of `problem`.
pub(crate) fn load_events<H: FileStore>(
    alloc: Global,
    name: &str,
    words: RoundWords,
    problem: &Problem,
    file_store: &mut H,
) -> Result<Vec<Event>, Refusal>
    ensures steps { Comes (λ v. map event_of v.items) result (events_of (H.contents file_store.old) (format_of words) (length problem.now.counties) name.now (H.history file_store.old) (H.history file_store.new)) }
    ensures same { H.contents file_store.new ≡ H.contents file_store.old }
    ensures kept { H.stored file_store.new ≡ H.stored file_store.old }
{
    let text = load(alloc, FileOption::Events, name, file_store)?;
    events_from(alloc, text, words, problem)
}

/// Loads and reads the events of the file `name`. Returns none if no file is named.
pub(crate) fn load_named_events<H: FileStore>(
    alloc: Global,
    name: Option<&str>,
    words: RoundWords,
    problem: &Problem,
    file_store: &mut H,
) -> Result<Vec<Event>, Refusal>
    ensures steps { Comes (λ v. map event_of v.items) result (named_events_of (H.contents file_store.old) (format_of words) (length problem.now.counties) name.entry (H.history file_store.old) (H.history file_store.new)) }
    ensures same { H.contents file_store.new ≡ H.contents file_store.old }
    ensures kept { H.stored file_store.new ≡ H.stored file_store.old }
{
    match name {
        Some(name) => load_events(alloc, name, words, problem, file_store),
        None => Ok(Vec::new(alloc)),
    }
}
