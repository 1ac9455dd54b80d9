//! What is printed of a solver's answer.

ghost use Rattle.std.specs.Prelude.{◌≡◌, ◌≤◌, ℕ, [], ◌∷◌, IfOk, IfSome, option_map};
ghost use Rattle.certificate_lines.specs.Lines.{most};
ghost use Rattle.share_board.specs.Events.{event_of};
ghost use Rattle.board_report.specs.EventSpelling.{text_of_event, HasSpelling, EventsAreSpelled};
ghost use Rattle.board_report.specs.PieceText.{event_in, piece_text_of, HasText};

use crate::event_writing::write_event;
use branch_bound::PieceAnswer;
use certificate_data::Format;
use certificate_lines::WriteFault;
use share_board::Event;
use std::alloc::{AllocError, Global};

/// Returns the event that gives the `answer` to a board, for the piece `number` of the round `round`. Returns
/// `None` if the steps ran out before the search began a branch.
fn answer_event(answer: PieceAnswer, round: u32, number: u32) -> Option<Event>
    ensures { option_map event_of result ≡ event_in round number answer }
{
    match answer {
        PieceAnswer::Proved(tree) => Some(Event::Result(round, number, tree)),
        PieceAnswer::Better(grouping) => Some(Event::Better(round, grouping)),
        PieceAnswer::Wider(_) => Some(Event::Wider(round)),
        PieceAnswer::Open(Some(part)) => Some(Event::Part(round, number, part)),
        PieceAnswer::Open(None) => None,
    }
}

/// Returns the text of an `event` that has one, on a board with this `format` of rounds and this number of `counties`.
/// Returns `AllocError` if memory was refused.
pub(crate) fn event_lines(
    alloc: Global,
    event: &Event,
    format: Format,
    counties: u16,
) -> Result<Vec<u8>, AllocError>
    requires few { counties ≤ most }
    requires spelled { HasSpelling format counties (event_of event.now) }
    ensures spelled { IfOk result (λ text. EventsAreSpelled format counties text.items (event_of event.now ∷ [])) }
    ensures text { IfOk result (λ text. text.items ≡ text_of_event (event_of event.now)) }
{
    match write_event(alloc, event, format, counties) {
        Ok(text) => Ok(text),
        Err(WriteFault::Memory) => Err(AllocError),
        Err(WriteFault::NoSpelling) => unreachable!(),
    }
}

/// Returns what is printed of a solver's `answer` in the round with the number `round`. It is the text of the
/// event that gives the answer to a board, or `open` if no branch was begun.
///
/// # Errors
///
/// Returns `AllocError` if memory was refused.
pub fn piece_text(
    alloc: Global,
    answer: PieceAnswer,
    round: u32,
    number: u32,
    format: Format,
    counties: u16,
) -> Result<Vec<u8>, AllocError>
    requires few { counties ≤ most }
    requires spelled { HasText format counties number answer }
    ensures text { IfOk result (λ text. text.items ≡ piece_text_of round number answer) }
    ensures spelled { IfOk result (λ text. IfSome (event_in round number answer) (λ event. EventsAreSpelled format counties text.items (event ∷ []))) }
{
    match answer_event(answer, round, number) {
        Some(event) => event_lines(alloc, &event, format, counties),
        None => Vec::from_slice(alloc, b"open\n"),
    }
}
