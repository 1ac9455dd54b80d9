//! What the first line of an event says, by its words.

ghost use Rattle.std.specs.Prelude.{◌≡◌};
ghost use Rattle.certificate_lines.specs.{WordsLeft.Leaves, Lines.number_at};
ghost use Rattle.board_report.specs.EventLines.{greatest, hand_on, result_on, split_on, part_on, better_on, wider_on, event_on};

use crate::event_line::EventLine;
use certificate_lines::{MOST, TextKind, Words};
use piece_states::skipped;

/// Takes the next of `words` and returns the number that it spells, of a round or of a piece. It is from 0 to
/// 4,294,967,295.
fn next_number(words: &mut Words) -> Result<u32, TextKind>
    ensures { Leaves (number_at 0 greatest words.old) result words.new }
{
    words.number(0, u32::MAX)
}

/// Reads a request for a piece from the `words` after the first.
#[tactic(auto, unfolding(crate::specs::EventLines::hand_on))]
fn hand_on(words: &mut Words) -> Result<EventLine, TextKind>
    ensures { result ≡ hand_on words.old }
{
    words.counted(1, 1)?;
    Ok(EventLine::Hand(next_number(words)?))
}

/// Reads the round and the piece of a tree from the `words` after the first.
#[tactic(auto, unfolding(crate::specs::EventLines::result_on))]
fn result_on(words: &mut Words) -> Result<EventLine, TextKind>
    ensures { result ≡ result_on words.old }
{
    words.counted(2, 2)?;
    let round = next_number(words)?;
    let piece = next_number(words)?;
    Ok(EventLine::Result(round, piece))
}

/// Reads a split of a piece from the `words` after the first.
#[tactic(auto, unfolding(crate::specs::EventLines::split_on))]
fn split_on(words: &mut Words) -> Result<EventLine, TextKind>
    ensures { result ≡ split_on words.old }
{
    words.counted(4, 4)?;
    let round = next_number(words)?;
    let piece = next_number(words)?;
    let county = words.code()?;
    let limit = words.number(1, MOST)? as u16;
    Ok(EventLine::Split(round, piece, county, limit))
}

/// Reads the round and the piece of a partial tree from the `words` after the first.
#[tactic(auto, unfolding(crate::specs::EventLines::part_on))]
fn part_on(words: &mut Words) -> Result<EventLine, TextKind>
    ensures { result ≡ part_on words.old }
{
    words.counted(2, 2)?;
    let round = next_number(words)?;
    let piece = next_number(words)?;
    Ok(EventLine::Part(round, piece))
}

/// Reads the round and the number of groups of a better target from the `words` after the first.
#[tactic(auto, unfolding(crate::specs::EventLines::better_on))]
fn better_on(words: &mut Words) -> Result<EventLine, TextKind>
    ensures { result ≡ better_on words.old }
{
    words.counted(2, 2)?;
    let round = next_number(words)?;
    let groups = words.number(0, MOST)? as u16;
    Ok(EventLine::Better(round, groups))
}

/// Reads a request for a greater limit from the `words` after the first.
#[tactic(auto, unfolding(crate::specs::EventLines::wider_on))]
fn wider_on(words: &mut Words) -> Result<EventLine, TextKind>
    ensures { result ≡ wider_on words.old }
{
    words.counted(1, 1)?;
    Ok(EventLine::Wider(next_number(words)?))
}

/// Reads what `words`, the first line of an event, say.
///
/// # Errors
///
/// Returns `BadWord` if the first word may not stand there or the number of words is wrong. Otherwise returns the fault
/// of the first word that is at fault.
#[tactic(auto, unfolding(crate::specs::EventLines::event_on))]
pub(crate) fn event_on(words: &mut Words) -> Result<EventLine, TextKind>
    ensures { result ≡ event_on words.old }
{
    if skipped(words, b"hand") {
        hand_on(words)
    } else if skipped(words, b"result") {
        result_on(words)
    } else if skipped(words, b"split") {
        split_on(words)
    } else if skipped(words, b"part") {
        part_on(words)
    } else if skipped(words, b"better") {
        better_on(words)
    } else if skipped(words, b"wider") {
        wider_on(words)
    } else {
        Err(TextKind::BadWord)
    }
}
