//! What the lines of an open piece say, by their words.

ghost use Rattle.std.specs.Prelude.{◌≡◌, drop, if◌then◌else◌};
ghost use Rattle.field_lines.specs.Values.{GivesUnless};
ghost use Rattle.certificate_lines.specs.{Lines.begins, declared.fault.TextKind.TheVariants.Memory};
ghost use Rattle.piece_states.specs.TextLines.{open_on, closed_on, least_on, told_on};

use crate::line::ToldLine;
use crate::piece::Asked;
use certificate_lines::{MOST, TextKind, Words};
use std::alloc::Global;

/// Takes the next word if it is `name`, and returns whether it was.
pub fn skipped(words: &mut Words, name: &[u8]) -> bool
    ensures was { result ≡ begins name.now words.old }
    ensures rest { words.new ≡ (if result then drop 1 words.old else words.old) }
{
    let is = words.begins(name);
    if is {
        let _word = words.next_word();
    }
    is
}

/// Reads the numbers of the round and of the piece from the `words` of the first line. The line is the name `open` and
/// these two numbers, each from 0 to 4,294,967,295.
#[tactic(auto, unfolding(crate::specs::TextLines::open_on))]
pub(crate) fn open_on(words: &mut Words) -> Result<(u32, u32), TextKind>
    ensures { result ≡ open_on words.old }
{
    words.named(b"open")?;
    words.counted(2, 2)?;
    let round = words.number(0, u32::MAX)?;
    let piece = words.number(0, u32::MAX)?;
    Ok((round, piece))
}

/// Reads a closed group from the `words` after the first. It may stand there only if `closing` says so.
#[tactic(auto, unfolding(crate::specs::TextLines::closed_on))]
fn closed_on(alloc: Global, closing: bool, words: Words) -> Result<ToldLine, TextKind>
    ensures { GivesUnless (λ k. k ≡ Memory) (λ l. l) result (closed_on closing words.entry) }
{
    if !closing {
        return Err(TextKind::BadWord);
    }
    words.counted(1, MOST as usize)?;
    Ok(ToldLine::Closed(words.codes(alloc)?))
}

/// Reads a county and the size that it asks for from the `words` after the first.
#[tactic(auto, unfolding(crate::specs::TextLines::least_on))]
fn least_on(words: &mut Words) -> Result<ToldLine, TextKind>
    ensures { result ≡ least_on words.old }
{
    words.counted(2, 2)?;
    let county = words.code()?;
    let size = words.number(1, 65_535)? as u16;
    Ok(ToldLine::Least(Asked { county, size }))
}

/// Reads a line behind the first. A closed group may stand there only if `closing` says so.
#[tactic(auto, unfolding(crate::specs::TextLines::told_on))]
pub(crate) fn told_on(alloc: Global, closing: bool, words: Words) -> Result<ToldLine, TextKind>
    ensures { GivesUnless (λ k. k ≡ Memory) (λ l. l) result (told_on closing words.entry) }
{
    let mut words = words;
    if skipped(&mut words, b"closed") {
        closed_on(alloc, closing, words)
    } else if skipped(&mut words, b"least") {
        least_on(&mut words)
    } else if skipped(&mut words, b"end") {
        words.counted(0, 0)?;
        Ok(ToldLine::End)
    } else {
        Err(TextKind::BadWord)
    }
}
