//! Texts that are told to a worker, read from their lines.

ghost use Rattle.std.specs.Prelude.{◌≡◌, ◌≤◌, ◌<◌, ◌++◌, ℕ, List, Err, map, length, take, IfOk, IfErr};
ghost use Rattle.field_lines.specs.{RawPieces.raw_lines, Values.GivesUnless};
ghost use Rattle.certificate_lines.specs.{Items.by_words, Reading.IsUnlessMemory};
ghost use Rattle.certificate_lines.specs.{Rest.{IsTextMemory, ReadsLine, lines_of}, Spelling.text_of_items};
ghost use Rattle.certificate_lines.specs.declared.item.Item.TheVariants as item;
ghost use Rattle.worker_texts.specs.RoundText.{text_of_round, HasRoundText};
ghost use Rattle.worker_texts.specs.RoundReading.{round_on, groups_from, round_from};
ghost use Rattle.worker_texts.specs.WorkerText.{WorkerTextTold, text_of, HasWorkerText, names_round, text_in};
ghost use Rattle.worker_texts.specs.TextValue.{round_told, worker_text_of};

use crate::round::RoundTold;
use crate::worker_text::WorkerText;
use certificate_lines::{Cursor, MOST, TextFault, TextKind, Words, push_on};
use county_codes::{Group, Grouping};
use piece_states::front_open_piece;
use std::alloc::Global;

/// Reads the number of a round, its limit and its number of groups from the `words` of its first line. The limit and
/// the number of groups are from 0 to 256.
#[tactic(auto, unfolding(crate::specs::RoundReading::round_on))]
fn round_on(words: &mut Words) -> Result<(u32, u16, u16), TextKind>
    ensures { result ≡ round_on words.old }
{
    words.named(b"round")?;
    words.counted(3, 3)?;
    let number = words.number(0, u32::MAX)?;
    let limit = words.number(0, MOST)? as u16;
    let groups = words.number(0, MOST)? as u16;
    Ok((number, limit, groups))
}

/// Reads the first line of a round at `cursor`: its number, its limit in counties and its number of groups. A fault is
/// returned with the number of the line.
fn first_line(cursor: &mut Cursor) -> Result<(u32, u16, u16), TextFault>
    ensures { ReadsLine (λ r. r) (by_words round_on) cursor.old result cursor.new }
{
    let (mut words, line) = cursor.next_words()?;
    match round_on(&mut words) {
        Ok(first) => Ok(first),
        Err(kind) => Err(TextFault { kind, line }),
    }
}

/// Reads the next `count` lines, each of which has a group.
fn groups_at(alloc: Global, cursor: &mut Cursor, count: u16) -> Result<Vec<Group>, TextFault>
    ensures read { GivesUnless IsTextMemory (λ v. v.items) result
        (groups_from count cursor.old.number (lines_of cursor.old)) }
    ensures text { IfOk result (λ v. cursor.old.text ≡ text_of_items (map item.Grouped v.items) ++ cursor.new.text) }
{
    let mut groups = Vec::new(alloc);
    for done in 0..count {
        let group = cursor.group(alloc)?;
        push_on(&mut groups, group, cursor.number())?;
    }
    Ok(groups)
}

/// Reads the round with which a `text` begins. Returns it and how many bytes spell it.
fn front_round(alloc: Global, text: &[u8]) -> Result<(RoundTold, usize), TextFault>
    ensures place { IfOk result (λ r. r.1 ≤ length text.now) }
    ensures found { IfOk result (λ r. take r.1 text.now ≡ text_of_round (round_told r.0)) }
    ensures spelled { IfOk result (λ r. HasRoundText (round_told r.0)) }
    ensures read { GivesUnless IsTextMemory (λ r. round_told r.0) result (round_from (raw_lines text.now)) }
{
    let mut cursor = Cursor::new(text);
    let (number, limit, count) = first_line(&mut cursor)?;
    let groups = groups_at(alloc, &mut cursor, count)?;
    let round = RoundTold {
        number,
        limit,
        target: Grouping { groups },
    };
    Ok((round, text.len() - cursor.rest().len()))
}

/// Returns whether the first line of a `text` begins with the word `round`, or the fault of that line.
fn names_round(text: &[u8]) -> Result<bool, TextFault>
    ensures names { IfOk result (λ is. is ≡ names_round (raw_lines text.now)) }
    ensures fault { IfErr result (λ f. (IsTextMemory f → ⊥) → text_in text.now ≡ Err f) }
{
    let mut cursor = Cursor::new(text);
    let (words, _line) = cursor.next_words()?;
    Ok(words.begins(b"round"))
}

/// Reads what is told at the front of a `text`. Returns it and how many bytes spell it.
fn text_at(alloc: Global, text: &[u8]) -> Result<(WorkerText, usize), TextFault>
    ensures place { IfOk result (λ r. r.1 ≤ length text.now) }
    ensures found { IfOk result (λ r. take r.1 text.now ≡ text_of (worker_text_of r.0)) }
    ensures spelled { IfOk result (λ r. HasWorkerText (worker_text_of r.0)) }
    ensures read { GivesUnless IsTextMemory (λ r. worker_text_of r.0) result (text_in text.now) }
{
    if names_round(text)? {
        let (round, length) = front_round(alloc, text)?;
        return Ok((WorkerText::Round(round), length));
    }
    let (piece, length) = front_open_piece(alloc, text)?;
    Ok((WorkerText::Open(piece), length))
}

/// Reads the text of a round or of an open piece with which a `text` begins. Returns what it tells and how many bytes
/// spell it.
///
/// # Errors
///
/// Returns the first fault of the lines, with its line. If memory was refused, it returns `Memory` in place of any
/// answer.
pub fn front_worker_text(alloc: Global, text: &[u8]) -> Result<(WorkerText, usize), TextFault>
    ensures place { IfOk result (λ r. r.1 ≤ length text.now) }
    ensures some { IfOk result (λ r. 0 < r.1) }
    // The bytes spell what is read, whose numbers are in their ranges.
    ensures found { IfOk result (λ r. take r.1 text.now ≡ text_of (worker_text_of r.0)) }
    ensures spelled { IfOk result (λ r. HasWorkerText (worker_text_of r.0)) }
    // What is spelled at the front of the text is read, unless memory is refused.
    ensures only { (told : WorkerTextTold) (rest : List ℕ) → HasWorkerText told → text.now ≡ text_of told ++ rest
        → IsUnlessMemory (λ r. worker_text_of r.0) result told }
    // Unless memory was refused, the answer is what the lines tell, or their first fault.
    ensures read { GivesUnless IsTextMemory (λ r. worker_text_of r.0) result (text_in text.now) }
{
    text_at(alloc, text)
}
