//! Open pieces, read from their lines.

ghost use Rattle.std.specs.Prelude.{◌≡◌, ◌≤◌, ◌++◌, ℕ, List, true, length, map, take, IfOk};
ghost use Rattle.field_lines.specs.Values.{GivesUnless};
ghost use Rattle.certificate_lines.specs.{Items.by_words, Reading.IsUnlessMemory};
ghost use Rattle.certificate_lines.specs.Rest.{IsTextMemory, ReadsLine, lines_of};
ghost use Rattle.piece_states.specs.{TextLines.{open_on, told_on}, Text.{text_of_told, text_of_piece}};
ghost use Rattle.piece_states.specs.PieceValue.{PieceTold, asked_of, told_by, piece_of};
ghost use Rattle.piece_states.specs.Reading.{told_from, piece_in, HasText};

use crate::line::ToldLine;
use crate::line_words::{open_on, told_on};
use crate::piece::{Asked, OpenPiece};
use certificate_lines::{Cursor, TextFault, push_on};
use county_codes::Codes;
use std::alloc::Global;

/// Reads the first line at `cursor`: the numbers of the round and of the piece.
fn first_line(cursor: &mut Cursor) -> Result<(u32, u32), TextFault>
    ensures { ReadsLine (λ r. r) (by_words open_on) cursor.old result cursor.new }
{
    let (mut words, line) = cursor.next_words()?;
    match open_on(&mut words) {
        Ok(first) => Ok(first),
        Err(kind) => Err(TextFault { kind, line }),
    }
}

/// Reads a line behind the first. A closed group may stand there only if `closing` says so.
fn told_line(alloc: Global, closing: bool, cursor: &mut Cursor) -> Result<ToldLine, TextFault>
    ensures { ReadsLine (λ r. r) (by_words (told_on closing)) cursor.old result cursor.new }
{
    let (words, line) = cursor.next_words()?;
    match told_on(alloc, closing, words) {
        Ok(told) => Ok(told),
        Err(kind) => Err(TextFault { kind, line }),
    }
}

/// Reads the lines behind the first, from `cursor` up to the end: the closed groups, and then what counties ask for.
fn told_lines(alloc: Global, cursor: &mut Cursor) -> Result<(Vec<Codes>, Vec<Asked>), TextFault>
    ensures read { GivesUnless IsTextMemory (λ r. record { closed = r.0.items; asked = map asked_of r.1.items }) result
        (told_from true cursor.old.number (lines_of cursor.old)) }
    ensures text { IfOk result (λ r. cursor.old.text
        ≡ text_of_told (record { closed = r.0.items; asked = map asked_of r.1.items }) ++ cursor.new.text) }
{
    let mut closed = Vec::new(alloc);
    let mut asked = Vec::new(alloc);
    let mut closing = true;
    'lines: loop {
        match told_line(alloc, closing, cursor)? {
            ToldLine::Closed(group) => {
                push_on(&mut closed, group, cursor.number())?;
            }
            ToldLine::Least(county) => {
                closing = false;
                push_on(&mut asked, county, cursor.number())?;
            }
            ToldLine::End => return Ok((closed, asked)),
        }
    }
}

/// Reads the open piece with which a `text` begins. Returns it and how many bytes spell it.
fn piece_at(alloc: Global, text: &[u8]) -> Result<(OpenPiece, usize), TextFault>
    ensures place { IfOk result (λ r. r.1 ≤ length text.now) }
    ensures found { IfOk result (λ r. take r.1 text.now
        ≡ text_of_piece r.0.round r.0.piece (told_by r.0)) }
    ensures spelled { IfOk result (λ r. HasText (piece_of r.0)) }
    ensures read { GivesUnless IsTextMemory (λ r. piece_of r.0) result (piece_in text.now) }
{
    let mut cursor = Cursor::new(text);
    let (round, piece) = first_line(&mut cursor)?;
    let (closed, asked) = told_lines(alloc, &mut cursor)?;
    let open = OpenPiece {
        round,
        piece,
        closed,
        asked,
    };
    Ok((open, text.len() - cursor.rest().len()))
}

/// Reads the open piece with which a `text` begins, up to its line `end`. Returns it and how many bytes spell it.
///
/// # Errors
///
/// Returns the first fault of the lines of the piece, with its line. If memory was refused, it returns `Memory` in
/// place of any answer.
pub fn front_open_piece(alloc: Global, text: &[u8]) -> Result<(OpenPiece, usize), TextFault>
    ensures place { IfOk result (λ r. r.1 ≤ length text.now) }
    // The bytes spell the piece that is read, whose numbers are in their ranges.
    ensures found { IfOk result (λ r. take r.1 text.now
        ≡ text_of_piece r.0.round r.0.piece (told_by r.0)) }
    ensures spelled { IfOk result (λ r. HasText (piece_of r.0)) }
    // A piece with whose text the text begins is read, unless memory is refused.
    ensures only { (piece : PieceTold) (rest : List ℕ) → HasText piece
        → text.now ≡ text_of_piece piece.round piece.piece piece.told ++ rest
        → IsUnlessMemory (λ r. piece_of r.0) result piece }
    // Unless memory was refused, the answer is what the lines tell, or their first fault.
    ensures read { GivesUnless IsTextMemory (λ r. piece_of r.0) result (piece_in text.now) }
{
    piece_at(alloc, text)
}
