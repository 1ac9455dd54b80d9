//! How a board stands, and the certificate that its pieces join to.

ghost use Rattle.std.specs.{Prelude.{◌≡◌, ℕ, ◌++◌, List, length, IfOk, OnOk}, List.flat_map};
ghost use Rattle.certificate_text.specs.Spelling.{IsSpelling};
ghost use Rattle.certificate_data.specs.TreeValue.{certificate_of};
ghost use Rattle.county_problem.specs.ProblemValue.{problem_of};
ghost use Rattle.board_laws.specs.Content.{Content};
ghost use Rattle.share_board.specs.BoardValue.{IsOf};
ghost use Rattle.board_report.specs.BoardOutcome.{open_line, open_lines, left_lines, IsEnded};

use crate::board_outcome::Shared;
use certificate_data::{Certificate, Format};
use certificate_lines::{WriteFault, push_number_line};
use certificate_text::write;
use grouping_report::push_words_number;
use place_sets::CountySet;
use share_board::Board;
use std::alloc::{AllocError, Global};

/// Appends the line of the waiting piece `piece` in the round `number`: `open NUMBER PIECE`.
fn push_open(out: &mut Vec<u8>, number: u32, piece: u32) -> Result<(), AllocError>
    ensures { OnOk result (out.new.items ≡ out.old.items ++ open_line number piece) }
{
    push_words_number(out, b"open ", u64::from(number))?;
    push_number_line(out, b" ", piece)
}

/// Appends the line of each of the waiting pieces `found` in the round `number`.
fn push_each_open(out: &mut Vec<u8>, number: u32, found: &[u32]) -> Result<(), AllocError>
    ensures { OnOk result (out.new.items ≡ out.old.items ++ flat_map (open_line number) found.now) }
{
    for piece in found {
        push_open(out, number, *piece)?;
    }
    Ok(())
}

/// Appends the lines of the waiting pieces `found`, if the `format` of the round `number` is the wide one. Otherwise
/// appends nothing.
fn push_which(
    out: &mut Vec<u8>,
    format: Format,
    number: u32,
    found: &[u32],
) -> Result<(), AllocError>
    ensures { OnOk result (out.new.items ≡ out.old.items ++ open_lines format number found.now) }
{
    match format {
        Format::Plain => Ok(()),
        Format::Wide => push_each_open(out, number, found),
    }
}

/// Appends the line `left N` with the number of the waiting pieces `found`. In a wide round, a line for each of them
/// follows. `number` is the round's.
fn push_left(
    out: &mut Vec<u8>,
    format: Format,
    number: u32,
    found: &[u32],
) -> Result<(), AllocError>
    ensures { OnOk result (out.new.items ≡ out.old.items ++ left_lines format number found.now) }
{
    push_words_number(out, b"left ", found.len() as u64)?;
    out.extend_from_slice(b"\n")?;
    push_which(out, format, number, found)
}

/// Returns the text of a `certificate` that has one. Returns `AllocError` if memory was refused.
fn certificate_lines(alloc: Global, certificate: &Certificate) -> Result<Vec<u8>, AllocError>
    requires { (text : List ℕ) × IsSpelling text (certificate_of certificate.now) }
    ensures { IfOk result (λ v. IsSpelling v.items (certificate_of certificate.now)) }
{
    match write(alloc, certificate) {
        Ok(text) => Ok(text),
        Err(WriteFault::Memory) => Err(AllocError),
        Err(WriteFault::NoSpelling) => unreachable!(),
    }
}

/// Returns how `board` stands, with the lines for it appended to `text`: `joined`, or which pieces wait. If no piece
/// waits, it returns the text of the certificate to which the pieces join, too.
///
/// # Errors
///
/// Returns an error if memory was refused.
pub(crate) fn ended<C: CountySet>(
    alloc: Global,
    board: &Board<C>,
    text: Vec<u8>,
) -> Result<Shared, AllocError>
    requires { (b : Content) × IsOf C.test board.now b }
    ensures { (b : Content) → IsOf C.test board.now b
        → IfOk result (IsEnded (problem_of board.now.problem) b text.items) }
{
    let mut text = text;
    let found = board.open_pieces(alloc)?;
    let left = found.len();
    let Some(certificate) = board.join(alloc)? else {
        let format = board.proof_round().format;
        push_left(&mut text, format, board.round(), &found)?;
        return Ok(Shared {
            text,
            left,
            certificate: None,
        });
    };
    text.extend_from_slice(b"joined\n")?;
    let lines = certificate_lines(alloc, &certificate)?;
    Ok(Shared {
        text,
        left,
        certificate: Some(lines),
    })
}
