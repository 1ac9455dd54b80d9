//! The lines of the program that stand in place of an answer of a board, for a fault of its events or of the board
//! itself.

ghost use Rattle.std.specs.Prelude.{◌≡◌, ◌≢◌, IfOk};
ghost use Rattle.certificate_lines.specs.declared.fault.TextKind.TheVariants as text;
ghost use Rattle.share_board.specs.declared.fault.BoardFault.TheVariants as board;
ghost use Rattle.cli_answers.specs.Answers.{RefusalShows, IsShown};
ghost use Rattle.cli_answers.specs.Refusals.{board_answer, board_word, events_answer, pieces_answer, refused_board, text_line_answer};

use crate::answer::Refusal;
use crate::file_fault::FileFault;
use crate::outcome::RunOutcome;
use crate::refusal::{InputFile, RefusedFile, refuse_input};
use certificate_lines::{TextFault, TextKind};
use share_board::BoardFault;
use std::alloc::{AllocError, Global};

/// Returns the refusal of a text of a `file`: `refused FILE KIND line L` with exit status 4. The line counts from 1.
/// Returns `Memory` if that is the fault, or if memory for the line was refused.
fn refuse_text(alloc: Global, file: InputFile, fault: TextFault, outcome: RunOutcome) -> Refusal
    ensures answer { RefusalShows (text_line_answer file fault.kind fault.line) result }
    ensures shown { IsShown result → fault.kind ≢ text.Memory }
{
    if fault.kind == TextKind::Memory {
        return Refusal::Memory;
    }
    refuse_input(alloc, file, fault.kind.word(), fault.line, outcome)
}

/// Returns the refusal of a text of events: `refused events KIND line L` with exit status 4. The line counts from 1.
/// Returns `Memory` if that is the fault, or if memory for the line was refused. The outcome tells the file as
/// `refused`, with its `fault`.
pub fn refuse_events(alloc: Global, fault: TextFault, refused: RefusedFile) -> Refusal
    ensures answer { RefusalShows (events_answer fault) result }
    ensures shown { IsShown result → fault.kind ≢ text.Memory }
{
    let outcome = refused.outcome(FileFault::Events(fault));
    refuse_text(alloc, InputFile::Events, fault, outcome)
}

/// Returns the refusal of a text of rounds and open pieces: `refused pieces KIND line L` with exit status 4. The line
/// counts from 1. Returns `Memory` if that is the fault, or if memory for the line was refused. The outcome tells the
/// file as `refused`, with its `fault`.
pub fn refuse_pieces(alloc: Global, fault: TextFault, refused: RefusedFile) -> Refusal
    ensures answer { RefusalShows (pieces_answer fault) result }
    ensures shown { IsShown result → fault.kind ≢ text.Memory }
{
    let outcome = refused.outcome(FileFault::Pieces(fault));
    refuse_text(alloc, InputFile::Pieces, fault, outcome)
}

fn word_of_board_fault(fault: BoardFault) -> &'static [u8]
    ensures { result.now ≡ board_word fault }
{
    match fault {
        BoardFault::DepthOutOfRange => b"DepthOutOfRange",
        BoardFault::WrongOrder => b"WrongOrder",
        BoardFault::Target(_) => b"Target",
        BoardFault::LimitTooSmall => b"LimitTooSmall",
        BoardFault::LimitTooLarge => b"LimitTooLarge",
        BoardFault::TooManyPieces => b"TooManyPieces",
        BoardFault::Budget => b"Budget",
        BoardFault::Memory => b"Memory",
    }
}

/// Returns the line `refused board KIND`, where KIND is `kind`.
#[tactic(auto, unfolding(crate::specs::Refusals::refused_board))]
fn board_text(alloc: Global, kind: &[u8]) -> Result<Vec<u8>, AllocError>
    ensures { IfOk result (λ v. v.items ≡ refused_board kind.now) }
{
    let mut out = Vec::from_slice(alloc, b"refused board ")?;
    out.extend_from_slice(kind)?;
    out.extend_from_slice(b"\n")?;
    Ok(out)
}

/// Returns what a run comes to that has no board for this `fault`.
fn no_board(fault: &BoardFault) -> RunOutcome {
    RunOutcome::Board(*fault)
}

/// Returns the refusal of a budget that is too small to open a board: `budget` with exit status 3. Returns `Memory` if
/// memory for the line was refused.
fn refuse_budget(alloc: Global) -> Refusal
    ensures { RefusalShows (board_answer board.Budget) result }
{
    let text = Vec::from_slice(alloc, b"budget\n");
    Refusal::of_text(text, 3, RunOutcome::Board(BoardFault::Budget))
}

/// Returns the refusal of a board for `fault`: `refused board KIND` with exit status 4. If the budget is too small to
/// open the board, it is `budget` with exit status 3. A target that isn't lawful is `Target`, whatever its fault.
/// Returns `Memory` if that is the fault, or if memory for the line was refused.
pub fn refuse_board(alloc: Global, fault: BoardFault) -> Refusal
    ensures answer { RefusalShows (board_answer fault) result }
    ensures shown { IsShown result → fault ≢ board.Memory }
{
    match fault {
        BoardFault::Memory => Refusal::Memory,
        BoardFault::Budget => refuse_budget(alloc),
        _ => {
            let outcome = no_board(&fault);
            let text = board_text(alloc, word_of_board_fault(fault));
            Refusal::of_text(text, 4, outcome)
        }
    }
}
