//! Writing of replies as their lines.

ghost use Rattle.std.specs.Prelude.{◌≡◌, ◌++◌, ℕ, Bool, List, OnOk};
ghost use Rattle.share_board.specs.BoardValue.{reply_of};
ghost use Rattle.board_report.specs.ReplyLines.{reply_line, piece_line, split_line};

use crate::word_numbers::push_words_number;
use certificate_lines::push_number_line;
use share_board::Reply;
use std::alloc::AllocError;

/// Appends the line of a `piece` of a `round`.
fn push_piece(out: &mut Vec<u8>, round: u32, piece: u32) -> Result<(), AllocError>
    ensures { OnOk result (out.new.items ≡ out.old.items ++ piece_line round piece) }
{
    push_words_number(out, b"piece ", u64::from(round))?;
    push_number_line(out, b" ", piece)
}

/// Appends the line of a split into `many` pieces, from the `first` piece on.
fn push_pieces(out: &mut Vec<u8>, first: u32, many: u32) -> Result<(), AllocError>
    ensures { OnOk result (out.new.items ≡ out.old.items ++ split_line first many) }
{
    let end = u64::from(first) + u64::from(many);
    push_words_number(out, b"split into ", u64::from(first))?;
    push_words_number(out, b" to ", end.saturating_sub(1))?;
    out.extend_from_slice(b"\n")
}

/// Appends the line of a `reply`.
///
/// # Errors
///
/// Returns an error if memory was refused.
pub(crate) fn push_reply<C>(out: &mut Vec<u8>, reply: &Reply<C>) -> Result<(), AllocError>
    ensures { (order : List ℕ) (test : C → ℕ → Bool)
        → OnOk result (out.new.items ≡ out.old.items ++ reply_line (reply_of order test reply.now)) }
{
    match reply {
        Reply::Piece(round, piece, _) => push_piece(out, *round, *piece),
        Reply::NothingLeft => out.extend_from_slice(b"nothing left\n"),
        Reply::Accepted => out.extend_from_slice(b"accepted\n"),
        Reply::Split(first, many) => push_pieces(out, *first, *many),
        Reply::NewRound(round) => push_number_line(out, b"new round ", *round),
        Reply::OldRound => out.extend_from_slice(b"old round\n"),
        Reply::NoSuchPiece => out.extend_from_slice(b"no such piece\n"),
        Reply::AlreadyDone => out.extend_from_slice(b"already done\n"),
        Reply::AlreadySplit => out.extend_from_slice(b"already split\n"),
        Reply::CantSplit => out.extend_from_slice(b"cant split\n"),
        Reply::NotAPart => out.extend_from_slice(b"not a part\n"),
        Reply::NotAProof => out.extend_from_slice(b"not a proof\n"),
        Reply::NotBetter => out.extend_from_slice(b"not better\n"),
        Reply::CantWiden => out.extend_from_slice(b"cant widen\n"),
        Reply::TooManyPieces => out.extend_from_slice(b"too many pieces\n"),
        Reply::Budget => out.extend_from_slice(b"budget\n"),
        Reply::Memory => out.extend_from_slice(b"memory\n"),
    }
}
