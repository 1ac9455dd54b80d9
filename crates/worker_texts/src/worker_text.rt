//! Texts that are told to a worker.

use crate::round::RoundTold;
use piece_states::OpenPiece;

/// What is told to a worker.
#[derive(Debug, Drop)]
pub enum WorkerText {
    /// What is told of a round.
    Round(RoundTold),
    /// An open piece, with what is told of its state.
    Open(OpenPiece),
}
