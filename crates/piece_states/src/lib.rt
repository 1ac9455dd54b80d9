//! What a worker is told of an open piece, so that it needs no other file, and the way back to the piece's state.
//!
//! ```
//! let (open, length) = front_open_piece(alloc, text)?;            // open 1 2, closed .., least .., end
//! let state = told_state(&graph, &round, &open)?;                 // Some: the state that is told
//! ```
//!
//! The definitions stand in `specs/`. `Told` says what is told of a state and which state is told, and `Laws` that the
//! two go together. `RoundStates` says which states that are told are states of a round. `Text` has the text, and
//! `TextLines` and `Reading` say what is read of it.
#![tactic(auto)]

mod closing;
mod laws;
mod line;
mod line_words;
mod piece;
mod raising;
mod reading;
mod told;

pub use laws::{branches_keep_told, states_are_told, states_have_texts};
pub use line::ToldLine;
pub use line_words::skipped;
pub use piece::{Asked, OpenPiece};
pub use reading::front_open_piece;
pub use told::told_state;
