//! The solver: it finds the best county grouping of a problem, with a certificate that it is best. If no grouping is
//! lawful, it gives a certificate of that.
//!
//! ```
//! match solve(alloc, &problem, 10_000_000)? {
//!     Answer::Best(grouping, certificate) => ..
//!     Answer::Impossible(certificate) => ..
//!     Answer::Open { found, steps } => ..
//! }
//! ```
//!
//! It is a search by branch and bound over states. A state ends with a leaf, or the search branches at a county. A
//! branch goes on with each group that fits and has the county, and with the county raised past the size. A state where
//! nothing fits any more and no leaf is valid is a greater grouping, which the next round takes as its target. Every
//! leaf is tested where it is written. Weights, the county to branch at and the limits of the rounds are heuristics,
//! and no promise rests on them. `specs/Answers` says what is promised, and `specs/Searching` says what the search
//! keeps.
#![tactic(auto)]

mod answer;
mod judging;
mod larger_groups;
mod outcome;
mod parts;
mod piece_answer;
mod pieces;
mod plain_judging;
mod plain_search;
mod search;
mod solving;
mod watcher;

pub use answer::Answer;
pub use piece_answer::PieceAnswer;
pub use pieces::{prove_piece, prove_piece_over};
pub use solving::{solve, solve_over, solve_watched};
pub use watcher::{NoWatcher, Watcher};
