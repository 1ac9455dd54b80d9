//! A worker: it reads rounds and open pieces one after the other, and answers each piece at once.
//!
//! ```
//! let mut worker = Worker::new(alloc);
//! let text = answer_piece(alloc, &graph, &mut worker, &piece, 100_000)?;   // result 1 2 .., or no such piece
//! answer_all(alloc, &graph, 100_000, &mut worker, &mut source, &mut out, &mut written)?;
//! ```
//!
//! The definitions stand in `specs/`. `Rounds` says which round a worker holds, and `Answers` what is said of texts.
//! `Taking` says what one call does, and `Serving` what all calls do.
#![tactic(auto)]

mod answering;
mod reply;
mod rounds;
mod runs;
mod serving;
mod worker;

pub use answering::answer_piece;
pub use reply::Reply;
pub use runs::prove_pieces;
pub use serving::{answer_all, answer_next};
pub use worker::Worker;
