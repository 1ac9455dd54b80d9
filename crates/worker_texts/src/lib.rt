//! What is told to a worker: the text of a round, and the texts of open pieces.
//!
//! ```
//! let (text, length) = front_worker_text(alloc, bytes)?;          // round 1 4 2, group .., group ..; or open 1 2 ..
//! let next = reader.next_text(alloc, &mut source)?;               // each text as soon as its last line has come
//! ```
//!
//! The definitions stand in `specs/`. `RoundText` has the text of a round, and `RoundReading` says what is read of it.
//! `WorkerText` has the texts of both forms and `TextValue` what the Rust types tell. `TextForms` says what is read of
//! a source of texts of any form, and `Coming` what is read of a worker's texts. `Laws` says which texts stand at
//! the front of a text.
#![tactic(auto)]

mod coming_texts;
mod laws;
mod reading;
mod round;
mod text_reader;
mod worker_text;

pub use coming_texts::{ComingTexts, TextForm, lines_in, moved};
pub use laws::worker_texts_are_read;
pub use reading::front_worker_text;
pub use round::RoundTold;
pub use text_reader::WorkerTextReader;
pub use worker_text::WorkerText;
