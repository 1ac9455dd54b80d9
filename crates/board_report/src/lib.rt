//! Events of a board as text, what a board of pieces comes to by a list of them, and what a solver answers for one of
//! its pieces. With them, the lines of replies, and the events by which a board goes on from where a search stopped.
//!
//! An event is spelled by its first line, and by the lines of its tree or of its groups behind it. A text of events has
//! them one after the other, without a head and without an end.
//!
//! ```
//! let events = read_events(alloc, text, Format::Wide, 100)?;
//! let text = write_event(alloc, &event, Format::Wide, 100)?;
//! let shared = share(alloc, &problem, &grouping, shape, events, 10_000_000)?;   // accepted, left 2, ..
//! let answer = prove_waiting(alloc, &problem, &grouping, shape, events, 3, 100_000)?;
//! ```
//!
//! The definitions stand in `specs/`. Of texts: `EventSpelling`, `EventLines`, `EventFaults`, `ReplyLines` and
//! `EventLaws`. Of boards: `Rounds` (the first round of such a board), `Taking` (events in turn), `BoardOutcome`,
//! `PieceAnswers`, `PieceText` and `Resuming` (what is said). A board's order is that of ascending codes.
#![tactic(auto)]

mod answer_text;
mod board_outcome;
mod ending;
mod event_laws;
mod event_line;
mod event_reading;
mod event_writing;
mod first_lines;
mod opening;
mod proving;
mod reply_lines;
mod resuming;
mod shape;
mod sharing;
mod taking;
mod word_numbers;

pub use answer_text::piece_text;
pub use board_outcome::Shared;
pub use event_laws::events_have_texts;
pub use event_line::EventLine;
pub use event_reading::read_events;
pub use event_writing::write_event;
pub use opening::ordered_by_code;
pub use proving::prove_waiting;
pub use resuming::resuming_text;
pub use shape::BoardShape;
pub use sharing::share;
