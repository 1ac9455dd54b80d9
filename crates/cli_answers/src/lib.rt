//! What the program answers: a text, its exit status and what the run came to. If a command ends before its own text,
//! the answer is one line in place of any other.
//!
//! The definitions stand in `specs/`. `Answer` defines an answer, which is a text with a status. `Answers` relates the
//! answers of the code to those of the definitions. `Refusals` has the lines of faults, with those of events and of a
//! board. `CheckLines` has the line of a text that is no certificate.
#![tactic(auto)]

mod answer;
mod board_refusal;
mod check_lines;
mod fault_text;
mod file_fault;
mod outcome;
mod refusal;

pub use answer::{Refusal, RunAnswer};
pub use board_refusal::{refuse_board, refuse_events, refuse_pieces};
pub use check_lines::{budget_answer, no_answer};
pub use fault_text::FaultText;
pub use file_fault::{FileFault, FileOption};
pub use outcome::{BestNotShown, RunOutcome, Subject};
pub use refusal::{
    InputFile, MEMORY, RefusedFile, refuse_assignments, refuse_codes, refuse_file, refuse_load,
    refuse_named_counties, refuse_people, refuse_problem, refuse_store, refuse_verdict,
};
