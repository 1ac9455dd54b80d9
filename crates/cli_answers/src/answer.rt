//! The answer of the program, a text with its exit status, and why a command is refused.

ghost use Rattle.std.specs.Prelude.{◌≡◌, IfOk, MatchResult};
ghost use Rattle.cli_answers.specs.{declared.answer.Refusal.TheVariants.Memory, Answers.{answer_of, RefusalShows}};

use crate::outcome::{RunOutcome, Subject};
use std::alloc::{AllocError, Global};

/// What the program writes at its end, its exit status, and what the run came to.
#[derive(Drop)]
pub struct RunAnswer {
    /// The bytes that are written.
    pub text: Vec<u8>,
    /// The exit status, 0 to 255.
    pub status: u8,
    /// What the run came to. No clause speaks of it.
    pub outcome: RunOutcome,
    /// What the command judged, if the outcome is explained by it.
    pub subject: Option<Subject>,
}

impl RunAnswer {
    /// Creates an answer with a copy of `text`, with `status` and with `outcome`.
    ///
    /// # Errors
    ///
    /// Returns `AllocError` if memory was refused.
    pub fn new(
        alloc: Global,
        text: &[u8],
        status: u8,
        outcome: RunOutcome,
    ) -> Result<Self, AllocError>
        ensures { IfOk result (λ a. answer_of a ≡ record { text = text.now; status = status }) }
    {
        Ok(RunAnswer {
            text: Vec::from_slice(alloc, text)?,
            status,
            outcome,
            subject: None,
        })
    }
}

/// Why a command ends before its own answer: at the first fault that it meets.
#[derive(Drop)]
pub enum Refusal {
    /// A fault was met, and this is the answer to it, in place of the command's own.
    Shown(RunAnswer),
    /// Memory was refused: the answer is `MEMORY`, with exit status 5.
    Memory,
}

impl Refusal {
    /// Creates the refusal that shows `text` with `status` and `outcome`, or `Memory` if there was no memory for the
    /// text.
    pub fn of_text(text: Result<Vec<u8>, AllocError>, status: u8, outcome: RunOutcome) -> Self
        ensures { MatchResult text (λ v. RefusalShows (record { text = v.items; status = status }) result) (λ _. result
            ≡ Memory) }
    {
        match text {
            Ok(text) => Refusal::Shown(RunAnswer {
                text,
                status,
                outcome,
                subject: None,
            }),
            Err(AllocError) => Refusal::Memory,
        }
    }
}

impl From<AllocError> for Refusal {
    ghost use Rattle.cli_answers.specs.declared.answer.Refusal.TheVariants.{Memory};

    ghost from_gives = { λ _ e. e ≡ Memory };

    fn from(_error: AllocError) -> Refusal {
        Refusal::Memory
    }
}
