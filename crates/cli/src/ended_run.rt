//! A run that has ended, as a value beside its exit status. It is for whoever explains the run to a person; no clause
//! speaks of it.

use crate::notes::Notes;
use cli_answers::{RunAnswer, RunOutcome, Subject};
use std::alloc::AllocError;

/// A run that has ended.
#[derive(Drop)]
pub struct EndedRun {
    /// What the run came to.
    pub outcome: RunOutcome,
    /// What the command judged, if the outcome is explained by it.
    pub subject: Option<Subject>,
    /// The answer to the words, as it was handed to the output. `None` if memory was refused before there was one, or
    /// if the run was that of a case.
    pub answer: Option<Vec<u8>>,
    /// What the run noted on its way.
    pub notes: Notes,
}

impl EndedRun {
    /// Creates the run of words that `said` an answer, or was refused memory before that.
    pub(crate) fn of_words(said: Result<RunAnswer, AllocError>, notes: Notes) -> Self {
        match said {
            Ok(answer) => EndedRun {
                outcome: answer.outcome,
                subject: answer.subject,
                answer: Some(answer.text),
                notes,
            },
            Err(AllocError) => EndedRun::unanswered(RunOutcome::Memory, notes),
        }
    }

    /// Creates the run of a case whose words ended with `answer`.
    pub(crate) fn of_case(answer: RunAnswer, notes: Notes) -> Self {
        EndedRun {
            outcome: answer.outcome,
            subject: answer.subject,
            answer: None,
            notes,
        }
    }

    /// Creates a run that came to `outcome` before it had an answer.
    pub(crate) fn unanswered(outcome: RunOutcome, notes: Notes) -> Self {
        EndedRun {
            outcome,
            subject: None,
            answer: None,
            notes,
        }
    }
}
