//! What the program answers to a text that is no certificate, and where a check ran out of its budget.

ghost use Rattle.std.specs.Prelude.{◌≡◌, IfOk};
ghost use Rattle.cli_answers.specs.Answer.{budget_answer as answer_of_budget};
ghost use Rattle.cli_answers.specs.Answers.{answer_of};
ghost use Rattle.cli_answers.specs.CheckLines.{no_line, no_answer as answer_of_no};

use crate::answer::RunAnswer;
use crate::outcome::RunOutcome;
use field_lines::push_number;
use state_judge::{CheckFault, push_check_fault};
use std::alloc::{AllocError, Global};

/// Returns the line `no KIND line L` for `fault` on the line `line`.
#[tactic(auto, unfolding(crate::specs::CheckLines::no_line))]
fn no_text(alloc: Global, fault: CheckFault, line: u64) -> Result<Vec<u8>, AllocError>
    ensures { IfOk result (λ v. v.items ≡ no_line fault line) }
{
    let mut out = Vec::from_slice(alloc, b"no ")?;
    push_check_fault(&mut out, fault)?;
    out.extend_from_slice(b" line ")?;
    push_number(&mut out, line)?;
    out.extend_from_slice(b"\n")?;
    Ok(out)
}

/// Returns what a run comes to whose text is no certificate, with its first fault at `line`.
fn no_certificate(fault: &CheckFault, line: u64) -> RunOutcome {
    RunOutcome::NoCertificate(*fault, line)
}

/// Returns the answer to a text that is no certificate: `no KIND line L` with exit status 1, for `fault` on the line
/// `line`. If the kind tells of a fault of the text or of the target, that fault's own kind follows it. The line counts
/// from 1.
///
/// # Errors
///
/// Returns `AllocError` if memory was refused.
pub fn no_answer(alloc: Global, fault: CheckFault, line: u64) -> Result<RunAnswer, AllocError>
    ensures { IfOk result (λ a. answer_of a ≡ answer_of_no fault line) }
{
    let outcome = no_certificate(&fault, line);
    let text = no_text(alloc, fault, line)?;
    Ok(RunAnswer {
        text,
        status: 1,
        outcome,
        subject: None,
    })
}

/// Returns the answer of a check whose budget was too small: `budget` with exit status 3.
///
/// # Errors
///
/// Returns `AllocError` if memory was refused.
pub fn budget_answer(alloc: Global) -> Result<RunAnswer, AllocError>
    ensures { IfOk result (λ a. answer_of a ≡ answer_of_budget) }
{
    RunAnswer::new(alloc, b"budget\n", 3, RunOutcome::Budget)
}
