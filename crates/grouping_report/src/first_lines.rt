//! The lines that a report and a size table begin with.

ghost use Rattle.std.specs.Prelude.{◌≡◌, ◌++◌, OnOk};
ghost use Rattle.grouping_report.specs.FirstLines.{first_lines as first_lines_of, named_line, tolerance_line};

use crate::faults::push_words_number;
use county_codes::Tolerance;
use county_problem::Problem;
use std::alloc::AllocError;

/// Appends the line of `tolerance`, which is `window`, the numerator and the denominator.
fn push_named(out: &mut Vec<u8>, tolerance: Tolerance) -> Result<(), AllocError>
    ensures { OnOk result (out.new.items ≡ out.old.items ++ named_line tolerance) }
{
    push_words_number(out, b"window ", u64::from(tolerance.numerator))?;
    push_words_number(out, b" ", u64::from(tolerance.denominator))?;
    out.extend_from_slice(b"\n")
}

/// Appends the line of `tolerance`, if it is named.
#[tactic(auto, unfolding(crate::specs::FirstLines::tolerance_line))]
fn push_tolerance(out: &mut Vec<u8>, tolerance: Option<Tolerance>) -> Result<(), AllocError>
    ensures { OnOk result (out.new.items ≡ out.old.items ++ tolerance_line tolerance) }
{
    match tolerance {
        None => Ok(()),
        Some(tolerance) => push_named(out, tolerance),
    }
}

/// Appends the lines of the people, of the chamber, and of the tolerance of `problem` if it isn't one twentieth.
///
/// # Errors
///
/// Returns `AllocError` if memory was refused.
pub(crate) fn push_first_lines(out: &mut Vec<u8>, problem: &Problem) -> Result<(), AllocError>
    ensures { OnOk result (out.new.items ≡ out.old.items ++ first_lines_of problem.now) }
{
    push_words_number(out, b"people ", problem.total_people())?;
    push_words_number(out, b"\nchamber ", u64::from(problem.chamber()))?;
    out.extend_from_slice(b"\n")?;
    push_tolerance(out, problem.named_tolerance())
}
