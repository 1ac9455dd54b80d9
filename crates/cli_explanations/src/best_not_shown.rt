//! Why a certificate doesn't show that a lawful grouping is best.

use crate::certificate_fault::explain_certificate;
use crate::options::Options;
use cli_answers::{BestNotShown, FaultText, FileOption};
use county_problem::{Counts, Problem};
use std::alloc::AllocError;
use std::fmt::Write;

const NO_PROOF: &str =
    "countygroups: the grouping is lawful; whether it is best is left open, since the certificate is none of these files\n";

const SMALL_BUDGET: &str =
    "countygroups: the grouping is lawful; the steps of --budget ran out before the certificate was checked: give a greater number\n";

/// Returns the first size, in counties, of which `own` and `best` have different numbers of groups. Sizes are compared
/// up to that of the longest group of `best`. Returns `None` if there is no difference up to there.
fn first_difference(own: &Counts, best: &Counts) -> Option<u16> {
    for size in 1..=best.longest() {
        if own.of(size) != best.of(size) {
            return Some(size);
        }
    }
    None
}

/// Explains that the certificate's grouping has greater counts (`best`) than the lawful grouping (`own`). Names the
/// first size, in counties, at which they differ.
fn explain_lesser(
    out: &mut String,
    options: Options<'_>,
    own: &Counts,
    best: &Counts,
) -> Result<(), AllocError> {
    let file = options.file(FileOption::Certificate);
    writeln!(
        out,
        "countygroups: the grouping is lawful, but it isn't best: the grouping of {file} has greater counts"
    )?;
    match first_difference(own, best) {
        Some(size) => {
            let (own, best) = (own.of(size), best.of(size));
            writeln!(
                out,
                "countygroups: groups of size {size}: {own} in the grouping, {best} in that of the certificate"
            )
        }
        None => Ok(()),
    }
}

/// Explains by `best_not_shown` why the certificate `text` doesn't show that a lawful grouping of `problem` is best.
///
/// # Errors
///
/// Returns `AllocError` if memory was refused.
pub(crate) fn explain_best_not_shown(
    out: &mut String,
    options: Options<'_>,
    best_not_shown: &BestNotShown,
    (text, problem): (&FaultText, &Problem),
) -> Result<(), AllocError> {
    match best_not_shown {
        BestNotShown::NoCertificate(fault, line) => {
            out.push_str(NO_PROOF)?;
            explain_certificate(out, options, (fault, *line), (text, problem))
        }
        BestNotShown::Impossible => out.push_str(NO_PROOF),
        BestNotShown::Budget => out.push_str(SMALL_BUDGET),
        BestNotShown::Lesser(own, best) => explain_lesser(out, options, own, best),
    }
}
