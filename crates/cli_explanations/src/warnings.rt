//! Warnings of what is odd about the files of a run, though no rule refuses it.

use crate::options::Options;
use cli::{EndedRun, Warning};
use cli_answers::{FileOption, RunOutcome};
use county_problem::ProblemFault;
use std::alloc::AllocError;
use std::fmt;
use std::fmt::Write;

/// A number of seats in words.
#[derive(Clone, Copy)]
struct Seats(u16);

/// Shows `1 seat`, or `2 seats`.
impl fmt::Display for Seats {
    fn fmt<W: fmt::Write>(&self, f: &mut fmt::Formatter<W>) -> fmt::Result {
        match self.0 {
            1 => f.write_str("1 seat"),
            seats => write!(f, "{seats} seats"),
        }
    }
}

/// Which numbers of people suit a number of seats.
#[derive(Clone, Copy)]
struct Bounds {
    /// The seats.
    seats: u16,
    /// The least number of people that suit.
    least: u64,
    /// The greatest number of people that suit. It is below `least` if no number suits.
    greatest: u64,
}

/// Shows `2 seats suit 190 to 210`, or `2 seats suit no number`.
impl fmt::Display for Bounds {
    fn fmt<W: fmt::Write>(&self, f: &mut fmt::Formatter<W>) -> fmt::Result {
        let verb = if self.seats == 1 { "suits" } else { "suit" };
        let (seats, least, greatest) = (Seats(self.seats), self.least, self.greatest);
        if least <= greatest {
            write!(f, "{seats} {verb} {least} to {greatest}")
        } else {
            write!(f, "{seats} {verb} no number")
        }
    }
}

/// What a warning says of its file.
#[derive(Clone, Copy)]
struct Oddity(Warning);

/// Shows what is odd, as `- 001 003 cuts a border that isn't there`.
impl fmt::Display for Oddity {
    fn fmt<W: fmt::Write>(&self, f: &mut fmt::Formatter<W>) -> fmt::Result {
        match self.0 {
            Warning::WithdrawnSeats {
                seats,
                county,
                people,
                least,
                greatest,
            } => {
                let set = Seats(seats);
                let bounds = Bounds {
                    seats,
                    least,
                    greatest,
                };
                write!(
                    f,
                    "the set of {set} with county {county} has {people} people, and {bounds}: it stays withdrawn"
                )
            }
            Warning::WithdrawnApart { seats, county } => {
                let set = Seats(seats);
                write!(
                    f,
                    "the set of {set} with county {county} isn't connected by the border list: it stays withdrawn"
                )
            }
            Warning::OneWay(a, b) => write!(
                f,
                "{a} and {b} stand as neighbours in one direction only, and other pairs in both: the file may be cut short"
            ),
            Warning::NoBorder(a, b) => write!(f, "- {a} {b} cuts a border that isn't there"),
            Warning::UnknownLink(code) => write!(f, "{code} is no county of these files"),
        }
    }
}

/// Returns the option of the file that a `warning` speaks of.
fn option_of(warning: Warning) -> FileOption {
    match warning {
        Warning::WithdrawnSeats { .. } | Warning::WithdrawnApart { .. } => FileOption::Withdrawn,
        Warning::OneWay(_, _) => FileOption::Adjacency,
        Warning::NoBorder(_, _) | Warning::UnknownLink(_) => FileOption::Links,
    }
}

/// Returns whether the run was refused because a link adds a county that isn't listed, which is what a `warning` of it
/// says.
fn is_refusal(outcome: &RunOutcome, warning: Warning) -> bool {
    matches!(warning, Warning::UnknownLink(_))
        && matches!(
            outcome,
            RunOutcome::Problem(ProblemFault::UnknownPair(_, _))
        )
}

/// Appends a line for each warning that `run` noted, but for those that its refusal says already.
///
/// # Errors
///
/// Returns `AllocError` if memory was refused.
pub(crate) fn push_warnings(
    out: &mut String,
    options: Options<'_>,
    run: &EndedRun,
) -> Result<(), AllocError> {
    for warning in &run.notes.warnings {
        if !is_refusal(&run.outcome, *warning) {
            let (file, oddity) = (options.file(option_of(*warning)), Oddity(*warning));
            writeln!(out, "countygroups: warning: {file}: {oddity}")?;
        }
    }
    Ok(())
}
