//! What a person is told on standard error, before a run and once it has ended.

use crate::best_not_shown::explain_best_not_shown;
use crate::board::{explain_board, explain_left, explain_no_piece, explain_open_piece};
use crate::borders::warn_of_borders;
use crate::certificate_fault::explain_certificate;
use crate::device::{Unmoved, explain_unloaded, explain_unstored, push_report};
use crate::findings::explain_findings;
use crate::grouping_fault::explain_fault;
use crate::named_groups::push_named;
use crate::options::Options;
use crate::outputs::{Output, warn_of_older_files, warn_of_outputs};
use crate::refusals::{explain_problem, explain_refused};
use crate::state_line::{warn_of_state, warn_of_two_states};
use crate::usage::explain_usage;
use crate::warnings::push_warnings;
use cli::EndedRun;
use cli_answers::{FileOption, RunOutcome, Subject};
use cli_file_stores::FileStoreFault;
use cli_words::WordsEnd;
use std::alloc::AllocError;
use std::fmt::Write;
use std::io::ErrorKind;
use std::rt::Files;

const CASE_TOO_LARGE: &str =
    "countygroups: the case has more than 16777216 bytes: give a command's words and its files by path\n";

const CASE_UNREAD: &str = "countygroups: the case could not be read from standard input\n";

const CASE_NOT_TEXT: &str =
    "countygroups: line 1 of the case or the name of a file in it isn't UTF-8\n";

const NO_MEMORY: &str = "countygroups: memory was refused: more of it has to be free\n";

const SMALL_BUDGET: &str =
    "countygroups: the steps of --budget ran out before the certificate was checked: give a greater number\n";

const UNWRITTEN: &str =
    "countygroups: the answer could not be written whole to standard output: see that there is room, and that its reader takes all\n";

const IMPOSSIBLE: &str =
    "countygroups: no grouping of these files is lawful; `countygroups solve --certificate FILE` stores a proof of it\n";

const OPEN: &str =
    "countygroups: the steps of --steps ran out, so that a grouping of the report need not be the best: give a greater number\n";

/// Explains that the certificate doesn't show which other groupings are best. At `line` it leaves that open.
fn explain_open_list(out: &mut String, line: u64) -> Result<(), AllocError> {
    writeln!(
        out,
        "countygroups: the certificate proves that its grouping is best, but at line {line} it leaves open which others are: a certificate that `countygroups solve` stores lists them all"
    )
}

/// Explains that no best grouping has the number that was to be stored. There are `count` best groupings.
fn explain_number(out: &mut String, count: usize) -> Result<(), AllocError> {
    writeln!(
        out,
        "countygroups: no grouping has the number of --number: the best groupings are numbered from 1 to {count}"
    )
}

/// Explains that none of the `count` best groupings has the sets of the grouping that was asked for.
fn explain_unlisted(
    out: &mut String,
    options: Options<'_>,
    count: usize,
) -> Result<(), AllocError> {
    let file = options.file(FileOption::Which);
    writeln!(
        out,
        "countygroups: the sets of {file} are not those of a best grouping, of which there are {count}"
    )
}

/// A run that has ended.
#[derive(Clone, Copy)]
pub struct Ended<'a> {
    /// The words after the program's name. There are none at a case.
    pub words: &'a [&'a str],
    /// What these words ask for.
    pub options: Options<'a>,
    /// What it came to, and what it noted on its way.
    pub run: &'a EndedRun,
    /// The kind of error that the system gave at the last file that failed.
    pub reason: Option<ErrorKind>,
    /// Whether it was told before the run that the adjacency file has no border.
    pub is_without_borders: bool,
    /// Whether the answer could not be written.
    pub is_unwritten: bool,
    /// Whether standard output is a terminal, so that the answer stands beside what a person is told.
    pub is_at_terminal: bool,
}

/// Returns the file of `option`, named `path`, that could not be read or stored, with what the file store says of it.
fn unmoved<'a>(
    ended: Ended<'_>,
    option: FileOption,
    fault: FileStoreFault,
    path: &'a Option<String>,
) -> Unmoved<'a> {
    let path = match path {
        Some(path) => path.as_str(),
        None => "",
    };
    Unmoved {
        option,
        fault,
        path,
        reason: ended.reason,
    }
}

/// Explains the outcome of a command that judged `subject`. Says nothing of an outcome that isn't explained by it.
fn explain_judged(
    out: &mut String,
    options: Options<'_>,
    outcome: &RunOutcome,
    subject: &Subject,
) -> Result<(), AllocError> {
    let problem = &subject.problem;
    match (outcome, &subject.grouping, &subject.certificate) {
        (RunOutcome::Unlawful(fault), Some(grouping), _) => {
            explain_fault(out, options, fault, (problem, grouping))
        }
        (RunOutcome::Found(findings), Some(grouping), _) => {
            explain_findings(out, options, findings, (problem, grouping))
        }
        (RunOutcome::NotShownBest(best_not_shown), _, Some(text)) => {
            explain_best_not_shown(out, options, best_not_shown, (text, problem))
        }
        (RunOutcome::NoCertificate(fault, line), _, Some(text)) => {
            explain_certificate(out, options, (fault, *line), (text, problem))
        }
        _ => Ok(()),
    }
}

/// Explains the outcome of the run that has `ended`. Says nothing if all is well.
fn explain_outcome(
    rt: &impl Files,
    out: &mut String,
    options: Options<'_>,
    ended: Ended<'_>,
) -> Result<(), AllocError> {
    match &ended.run.outcome {
        RunOutcome::Words(WordsEnd::Usage(text)) => {
            explain_usage(out, ended.words, text.as_str(), ended.is_at_terminal)
        }
        RunOutcome::Words(WordsEnd::Memory) => out.push_str(NO_MEMORY),
        RunOutcome::Words(_) => Ok(()),
        RunOutcome::CaseTooLarge => out.push_str(CASE_TOO_LARGE),
        RunOutcome::CaseUnread => out.push_str(CASE_UNREAD),
        RunOutcome::CaseNotText => out.push_str(CASE_NOT_TEXT),
        RunOutcome::Refused(option, fault, text) => {
            explain_refused(rt, out, options, *option, (fault, text))
        }
        RunOutcome::Problem(fault) => explain_problem(out, options, fault),
        RunOutcome::NotLoaded(option, fault, path) => {
            let file = unmoved(ended, *option, *fault, path);
            explain_unloaded(out, file, ended.words.is_empty())
        }
        RunOutcome::NotStored(option, fault, path) => {
            explain_unstored(out, unmoved(ended, *option, *fault, path))
        }
        RunOutcome::Budget => out.push_str(SMALL_BUDGET),
        RunOutcome::Memory => out.push_str(NO_MEMORY),
        RunOutcome::Impossible => out.push_str(IMPOSSIBLE),
        RunOutcome::Open => out.push_str(OPEN),
        RunOutcome::ListOpen(line) => explain_open_list(out, *line),
        RunOutcome::NoSuchGrouping(count) => explain_number(out, *count),
        RunOutcome::Unlisted(count) => explain_unlisted(out, options, *count),
        RunOutcome::Board(fault) => explain_board(out, options, fault),
        RunOutcome::PiecesLeft(left) => explain_left(out, *left),
        RunOutcome::PieceOpen(is_part) => explain_open_piece(out, *is_part),
        RunOutcome::NoSuchPiece => explain_no_piece(out),
        outcome => match &ended.run.subject {
            Some(subject) => explain_judged(out, options, outcome, subject),
            None => Ok(()),
        },
    }
}

/// Warns if the adjacency file hasn't a single pair of listed counties, as the notes of the run that has `ended` tell.
/// Says nothing if this was told before the run.
fn warn_of_pairs(
    out: &mut String,
    options: Options<'_>,
    ended: Ended<'_>,
) -> Result<(), AllocError> {
    if ended.is_without_borders || ended.run.notes.has_pairs != Some(false) {
        return Ok(());
    }
    let file = options.file(FileOption::Adjacency);
    writeln!(
        out,
        "countygroups: warning: {file} has not one pair of listed counties: no border was read from it, so that no two counties are adjacent but by --links"
    )
}

/// Warns of what `run` met on its way. The warnings of the state's people and of older files are left out if `options`
/// have no command.
fn warn(
    rt: &impl Files,
    out: &mut String,
    options: Options<'_>,
    run: &EndedRun,
) -> Result<(), AllocError> {
    let notes = &run.notes;
    warn_of_two_states(out, options, notes)?;
    push_warnings(out, options, run)?;
    let Some(command) = options.command else {
        return Ok(());
    };
    warn_of_state(out, command, notes)?;
    warn_of_older_files(rt, out, command, notes.stored)
}

/// Returns what a person is told of the run that has `ended`, in whole lines that each begin with `countygroups: `. If
/// the answer could not be written, this is told in the place of the outcome. Of a run that went well only warnings are
/// told, unless standard output is a terminal. At a terminal, the groups of the answer follow with the names of their
/// counties, or the findings of an audit by kind. If a store failed after a search, the report of the search follows as
/// it is.
///
/// # Errors
///
/// Returns `AllocError` if memory was refused.
pub fn explain(rt: &(impl Files + AllocGlobal), ended: Ended<'_>) -> Result<String, AllocError> {
    let options = ended.options;
    let mut out = String::new(rt.alloc());
    warn_of_pairs(&mut out, options, ended)?;
    if ended.is_unwritten {
        out.push_str(UNWRITTEN)?;
    } else {
        explain_outcome(rt, &mut out, options, ended)?;
    }
    if ended.is_at_terminal && !ended.is_unwritten {
        push_named(&mut out, options, ended.run)?;
    }
    warn(rt, &mut out, options, ended.run)?;
    if let Some(report) = &ended.run.notes.report {
        push_report(&mut out, report.as_slice())?;
    }
    Ok(out)
}

/// What a person is told before a run.
#[derive(Drop)]
pub struct Before {
    /// The text, in whole lines that each begin with `countygroups: `.
    pub text: String,
    /// Whether it says that the adjacency file has no border.
    pub is_without_borders: bool,
}

/// Returns what a person is told before a run with these `options`: warnings of the adjacency file, and of the `outputs`
/// that the run is to store.
///
/// # Errors
///
/// Returns `AllocError` if memory was refused.
pub fn explain_before(
    rt: &(impl Files + AllocGlobal),
    options: Options<'_>,
    outputs: &[Output<'_>],
) -> Result<Before, AllocError> {
    let mut text = String::new(rt.alloc());
    let is_without_borders = warn_of_borders(rt, &mut text, options)?;
    if let Some(command) = options.command {
        warn_of_outputs(rt, &mut text, command, outputs)?;
    }
    Ok(Before {
        text,
        is_without_borders,
    })
}
