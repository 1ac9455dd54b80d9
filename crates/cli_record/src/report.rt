//! The record of a run.

ghost use Rattle.std.specs.{Prelude.{◌≡◌, List, IfOk, map}, Option.option_map, String.string_bytes};
ghost use Rattle.cli_file_stores.specs.Sums.{sum_value};
ghost use Rattle.cli_record.specs.{RunRecord.{IsRecord, SaysOfRun}, RecordFiles.record_name_of};

use crate::answer::answer_of;
use crate::reads::reads_of;
use crate::run::Run;
use crate::stores::stores_of;
use crate::text::record_text;
use cli_file_stores::EventSum;
use cli_words::{CommandWords, version_text};
use std::alloc::{AllocError, Global};

/// Returns the name of the file that `command` gives for the record of the run, or `None` if it gives none.
pub fn record_file<'a>(command: &CommandWords<'a>) -> Option<&'a str>
    ensures { option_map (λ n. n.now) result ≡ record_name_of command.now }
{
    match command {
        CommandWords::Size(words) => words.record_file,
        CommandWords::Judge(words) => words.problem.common.record_file,
        CommandWords::Solve(words) => words.problem.common.record_file,
        CommandWords::Check(words) => words.check.problem.common.record_file,
        CommandWords::Audit(words) => words.problem.common.record_file,
        CommandWords::List(words) => words.check.problem.common.record_file,
        CommandWords::Share(words) => words.board.problem.common.record_file,
        CommandWords::Piece(words) => words.board.problem.common.record_file,
        CommandWords::Worker(words) => words.problem.common.record_file,
    }
}

/// Returns copies of `words`, in the same order.
fn texts_of(alloc: Global, words: &[&str]) -> Result<Vec<String>, AllocError>
    ensures { IfOk result (λ v. map string_bytes v.items ≡ map (λ w. w.now) words.now) }
{
    let mut texts = Vec::new(alloc);
    for word in words {
        texts.push(String::from_str(alloc, word)?)?;
    }
    Ok(texts)
}

/// Returns what the record says of the run of `command`: the version, the `words`, the files read and stored, the
/// `status` and the answer in `text`. `sums` are those of the events of the run's file store.
fn run_of(
    alloc: Global,
    words: &[&str],
    command: &CommandWords<'_>,
    sums: &[EventSum],
    status: u8,
    text: &[u8],
) -> Result<Run, AllocError>
    ensures { IfOk result (SaysOfRun (map (λ w. w.now) words.now) command.now (map sum_value sums.now) status text.now) }
{
    Ok(Run {
        version: String::from_str(alloc, version_text())?,
        words: texts_of(alloc, words)?,
        reads: reads_of(alloc, sums, command)?,
        stores: stores_of(alloc, sums, command, status)?,
        status,
        answer: Vec::from_slice(alloc, answer_of(text))?,
    })
}

/// Returns the record of a run. It has the version of the program, the words, the files that the command read and
/// stored with the sums of their bytes, the status, and the answer. `sums` are those of the events of the run's file
/// store, in order.
///
/// # Errors
///
/// Returns `AllocError` if a growth was refused.
pub fn record_of_run(
    alloc: Global,
    words: &[&str],
    command: &CommandWords<'_>,
    sums: &[EventSum],
    status: u8,
    text: &[u8],
) -> Result<Vec<u8>, AllocError>
    ensures { IfOk result (λ v. IsRecord (map (λ w. w.now) words.now) command.now (map sum_value sums.now) status text.now v.items) }
{
    let said = run_of(alloc, words, command, sums, status, text)?;
    record_text(alloc, &said)
}
