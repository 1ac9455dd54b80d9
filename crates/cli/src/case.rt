//! A run of a case: the words of a command and its files, read from one text.

ghost use Rattle.std.specs.Prelude.{◌≡◌, ℕ, ◌++◌, ◌==◌, ◌&&◌, true, false, List, [], ◌∷◌, Option, Some, None, Result, Ok, Err, IfOk, OnOk, MatchOption, codes, drop, length, reverse, option_map, string_bytes, map};
ghost use Rattle.std.specs.{List.{slice_split, list_all}, Str.is_utf8};
ghost use Rattle.field_lines.specs.{RawPieces.{RawLine, raw_lines}, TextPiece.raw_of};
ghost use Rattle.cli_file_stores.specs.{Files.NamedFile, Memory.files_of, declared.whole_source.WholeFault.WholeFault};
ghost use Rattle.cli.specs.Case.{whole_line, file_name, first_case_line, case_files, is_case, are_named, with_open, parts_of};
ghost use Rattle.cli.specs.Delivery.{texts};
ghost use Rattle.cli.specs.CaseRun.{stored_text, WordsOver, IsCaseAnswer, IsWholeSource, IsReadAnswer, DeliversCase};
ghost use Rattle.cli_answers.specs.{Answer.Answered, Answers.answer_of};
ghost use Rattle.written_output.specs.Writing.{kept_of};
ghost use Rattle.run_laws.specs.Spoken.{behind};

use crate::command::{deliver, words_answer};
use crate::ended_run::EndedRun;
use crate::notes::Notes;
use branch_bound::NoWatcher;
use cli_answers::{MEMORY, RunAnswer, RunOutcome};
use cli_file_stores::{MemoryFile, MemoryFileStore, Sink, WholeFault, read_whole};
use field_lines::{RawLines, Source, TextPiece};
use std::alloc::{AllocError, Global};
use written_output::{NoSink, Written};

/// How many bytes a case may have at most.
pub const MAX_CASE: usize = 16_777_216;

/// Returns `bytes` as text, or `None` if they aren't UTF-8.
fn text_of(bytes: &[u8]) -> Option<&str>
    ensures { MatchOption result (is_utf8 bytes.now ≡ false) (λ s. (s.now ≡ bytes.now) × (is_utf8 bytes.now ≡ true)) }
{
    match str::from_utf8(bytes) {
        Ok(text) => Some(text),
        Err(_) => None,
    }
}

/// Returns the name that `line` gives if it is `file NAME`. Returns `None` for any other line.
fn named_file(line: &[u8]) -> Option<&[u8]>
    ensures { option_map (λ s. s.now) result ≡ file_name line.now }
{
    line.strip_prefix(b"file ")
}

/// Appends the bytes of `piece`, and an LF if one ends it.
fn push_line(bytes: &mut Vec<u8>, piece: TextPiece<'_>) -> Result<(), AllocError>
    ensures { OnOk result (bytes.new.items ≡ bytes.old.items ++ whole_line (raw_of piece.entry)) }
{
    bytes.extend_from_slice(piece.bytes)?;
    if piece.ended {
        bytes.push(b'\n')?;
    }
    Ok(())
}

/// Appends a file with a copy of `bytes`, if `name` is given.
fn push_file(
    alloc: Global,
    files: &mut Vec<MemoryFile>,
    name: Option<&str>,
    bytes: &[u8],
) -> Result<(), AllocError>
    ensures { OnOk result (files_of files.new.items
        ≡ files_of files.old.items ++ with_open (option_map (λ s. s.now) name.entry) bytes.now (parts_of [])) }
{
    if let Some(name) = name {
        files.push(MemoryFile {
            name: String::from_str(alloc, name)?,
            bytes: Vec::from_slice(alloc, bytes)?,
        })?;
    }
    Ok(())
}

/// Returns the files of the `pieces`, or `None` if the name of one isn't UTF-8.
fn files_in(alloc: Global, mut pieces: RawLines<'_>) -> Result<Option<Vec<MemoryFile>>, AllocError>
    ensures { IfOk result (λ read. MatchOption
        read
        (are_named (parts_of pieces.entry).files ≡ false)
        (λ v. (are_named (parts_of pieces.entry).files ≡ true) × (files_of v.items ≡ (parts_of pieces.entry).files))) }
{
    let mut files = Vec::new(alloc);
    let mut open = None;
    let mut bytes = Vec::new(alloc);
    while let Some(piece) = pieces.next_piece() {
        if let Some(name) = named_file(piece.bytes) {
            push_file(alloc, &mut files, open, &bytes)?;
            let Some(name) = text_of(name) else {
                return Ok(None);
            };
            open = Some(name);
            bytes.clear();
        } else {
            push_line(&mut bytes, piece)?;
        }
    }
    push_file(alloc, &mut files, open, &bytes)?;
    Ok(Some(files))
}

/// Appends each of the stored `files`: a line with its name, and then its bytes.
fn push_stored(out: &mut Vec<u8>, files: &[MemoryFile]) -> Result<(), AllocError>
    ensures { OnOk result (out.new.items ≡ out.old.items ++ stored_text (files_of files.now)) }
{
    for file in files {
        out.extend_from_slice(b"file ")?;
        out.extend_from_slice(file.name.as_bytes())?;
        out.extend_from_slice(b"\n")?;
        out.extend_from_slice(&file.bytes)?;
    }
    Ok(())
}

/// Returns the words of `line`, which is cut at each blank.
fn words_in<'a>(alloc: Global, line: &'a str) -> Result<Vec<&'a str>, AllocError>
    ensures { IfOk result (λ v. texts v.items ≡ slice_split (λ b. b == 32) line.entry.now) }
{
    line.split(' ').collect(alloc)
}

/// Takes the first of `pieces` off, and returns it without its LF. Returns no bytes if there is none.
fn take_line<'a>(pieces: &mut RawLines<'a>) -> &'a [u8]
    ensures line { result.now ≡ first_case_line pieces.old }
    ensures rest { pieces.new ≡ drop 1 pieces.old }
{
    match pieces.next_piece() {
        Some(piece) => piece.bytes,
        None => &[],
    }
}

/// Returns the first line and the files of the case `text`, or `None` if the line or the name of a file isn't UTF-8.
fn parts_in<'a>(
    alloc: Global,
    text: &'a [u8],
) -> Result<Option<(&'a str, Vec<MemoryFile>)>, AllocError>
    ensures { IfOk result (λ read. MatchOption
        read
        (is_case text.now ≡ false)
        (λ r. (is_case text.now ≡ true) × (r.0.now ≡ first_case_line (raw_lines text.now))
        × (files_of r.1.items ≡ case_files text.now))) }
{
    let mut pieces = RawLines::new(text);
    let Some(line) = text_of(take_line(&mut pieces)) else {
        return Ok(None);
    };
    match files_in(alloc, pieces)? {
        Some(files) => Ok(Some((line, files))),
        None => Ok(None),
    }
}

/// Returns an `answer` behind what was `written` before it.
fn whole_answer(written: Written, answer: RunAnswer) -> Result<RunAnswer, AllocError>
    ensures { IfOk result (λ a. (front : List ℕ) → kept_of written ≡ Some front → answer_of a ≡ behind front (answer_of answer)) }
{
    match written.kept {
        Some(mut text) => {
            text.extend_from_slice(&answer.text)?;
            Ok(RunAnswer {
                text,
                status: answer.status,
                outcome: answer.outcome,
                subject: answer.subject,
            })
        }
        None => Ok(answer),
    }
}

/// Returns the answer to a `line` of words over `files`, followed by the files that were stored. If two files have the
/// same name, the later one counts.
fn words_over_files(
    alloc: Global,
    line: &str,
    mut files: Vec<MemoryFile>,
    notes: &mut Notes,
) -> Result<RunAnswer, AllocError>
    ensures { IfOk result (λ a. WordsOver (reverse (files_of files.items)) (slice_split (λ b. b == 32) line.now) (answer_of a)) }
{
    files.reverse();
    let mut file_store = MemoryFileStore::new(alloc, files);
    let words = words_in(alloc, line)?;
    let mut written = Written::new(Some(Vec::new(alloc)));
    let answer = words_answer(
        alloc,
        &words,
        &mut file_store,
        &mut NoSink,
        &mut written,
        notes,
        &mut NoWatcher,
    )?;
    let mut answer = whole_answer(written, answer)?;
    push_stored(&mut answer.text, file_store.stored_files())?;
    Ok(answer)
}

/// Returns the answer to the `text` of a case, or `None` if its first line or the name of a file isn't UTF-8.
fn case_answer(
    alloc: Global,
    text: &[u8],
    notes: &mut Notes,
) -> Result<Option<RunAnswer>, AllocError>
    ensures { IfOk result (λ a. IsCaseAnswer text.now (option_map answer_of a)) }
{
    match parts_in(alloc, text)? {
        Some((line, files)) => Ok(Some(words_over_files(alloc, line, files, notes)?)),
        None => Ok(None),
    }
}

/// Reads a case from `input` and runs it, and returns the exit status and the run that has ended. All that `run_case`
/// promises holds of it and of its status.
pub fn run_case_with_notes<R: Source, W: Sink>(
    alloc: Global,
    input: &mut R,
    out: &mut W,
) -> (u8, EndedRun)
    requires { R.is_failed input.old ≡ false }
    ensures { (read : Result (List ℕ) WholeFault)
        × IsWholeSource (R.content input.old) (R.is_failed input.new) read
        × (a : Option Answered)
        × IsReadAnswer read a
        × DeliversCase out.old out.new W.is_failed W.contents a result.0 }
{
    let mut notes = Notes::new(alloc);
    match read_whole(alloc, input, MAX_CASE) {
        Ok(text) => match case_answer(alloc, &text, &mut notes) {
            Ok(Some(answer)) => {
                let status = deliver(out, &answer.text, answer.status);
                (status, EndedRun::of_case(answer, notes))
            }
            Ok(None) => (2, EndedRun::unanswered(RunOutcome::CaseNotText, notes)),
            Err(AllocError) => {
                let status = deliver(out, MEMORY, 5);
                (status, EndedRun::unanswered(RunOutcome::Memory, notes))
            }
        },
        Err(WholeFault::TooLarge) => {
            let status = deliver(out, b"refused case TooLarge line 0\n", 4);
            (
                status,
                EndedRun::unanswered(RunOutcome::CaseTooLarge, notes),
            )
        }
        Err(WholeFault::Failed) => {
            let status = deliver(out, b"device case Device\n", 5);
            (status, EndedRun::unanswered(RunOutcome::CaseUnread, notes))
        }
        Err(WholeFault::Memory) => {
            let status = deliver(out, MEMORY, 5);
            (status, EndedRun::unanswered(RunOutcome::Memory, notes))
        }
    }
}

/// Reads a case from `input` and runs its words over its files, which are held in memory. Returns the exit status. The
/// files that were stored follow the answer on `out`. If the first line or the name of a file isn't UTF-8, nothing is
/// written and the status is 2. A case of more than 16,777,216 bytes is refused. If the reading failed, the answer is
/// `device case Device`.
pub fn run_case<R: Source, W: Sink>(alloc: Global, input: &mut R, out: &mut W) -> u8
    requires { R.is_failed input.old ≡ false }
    ensures { (read : Result (List ℕ) WholeFault)
        × IsWholeSource (R.content input.old) (R.is_failed input.new) read
        × (a : Option Answered)
        × IsReadAnswer read a
        × DeliversCase out.old out.new W.is_failed W.contents a result }
{
    run_case_with_notes(alloc, input, out).0
}
