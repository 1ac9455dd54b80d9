//! The lines of the files that a command reads.

ghost use Rattle.std.specs.{Prelude.{◌≡◌, ◌++◌, ◌∷◌, [], List, IfOk, OnOk, map, find}, Option.option_map};
ghost use Rattle.cli_words.specs.declared.words.CommandWords.TheVariants.{Judge, Audit, List as ListAll, Piece};
ghost use Rattle.cli_record.specs.{declared.run.ReadFile.TheVariants.Certificate, RunRecord.read_line_of};
ghost use Rattle.cli_record.specs.RecordFiles.{files_read, file_named, if_named, census_files, county_files, block_files, plan_files, problem_files, problem_and, board_files, board_and_events, files_to_read};
ghost use Rattle.cli_file_stores.specs.Sums.{sum_value};
ghost use Rattle.cli_record.specs.RecordFiles.{went as has_gone, is_of as is_event_of, reading_of as reading_of_name};

use crate::run::{FileRead, ReadFile};
use cli_file_stores::{EventKind, EventSum};
use cli_words::{
    AuditWords, BoardWords, CensusWords, CertificateWords, CommandWords, CountyWords, JudgeWords,
    ListWords, PieceWords, ProblemWords, STANDARD_INPUT,
};
use std::alloc::{AllocError, Global};

/// Returns whether `kind` is the same kind of event as `want`.
pub(crate) fn went(want: EventKind, kind: EventKind) -> bool
    ensures { result ≡ has_gone want kind }
{
    matches!(
        (want, kind),
        (EventKind::Whole, EventKind::Whole)
            | (EventKind::Part, EventKind::Part)
            | (EventKind::Taken, EventKind::Taken)
            | (EventKind::Failed, EventKind::Failed)
    )
}

/// Returns whether `sum` is that of an event of this `kind` and `name`.
fn is_of(sum: &EventSum, kind: EventKind, name: &str) -> bool
    ensures { result ≡ is_event_of kind name.now (sum_value sum.now) }
{
    went(kind, sum.kind) && sum.name.as_str() == name
}

/// Returns the sum of the first event of this `kind` and `name`.
fn first_of<'a>(sums: &'a [EventSum], kind: EventKind, name: &str) -> Option<&'a EventSum>
    ensures { option_map (λ s. sum_value s.now) result ≡ find (is_event_of kind name.now) (map sum_value sums.now) }
{
    for sum in sums {
        if is_of(sum, kind, name) {
            return Some(sum);
        }
    }
    None
}

/// Returns the reading of the file `name`. It is the first that came to the end of the file, or else the first that was
/// left before the end.
fn reading_of<'a>(sums: &'a [EventSum], name: &str) -> Option<&'a EventSum>
    ensures { option_map (λ s. sum_value s.now) result ≡ reading_of_name (map sum_value sums.now) name.now }
{
    match first_of(sums, EventKind::Whole, name) {
        Some(sum) => Some(sum),
        None => first_of(sums, EventKind::Part, name),
    }
}

/// Appends the line of a file to `reads`, if the file was read.
fn push_read(
    reads: &mut Vec<FileRead>,
    sums: &[EventSum],
    file: ReadFile,
    name: &str,
) -> Result<(), AllocError>
    ensures { OnOk result (map read_line_of reads.new.items
        ≡ map read_line_of reads.old.items ++ files_read (file_named file name.now ∷ []) (map sum_value sums.now)) }
{
    let Some(reading) = reading_of(sums, name) else {
        return Ok(());
    };
    let alloc = *reads.allocator();
    let name = String::from_str(alloc, name)?;
    let read = FileRead {
        file,
        sum: reading.sum.copy(),
        name,
        left: went(EventKind::Part, reading.kind),
    };
    match reads.push(read) {
        Ok(()) => Ok(()),
        Err(_) => Err(AllocError),
    }
}

/// Appends the line of a file to `reads`, if the words give its `name` and the file was read.
fn push_if_named(
    reads: &mut Vec<FileRead>,
    sums: &[EventSum],
    file: ReadFile,
    name: Option<&str>,
) -> Result<(), AllocError>
    ensures { OnOk result (map read_line_of reads.new.items
        ≡ map read_line_of reads.old.items ++ files_read (if_named file name.entry) (map sum_value sums.now)) }
{
    match name {
        Some(name) => push_read(reads, sums, file, name),
        None => Ok(()),
    }
}

/// Appends to `reads` the lines of the two census files that `words` name, each if it was read.
fn push_census(
    reads: &mut Vec<FileRead>,
    sums: &[EventSum],
    words: &CensusWords<'_>,
) -> Result<(), AllocError>
    ensures { OnOk result (map read_line_of reads.new.items
        ≡ map read_line_of reads.old.items ++ files_read (census_files words.now) (map sum_value sums.now)) }
{
    push_read(reads, sums, ReadFile::Geo, words.geo)?;
    push_read(reads, sums, ReadFile::Segment1, words.segment)
}

/// Appends to `reads` the lines of the files of the counties that `words` name, each if it was read.
fn push_counties(
    reads: &mut Vec<FileRead>,
    sums: &[EventSum],
    words: &CountyWords<'_>,
) -> Result<(), AllocError>
    ensures { OnOk result (map read_line_of reads.new.items
        ≡ map read_line_of reads.old.items ++ files_read (county_files words.now) (map sum_value sums.now)) }
{
    match words {
        CountyWords::Census(census) => push_census(reads, sums, census),
        CountyWords::People(table) => push_read(reads, sums, ReadFile::People, table),
    }
}

/// Appends to `reads` the lines of the `census` files of an audit, each if it was read, unless the `counties` are read
/// from them.
fn push_blocks(
    reads: &mut Vec<FileRead>,
    sums: &[EventSum],
    counties: &CountyWords<'_>,
    census: &CensusWords<'_>,
) -> Result<(), AllocError>
    ensures { OnOk result (map read_line_of reads.new.items
        ≡ map read_line_of reads.old.items
        ++ files_read (block_files counties.now census.now) (map sum_value sums.now)) }
{
    match counties {
        CountyWords::Census(_) => Ok(()),
        CountyWords::People(_) => push_census(reads, sums, census),
    }
}

/// Appends to `reads` the lines of the files of a problem that `words` name, each if it was read.
fn push_problem(
    reads: &mut Vec<FileRead>,
    sums: &[EventSum],
    words: &ProblemWords<'_>,
) -> Result<(), AllocError>
    ensures { OnOk result (map read_line_of reads.new.items
        ≡ map read_line_of reads.old.items ++ files_read (problem_files words.now) (map sum_value sums.now)) }
{
    push_counties(reads, sums, &words.common.counties)?;
    push_read(reads, sums, ReadFile::Adjacency, words.adjacency)?;
    push_if_named(reads, sums, ReadFile::Links, words.links)?;
    push_if_named(reads, sums, ReadFile::Withdrawn, words.withdrawn)
}

/// Appends the lines of the files of a problem, and then that of `file`, each if it was read.
fn push_problem_and(
    reads: &mut Vec<FileRead>,
    sums: &[EventSum],
    words: &ProblemWords<'_>,
    file: ReadFile,
    name: &str,
) -> Result<(), AllocError>
    ensures { OnOk result (map read_line_of reads.new.items
        ≡ map read_line_of reads.old.items
        ++ files_read (problem_and words.now file name.now) (map sum_value sums.now)) }
{
    push_problem(reads, sums, words)?;
    push_read(reads, sums, file, name)
}

/// Appends to `reads` the lines of the files of a board that `words` name, each if it was read.
fn push_board(
    reads: &mut Vec<FileRead>,
    sums: &[EventSum],
    words: &BoardWords<'_>,
) -> Result<(), AllocError>
    ensures { OnOk result (map read_line_of reads.new.items
        ≡ map read_line_of reads.old.items ++ files_read (board_files words.now) (map sum_value sums.now)) }
{
    push_problem_and(
        reads,
        sums,
        &words.problem,
        ReadFile::Grouping,
        words.grouping,
    )
}

/// Appends to `reads` the lines of the files that `judge` reads by its `words`, each if it was read.
fn push_judge(
    reads: &mut Vec<FileRead>,
    sums: &[EventSum],
    words: &JudgeWords<'_>,
) -> Result<(), AllocError>
    ensures { OnOk result (map read_line_of reads.new.items
        ≡ map read_line_of reads.old.items ++ files_read (files_to_read (Judge words.now)) (map sum_value sums.now)) }
{
    let (file, name) = (ReadFile::Grouping, words.grouping);
    push_problem_and(reads, sums, &words.problem, file, name)?;
    push_if_named(reads, sums, ReadFile::Certificate, words.certificate)
}

/// Appends to `reads` the lines of the files that `list` reads by its `words`, each if it was read.
fn push_list(
    reads: &mut Vec<FileRead>,
    sums: &[EventSum],
    words: &ListWords<'_>,
) -> Result<(), AllocError>
    ensures { OnOk result (map read_line_of reads.new.items
        ≡ map read_line_of reads.old.items ++ files_read (files_to_read (ListAll words.now)) (map sum_value sums.now)) }
{
    push_problem(reads, sums, &words.check.problem)?;
    push_if_named(reads, sums, ReadFile::Grouping, words.which)?;
    push_read(reads, sums, ReadFile::Certificate, words.check.certificate)
}

/// Appends to `reads` the lines of the grouping and of the assignments that an audit's `words` name, each if it was
/// read.
fn push_plan(
    reads: &mut Vec<FileRead>,
    sums: &[EventSum],
    words: &AuditWords<'_>,
) -> Result<(), AllocError>
    ensures { OnOk result (map read_line_of reads.new.items
        ≡ map read_line_of reads.old.items ++ files_read (plan_files words.now) (map sum_value sums.now)) }
{
    push_read(reads, sums, ReadFile::Grouping, words.grouping)?;
    push_read(reads, sums, ReadFile::Assignments, words.assignments)
}

/// Appends to `reads` the lines of the files that `audit` reads by its `words`, each if it was read.
fn push_audit(
    reads: &mut Vec<FileRead>,
    sums: &[EventSum],
    words: &AuditWords<'_>,
) -> Result<(), AllocError>
    ensures { OnOk result (map read_line_of reads.new.items
        ≡ map read_line_of reads.old.items ++ files_read (files_to_read (Audit words.now)) (map sum_value sums.now)) }
{
    push_problem(reads, sums, &words.problem)?;
    push_blocks(reads, sums, &words.problem.common.counties, &words.census)?;
    push_plan(reads, sums, words)
}

/// Appends the lines of the files of a board, and then that of the file `events`, each if it was read.
fn push_board_and_events(
    reads: &mut Vec<FileRead>,
    sums: &[EventSum],
    words: &BoardWords<'_>,
    events: &str,
) -> Result<(), AllocError>
    ensures { OnOk result (map read_line_of reads.new.items
        ≡ map read_line_of reads.old.items
        ++ files_read (board_and_events words.now events.now) (map sum_value sums.now)) }
{
    push_board(reads, sums, words)?;
    push_read(reads, sums, ReadFile::Events, events)
}

/// Appends to `reads` the lines of the files that `piece` reads by its `words`, each if it was read.
fn push_piece(
    reads: &mut Vec<FileRead>,
    sums: &[EventSum],
    words: &PieceWords<'_>,
) -> Result<(), AllocError>
    ensures { OnOk result (map read_line_of reads.new.items
        ≡ map read_line_of reads.old.items ++ files_read (files_to_read (Piece words.now)) (map sum_value sums.now)) }
{
    push_board(reads, sums, &words.board)?;
    push_if_named(reads, sums, ReadFile::Events, words.events)
}

/// Appends to `reads` the lines of the files of a problem that `words` name, and then that of the certificate, each if
/// it was read.
fn push_certificate(
    reads: &mut Vec<FileRead>,
    sums: &[EventSum],
    words: &CertificateWords<'_>,
) -> Result<(), AllocError>
    ensures { OnOk result (map read_line_of reads.new.items
        ≡ map read_line_of reads.old.items
        ++ files_read (problem_and words.now.problem Certificate words.now.certificate.now) (map sum_value sums.now)) }
{
    let (file, name) = (ReadFile::Certificate, words.certificate);
    push_problem_and(reads, sums, &words.problem, file, name)
}

/// Appends the lines of the files that `command` reads, each if it was read.
fn push_files(
    reads: &mut Vec<FileRead>,
    sums: &[EventSum],
    command: &CommandWords<'_>,
) -> Result<(), AllocError>
    ensures { OnOk result (map read_line_of reads.new.items
        ≡ map read_line_of reads.old.items ++ files_read (files_to_read command.now) (map sum_value sums.now)) }
{
    match command {
        CommandWords::Size(words) => push_counties(reads, sums, &words.counties),
        CommandWords::Judge(words) => push_judge(reads, sums, words),
        CommandWords::Solve(words) => push_problem(reads, sums, &words.problem),
        CommandWords::Check(words) => push_certificate(reads, sums, &words.check),
        CommandWords::Audit(words) => push_audit(reads, sums, words),
        CommandWords::List(words) => push_list(reads, sums, words),
        CommandWords::Share(words) => {
            push_board_and_events(reads, sums, &words.board, words.events)
        }
        CommandWords::Piece(words) => push_piece(reads, sums, words),
        CommandWords::Worker(words) => {
            let (file, name) = (ReadFile::Events, STANDARD_INPUT);
            push_problem_and(reads, sums, &words.problem, file, name)
        }
    }
}

/// Returns the lines of the files that `command` read. `sums` are the sums of the run's events.
pub(crate) fn reads_of(
    alloc: Global,
    sums: &[EventSum],
    command: &CommandWords<'_>,
) -> Result<Vec<FileRead>, AllocError>
    ensures { IfOk result (λ v. map read_line_of v.items
        ≡ files_read (files_to_read command.now) (map sum_value sums.now)) }
{
    let mut reads = Vec::new(alloc);
    push_files(&mut reads, sums, command)?;
    Ok(reads)
}
