//! Why an input file or the problem is refused.

use crate::file_lines::{UNZIP, county_state, is_utf16, is_zip, line_at_fault, looks_like};
use crate::machine_files::is_plain;
use crate::options::{NamedFile, Options, common_of};
use crate::shown_bytes::start_of;
use cli_answers::{FaultText, FileFault, FileOption};
use cli_words::{CommandWords, CountyWords};
use county_problem::ProblemFault;
use field_lines::{Fields, field_at};
use people_table::PeopleKind;
use pl94_counties::Pl94Kind;
use std::alloc::AllocError;
use std::fmt::Write;
use std::rt::Files;

const UTF_16: &str = "countygroups: the file is UTF-16: store it as UTF-8\n";

const QUOTES: &str =
    "countygroups: the fields stand between quotes: store the file without quotes round its fields\n";

/// Returns what the file of `option` has to be.
pub(crate) fn remedy(option: FileOption) -> &'static str {
    match option {
        FileOption::Geo => {
            "give --geo a state's geographic header of the Census Bureau's PL 94-171 files of 2020, unzipped, as nc2020geo.pl"
        }
        FileOption::Segment => {
            "give --segment the same state's segment 1 of the Census Bureau's PL 94-171 files of 2020, unzipped, as nc000012020.pl"
        }
        FileOption::People => {
            "a line of --people is a county's five digits, its people and, if it is known, its name, as 37001,171415,Alamance"
        }
        FileOption::Adjacency => {
            "give --adjacency the Census Bureau's county adjacency file with pipes between its fields, as county_adjacency2023.txt"
        }
        FileOption::Links => "a line of --links is + or - and two county codes, as -|37055|37095",
        FileOption::Withdrawn => {
            "a line of --withdrawn is seats and the codes of the set's counties, as 1|37119"
        }
        FileOption::Assignments => {
            "a line of --assignments is a block's fifteen digits and its district, as 370010201001000,1"
        }
        FileOption::Events => {
            "give --events what `countygroups piece` prints: each event begins with a line of hand, result, split, part, better or wider"
        }
        FileOption::Input => {
            "`countygroups worker` reads rounds and open pieces: each begins with a line of round or open"
        }
        _ =>
            "a line of --grouping is seats and the codes of the group's counties, as 2|37063|37183",
    }
}

/// Says what is wrong with `file` and where, and shows the `line` if it is known.
fn explain_line(
    out: &mut String,
    file: NamedFile<'_>,
    fault: &FileFault,
    line: Option<&[u8]>,
) -> Result<(), AllocError> {
    let number = fault.line();
    match line {
        Some(line) => {
            let line = start_of(line);
            writeln!(
                out,
                "countygroups: {file}, line {number}: {fault}\ncountygroups: line {number} is: {line}"
            )
        }
        None if number == 0 => writeln!(out, "countygroups: {file}: {fault}"),
        None => writeln!(out, "countygroups: {file}, line {number}: {fault}"),
    }
}

/// Says that fields stand between quotes, if the `line` at fault begins with a quote.
fn explain_quotes(out: &mut String, line: Option<&[u8]>) -> Result<(), AllocError> {
    match line {
        Some(line) if line.starts_with(b"\"") => out.push_str(QUOTES),
        _ => Ok(()),
    }
}

/// Says which state a geographic header is of, where another one was asked for. If `text` has no county line, says what
/// `--geo` has to be.
fn explain_state(out: &mut String, text: &[u8]) -> Result<(), AllocError> {
    match county_state(text) {
        Some(other) => {
            let other = start_of(other);
            writeln!(
                out,
                "countygroups: its first county line has STATE {other}: --state names the state, and is 37 where it is left out"
            )
        }
        None => {
            let words = remedy(FileOption::Geo);
            writeln!(out, "countygroups: {words}")
        }
    }
}

/// Returns the census file that an `audit` could not read a second time because it is a pipe. The `kind` of the fault
/// and the `text` that was read tell which file this is. Returns `None` otherwise.
fn spent_file<'a>(
    rt: &impl Files,
    options: Options<'a>,
    (kind, text): (Pl94Kind, &[u8]),
) -> Option<NamedFile<'a>> {
    let file = match kind {
        Pl94Kind::NoBlocks if text.is_empty() => options.file(FileOption::Geo),
        Pl94Kind::NoRecord => options.file(FileOption::Segment),
        _ => return None,
    };
    match (options.command, file.path) {
        (Some(CommandWords::Audit(words)), Some(path)) => match words.problem.common.counties {
            CountyWords::Census(_) if !is_plain(rt, path) => Some(file),
            _ => None,
        },
        _ => None,
    }
}

/// Says what helps against a fault of this `kind` in the geographic header or in segment 1, whichever is the file of
/// `option`. `text` is the text of that file, or its start.
fn explain_census(
    rt: &impl Files,
    out: &mut String,
    options: Options<'_>,
    option: FileOption,
    (kind, text): (Pl94Kind, &[u8]),
) -> Result<(), AllocError> {
    if let Some(file) = spent_file(rt, options, (kind, text)) {
        return writeln!(
            out,
            "countygroups: `audit` reads {file} twice, and a pipe can be read once: give it a plain file"
        );
    }
    let (file, segment) = (options.file(option), options.file(FileOption::Segment));
    match (kind, option, looks_like(text)) {
        (_, FileOption::Geo, Some(FileOption::Segment)) => writeln!(
            out,
            "countygroups: {file} looks like a segment 1: see whether --geo and --segment are swapped"
        ),
        (_, FileOption::Segment, Some(FileOption::Geo)) => writeln!(
            out,
            "countygroups: {file} looks like a geographic header: see whether --geo and --segment are swapped"
        ),
        (Pl94Kind::NoCounties, _, _) => explain_state(out, text),
        (Pl94Kind::NoBlocks, _, _) => out.push_str(
            "countygroups: give --geo the state's whole geographic header, which has its blocks; the header in data/nc2020 has none\n",
        ),
        (Pl94Kind::NoRecord, _, _) => writeln!(
            out,
            "countygroups: see that {segment} is whole, and of the same state as --geo"
        ),
        _ => {
            let words = remedy(option);
            writeln!(out, "countygroups: {words}")
        }
    }
}

/// Returns the NAME of a county `line`, which is its field 88. Returns no bytes if there is no such line or field.
fn name_on(line: Option<&[u8]>) -> &[u8] {
    match line {
        Some(line) => field_at(line, b'|', 87).unwrap_or(b""),
        None => b"",
    }
}

/// Says what helps against the NAME on a county `line` that isn't UTF-8, and shows the NAME.
fn explain_name(out: &mut String, line: Option<&[u8]>) -> Result<(), AllocError> {
    let name = start_of(name_on(line));
    writeln!(
        out,
        "countygroups: its field 88, the NAME of a county, is: {name}\ncountygroups: store the file as UTF-8, or leave out --table"
    )
}

/// Returns the state of the first county in the `text` of a table of counties: the first two digits of the first of its
/// lines that begins with five digits.
fn state_in_table(text: &[u8]) -> Option<&[u8]> {
    for line in Fields::new(text, b'\n') {
        if let [first, second, third, fourth, fifth, ..] = line {
            let digits = [*first, *second, *third, *fourth, *fifth];
            if digits.iter().all(|digit| digit.is_ascii_digit()) {
                return line.get(..2);
            }
        }
    }
    None
}

/// Says what helps against a fault of this `kind` in a table of counties, whose text is `text`.
fn explain_people(out: &mut String, kind: PeopleKind, text: &[u8]) -> Result<(), AllocError> {
    match (kind, state_in_table(text)) {
        (PeopleKind::NoCounties, Some(state)) => {
            let state = start_of(state);
            writeln!(
                out,
                "countygroups: its first county is of state {state}: --state names the state, and is 37 where it is left out"
            )
        }
        _ => {
            let words = remedy(FileOption::People);
            writeln!(out, "countygroups: {words}")
        }
    }
}

/// Says what helps against a `fault` of the file of `option`.
fn explain_help(
    rt: &impl Files,
    out: &mut String,
    options: Options<'_>,
    option: FileOption,
    fault: &FileFault,
    (text, line): (&[u8], Option<&[u8]>),
) -> Result<(), AllocError> {
    if is_zip(text) {
        return out.push_str(UNZIP);
    }
    if is_utf16(text) {
        return out.push_str(UTF_16);
    }
    if option != FileOption::People {
        explain_quotes(out, line)?;
    }
    match fault {
        FileFault::Census(fault) => explain_census(rt, out, options, option, (fault.kind, text)),
        FileFault::BadName(_) => explain_name(out, line),
        FileFault::People(fault) => explain_people(out, fault.kind, text),
        _ => {
            let words = remedy(option);
            writeln!(out, "countygroups: {words}")
        }
    }
}

/// Explains why the file of `option` is refused: what is wrong, the line at fault, and what to do.
///
/// # Errors
///
/// Returns `AllocError` if memory was refused.
pub(crate) fn explain_refused(
    rt: &impl Files,
    out: &mut String,
    options: Options<'_>,
    option: FileOption,
    (fault, text): (&FileFault, &FaultText),
) -> Result<(), AllocError> {
    let line = line_at_fault(text, fault.line());
    explain_line(out, options.file(option), fault, line)?;
    explain_help(rt, out, options, option, fault, (text.head(), line))
}

/// Returns the option of the file that the counties of a command are read from.
fn county_option(options: Options<'_>) -> FileOption {
    match options.command {
        Some(command) => match common_of(command).counties {
            CountyWords::People(_) => FileOption::People,
            CountyWords::Census(_) => FileOption::Geo,
        },
        None => FileOption::Geo,
    }
}

/// Explains the `fault` for which the problem is refused, and names the file at fault. If the tolerance is out of
/// range, this names its two options instead.
///
/// # Errors
///
/// Returns `AllocError` if memory was refused.
pub(crate) fn explain_problem(
    out: &mut String,
    options: Options<'_>,
    fault: &ProblemFault,
) -> Result<(), AllocError> {
    let file = options.file(match fault {
        ProblemFault::BadWindow => {
            return writeln!(out, "countygroups: --part and --of: {fault}");
        }
        ProblemFault::EmptyWithdrawn(_)
        | ProblemFault::UnknownWithdrawn(_)
        | ProblemFault::WithdrawnTwice(_)
        | ProblemFault::WithdrawnSeats => FileOption::Withdrawn,
        ProblemFault::UnknownPair(_, _) => FileOption::Links,
        _ => county_option(options),
    });
    writeln!(out, "countygroups: {file}: {fault}")
}
