//! Why a text is no certificate.

use crate::file_lines::{BYTE_ORDER_MARK, UNZIP, is_zip, whole_line};
use crate::grouping_fault::explain_chamber;
use crate::options::{NamedFile, Options};
use crate::shown_bytes::start_of;
use certificate_lines::TextKind;
use cli_answers::{FaultText, FileOption};
use county_codes::Tolerance;
use county_problem::Problem;
use field_lines::{Fields, field_at, number_in};
use state_judge::CheckFault;
use std::alloc::AllocError;
use std::fmt::Write;

/// Shows the `line` of this `number` if it is known. If `is_cut` is true, says instead where the text that is cut short
/// ends.
fn show_line(
    out: &mut String,
    is_cut: bool,
    (line, number): (Option<&[u8]>, u64),
) -> Result<(), AllocError> {
    match (is_cut, line) {
        (false, Some(line)) => {
            let line = start_of(line);
            writeln!(out, "countygroups: line {number} is: {line}")
        }
        (false, None) => Ok(()),
        (true, Some([_, ..])) => writeln!(
            out,
            "countygroups: the file ends inside line {number}: it is not whole"
        ),
        (true, _) => writeln!(
            out,
            "countygroups: the file ends before line {number}: it is not whole"
        ),
    }
}

/// Returns the seats of a `line` of the form `group SEATS CODE ..`. Returns `None` for any other line, and if the seats
/// are missing or no number from 0 to 65,535.
fn seats_in(line: &[u8]) -> Option<u32> {
    match field_at(line, b' ', 0) {
        Some(b"group") => number_in(field_at(line, b' ', 1)?, 0, 65_535),
        _ => None,
    }
}

/// Returns the seats of all groups of the target in a certificate's `text`. A line of a group counts nothing if its
/// seats can't be read.
fn target_seats(text: &[u8]) -> u64 {
    let mut seats: u64 = 0;
    for line in Fields::new(text, b'\n') {
        seats = seats.saturating_add(u64::from(seats_in(line).unwrap_or(0)));
    }
    seats
}

/// Returns the tolerance of a `line` of the form `window PART WHOLE`. The first word isn't checked. Returns `None` if a
/// number is missing or out of range: `PART` is 0 to 500, and `WHOLE` is 1 to 1,000.
fn tolerance_on(line: &[u8]) -> Option<Tolerance> {
    let numerator = number_in(field_at(line, b' ', 1)?, 0, 500)?;
    let denominator = number_in(field_at(line, b' ', 2)?, 1, 1_000)?;
    Some(Tolerance {
        numerator: numerator as u16,
        denominator: denominator as u16,
    })
}

/// Returns the tolerance that the certificate `text` is for. This is the tolerance of its second line, or one twentieth
/// if that line names none that can be read.
fn tolerance_in(text: &[u8]) -> Tolerance {
    let line = whole_line(text, 2).unwrap_or(&[]);
    match field_at(line, b' ', 0) {
        Some(b"window") => tolerance_on(line).unwrap_or(Tolerance::twentieth()),
        _ => Tolerance::twentieth(),
    }
}

/// Names the tolerance that the certificate `text` is for, and that of `problem`.
fn explain_tolerances(out: &mut String, text: &[u8], problem: &Problem) -> Result<(), AllocError> {
    let (named, asked) = (tolerance_in(text), problem.tolerance());
    writeln!(
        out,
        "countygroups: the certificate is for the tolerance {}/{}, and --part and --of ask for {}/{}",
        named.numerator, named.denominator, asked.numerator, asked.denominator
    )
}

/// What a fault of a certificate means to whoever checks it.
const MEANING: &str =
    "countygroups: as it stands this text proves nothing, neither that its grouping is best nor that it isn't\ncountygroups: the text is that of whoever made it: see that you have all its bytes and that the other options are the maker's, or ask the maker for another one\n";

/// The lines that may stand in the tree of a certificate and at its end.
const TREE_LINES: &str =
    "branch CODE, take CODE .., mark, stuck CODE, seats, bound J, room, weigh Q CODE:W .., end";

/// Returns the number of groups of the target that line `number` of the certificate `text` gives, or 0 if it can't be
/// read.
fn target_length(text: &[u8], number: u64) -> u64 {
    let line = whole_line(text, number).unwrap_or(&[]);
    match field_at(line, b' ', 1) {
        Some(word) => u64::from(number_in(word, 0, 256).unwrap_or(0)),
        None => 0,
    }
}

/// Returns which lines may stand as line `number` of the certificate `text`. Behind the target any line of a tree may.
fn lines_at(text: &[u8], number: u64) -> &'static str {
    let first = whole_line(text, 1).unwrap_or(&[]);
    let (is_second, shift) = if first.ends_with(b" 2") {
        (true, 1)
    } else {
        (false, 0)
    };
    match number.saturating_sub(shift) {
        _ if number == 1 => {
            "county-groups certificate 1 or county-groups wide certificate 1, and 2 in place of 1 for another tolerance than 1/20"
        }
        1 if is_second => "window A B",
        2 => "order CODE CODE ..",
        3 => "limit M, with M from 0 to 256",
        4 => "target G, with G from 0 to 256, or target none",
        place if place <= target_length(text, 4 + shift).saturating_add(4) => {
            "group SEATS CODE CODE .."
        }
        _ => TREE_LINES,
    }
}

/// Names the first word of the `line` of this `number` in the certificate `text`, and the lines that may stand there.
/// Says nothing of a `kind` of fault that isn't one of words.
fn explain_word(
    out: &mut String,
    kind: TextKind,
    text: &[u8],
    (line, number): (Option<&[u8]>, u64),
) -> Result<(), AllocError> {
    match kind {
        TextKind::BadHead | TextKind::BadWord | TextKind::BadNumber | TextKind::NotCanonical => {}
        _ => return Ok(()),
    }
    let word = start_of(field_at(line.unwrap_or(&[]), b' ', 0).unwrap_or(&[]));
    let lines = lines_at(text, number);
    writeln!(
        out,
        "countygroups: its first word is `{word}`; there may stand: {lines}"
    )
}

/// Says what was done to the `text` of `file` on its way, or what else helps against the `fault` in the `line` of this
/// `number`. If the fault is one of the target or of the tolerance, this compares the certificate with `problem` first.
fn explain_help(
    out: &mut String,
    file: NamedFile<'_>,
    fault: &CheckFault,
    (text, problem): (&[u8], &Problem),
    (line, number): (Option<&[u8]>, u64),
) -> Result<(), AllocError> {
    let first = whole_line(text, 1).unwrap_or(&[]);
    if is_zip(text) {
        return out.push_str(UNZIP);
    }
    if text.starts_with(BYTE_ORDER_MARK) {
        return writeln!(
            out,
            "countygroups: a byte order mark stands first in {file}: the file was changed on its way, so get it again byte for byte"
        );
    }
    if first.ends_with(b"\r") {
        return writeln!(
            out,
            "countygroups: the lines of {file} end in CR LF: the file was changed on its way, so get it again byte for byte"
        );
    }
    match fault {
        CheckFault::TargetFault(_) => {
            explain_chamber(out, FileOption::Certificate, target_seats(text), problem)?
        }
        CheckFault::WrongWindow => explain_tolerances(out, text, problem)?,
        CheckFault::Text(cut) => explain_word(out, cut.kind, text, (line, number))?,
        _ => {}
    }
    out.push_str(MEANING)
}

/// Explains the `fault` in line `number` of `text`, for which it is no certificate of `problem`. This tells what is
/// wrong with the line, the line if it is known, and what to do.
///
/// # Errors
///
/// Returns `AllocError` if memory was refused.
pub(crate) fn explain_certificate(
    out: &mut String,
    options: Options<'_>,
    (fault, number): (&CheckFault, u64),
    (text, problem): (&FaultText, &Problem),
) -> Result<(), AllocError> {
    let file = options.file(FileOption::Certificate);
    let known = text.line(number);
    let (is_cut, line) = match fault {
        CheckFault::Text(cut) => {
            writeln!(out, "countygroups: {file}, {cut}")?;
            (cut.kind == TextKind::CutShort, Some(known.unwrap_or(&[])))
        }
        _ => {
            writeln!(out, "countygroups: {file}, line {number}: {fault}")?;
            (false, known)
        }
    };
    show_line(out, is_cut, (line, number))?;
    explain_help(out, file, fault, (text.head(), problem), (known, number))
}
