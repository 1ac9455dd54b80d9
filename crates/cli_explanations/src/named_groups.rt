//! What a person at a terminal is told after an answer: its groups with the names of their counties, and the findings
//! of an audit by kind.

use crate::county_names::push_county;
use crate::findings::named_sets;
use crate::options::Options;
use crate::shown_bytes::start_of;
use baf_auditor::{Finding, Findings, Set};
use cli::EndedRun;
use cli_answers::{RunOutcome, Subject};
use cli_words::CommandWords;
use county_codes::Codes;
use field_lines::Fields;
use std::alloc::AllocError;
use std::fmt::Write;

/// The words for an audit's findings of one kind, for one of them and for several.
struct Kind {
    one: &'static str,
    several: &'static str,
}

/// The kinds of findings that are counted, in the order of an audit.
const KINDS: [Kind; 6] = [
    Kind {
        one: "block of a line isn't listed",
        several: "blocks of lines aren't listed",
    },
    Kind {
        one: "block stands on two lines or more",
        several: "blocks stand on two lines or more",
    },
    Kind {
        one: "block with people is in no district",
        several: "blocks with people are in no district",
    },
    Kind {
        one: "pair of sets has a district in common",
        several: "pairs of sets have a district in common",
    },
    Kind {
        one: "set has another number of districts than seats",
        several: "sets have another number of districts than seats",
    },
    Kind {
        one: "district has too many or too few people",
        several: "districts have too many or too few people",
    },
];

/// Appends what stands before a county: a blank if it `is_first`, and a comma and a blank before any other.
fn push_mark(out: &mut String, is_first: bool) -> Result<(), AllocError> {
    if is_first {
        out.push_str(" ")
    } else {
        out.push_str(", ")
    }
}

/// Appends a `line` of the answer that lists counties by their codes, with the names of `head` in place of the codes.
fn push_group(out: &mut String, head: &[u8], line: &[u8]) -> Result<(), AllocError> {
    out.push_str("countygroups:")?;
    let mut is_code = false;
    let mut is_first = true;
    for word in Fields::new(line, b' ') {
        if is_code {
            push_mark(out, is_first)?;
            push_county(out, head, word)?;
            is_first = false;
        } else if word == b"counties".as_slice() {
            out.push_str(":")?;
            is_code = true;
        } else {
            out.push_str(" ")?;
            push_word(out, word)?;
        }
    }
    out.push_str("\n")
}

/// Appends a `word` of the answer.
fn push_word(out: &mut String, word: &[u8]) -> Result<(), AllocError> {
    write!(out, "{}", start_of(word))
}

/// Returns whether a `line` of a listing stands above lines of groups.
fn is_heading(line: &[u8]) -> bool {
    match Fields::new(line, b' ').next() {
        Some(word) => word == b"shared".as_slice()
            || word == b"region".as_slice()
            || word == b"alternative".as_slice(),
        None => false,
    }
}

/// Returns whether a `line` of the answer is one of a group.
fn is_group(line: &[u8]) -> bool {
    Fields::new(line, b' ').next() == Some(b"group".as_slice())
}

/// Appends the groups of an `answer` with the names of their counties, and the headings above them.
fn push_groups(out: &mut String, head: &[u8], answer: &[u8]) -> Result<(), AllocError> {
    for line in Fields::new(answer, b'\n') {
        if is_group(line) {
            push_group(out, head, line)?;
        } else if is_heading(line) {
            out.push_str("countygroups: ")?;
            push_word(out, line)?;
            out.push_str("\n")?;
        }
    }
    Ok(())
}

/// Returns the index in `KINDS` of the kind of `finding`. Returns `None` if the finding is a fault of the grouping,
/// which isn't counted.
fn kind_of(finding: &Finding) -> Option<usize> {
    match finding {
        Finding::Grouping(_) => None,
        Finding::UnknownBlock(_) => Some(0),
        Finding::BlockTwice(_) => Some(1),
        Finding::Unassigned(_) => Some(2),
        Finding::Crosses(_, _, _) => Some(3),
        Finding::WrongNumber(_, _, _) => Some(4),
        Finding::DistrictSize(_, _) => Some(5),
    }
}

/// Appends how many of the `findings` there are of each kind. A kind without findings has no line.
fn push_kinds(out: &mut String, findings: &Findings) -> Result<(), AllocError> {
    for (place, kind) in KINDS.iter().enumerate() {
        let count = findings
            .list
            .iter()
            .filter(|finding| kind_of(finding) == Some(place))
            .count();
        match count {
            0 => {}
            1 => writeln!(out, "countygroups: 1 {}", kind.one)?,
            _ => writeln!(out, "countygroups: {count} {}", kind.several)?,
        }
    }
    Ok(())
}

/// Appends the names of the counties of a set that a finding names. `noun` and `number` tell which set it is.
fn push_set(
    out: &mut String,
    head: &[u8],
    noun: &str,
    number: u32,
    codes: &Codes,
) -> Result<(), AllocError> {
    write!(out, "countygroups: {noun} {number}:")?;
    let mut is_first = true;
    for code in codes.as_slice() {
        push_mark(out, is_first)?;
        let mut digits = String::new(*out.allocator());
        write!(&mut digits, "{code}")?;
        push_county(out, head, digits.as_bytes())?;
        is_first = false;
    }
    out.push_str("\n")
}

/// Appends the number of `findings` of each kind, and then the sets of `subject` that they name, with the names of
/// their counties. `head` is the start of the geographic header, which has these names.
fn push_findings(
    out: &mut String,
    head: &[u8],
    findings: &Findings,
    subject: &Subject,
) -> Result<(), AllocError> {
    push_kinds(out, findings)?;
    let named = named_sets(*out.allocator(), findings)?;
    if let Some(grouping) = &subject.grouping {
        for (number, group) in (1..=u32::MAX).zip(&grouping.groups) {
            if named.contains(&Set::Group(number)) {
                push_set(out, head, "group", number, &group.codes)?;
            }
        }
    }
    for (number, set) in (1..=u32::MAX).zip(subject.problem.withdrawn()) {
        if named.contains(&Set::Withdrawn(number)) {
            push_set(out, head, "withdrawn set", number, &set.codes)?;
        }
    }
    Ok(())
}

/// Returns whether the answer of `command` may have lines of groups.
fn has_groups(command: CommandWords<'_>) -> bool {
    matches!(
        command,
        CommandWords::Judge(_)
            | CommandWords::Solve(_)
            | CommandWords::Check(_)
            | CommandWords::List(_)
    )
}

/// Appends what a person at a terminal is told after the answer of `run`. This is either the groups of a report or of a
/// listing with the names of their counties, or the findings of an audit by kind. Appends nothing if the answer can
/// have no groups and there are no findings.
///
/// # Errors
///
/// Returns `AllocError` if memory was refused.
pub(crate) fn push_named(
    out: &mut String,
    options: Options<'_>,
    run: &EndedRun,
) -> Result<(), AllocError> {
    let head = run.notes.names_head.as_slice();
    if let (RunOutcome::Found(findings), Some(subject)) = (&run.outcome, &run.subject) {
        return push_findings(out, head, findings, subject);
    }
    match (options.command, &run.answer) {
        (Some(command), Some(answer)) if has_groups(command) => push_groups(out, head, answer),
        _ => Ok(()),
    }
}
