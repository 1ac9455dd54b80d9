//! What an adjacency file seems to be if it has no border of the state's counties, before the run.

use crate::file_lines::{BYTE_ORDER_MARK, is_utf16, is_zip};
use crate::machine_files::is_plain;
use crate::options::{NamedFile, Options, common_of};
use crate::refusals::remedy;
use crate::shown_bytes::start_of;
use cli_answers::FileOption;
use cli_file_stores::read_whole;
use field_lines::{Fields, Reading, field_at};
use std::alloc::AllocError;
use std::fmt::Write;
use std::fs;
use std::rt::Files;

/// The most bytes of an adjacency file that are read before a run. That of the whole country has some 3,000,000.
const MOST: usize = 67_108_864;

/// The pairs of counties in a file.
#[derive(Clone, Copy)]
enum Pairs<'a> {
    /// There is one whose counties are both of the state.
    OfState,
    /// There are only others, of which these are the codes of the first.
    OfOthers(&'a [u8], &'a [u8]),
    /// There is no line but a header.
    Missing,
    /// The run refuses a line, and says so itself.
    Refused,
}

/// Returns the `field` if it is five digits, as a county's code is.
fn code_in(field: &[u8]) -> Option<&[u8]> {
    if field.len() == 5 && field.iter().all(|byte| byte.is_ascii_digit()) {
        Some(field)
    } else {
        None
    }
}

/// Returns the codes of the county and of its neighbour on a `line` of an adjacency file. Returns `None` if it lacks one
/// of them.
fn codes_on(line: &[u8]) -> Option<(&[u8], &[u8])> {
    let county = code_in(field_at(line, b'|', 1)?)?;
    let neighbour = code_in(field_at(line, b'|', 3)?)?;
    Some((county, neighbour))
}

/// Returns which pairs the `text` of an adjacency file has, where the codes of the state begin with these `digits`.
fn pairs_in<'a>(text: &'a [u8], digits: &[u8]) -> Pairs<'a> {
    let mut pairs = Pairs::Missing;
    let mut at_first = true;
    for line in Fields::new(text, b'\n') {
        match codes_on(line.strip_suffix(b"\r").unwrap_or(line)) {
            Some((county, neighbour)) => {
                if county.starts_with(digits) && neighbour.starts_with(digits) {
                    return Pairs::OfState;
                }
                if matches!(pairs, Pairs::Missing) {
                    pairs = Pairs::OfOthers(county, neighbour);
                }
            }
            None if at_first || line.is_empty() => {}
            None => return Pairs::Refused,
        }
        at_first = false;
    }
    pairs
}

/// Returns whether `text` begins like a table of dBASE III, which a shapefile has beside it: its version, and a month
/// and a day of its last change.
fn is_dbase(text: &[u8]) -> bool {
    matches!(text, [0x03 | 0x83, _, 1..=12, 1..=31, ..])
}

/// Returns what `text` seems to be, in which there is no pair of counties.
fn kind_of(text: &[u8]) -> &'static str {
    let marked = text.strip_prefix(BYTE_ORDER_MARK).unwrap_or(text);
    let line = Fields::new(marked, b'\n').next().unwrap_or(b"");
    match marked.trim_ascii_start() {
        [] => "is empty",
        _ if is_zip(text) => "seems to be a zip",
        _ if is_utf16(text) => "seems to be UTF-16",
        _ if is_dbase(text) => "seems to be a table of a shapefile (dBASE)",
        [b'{' | b'[', ..] => "seems to be JSON",
        [b'<', ..] => "seems to be HTML or XML",
        _ if line.contains(&b'|') => "has no line behind its header",
        _ if line.contains(&b',') => "seems to have commas between its fields",
        _ if line.contains(&b'\t') => "seems to have tabs between its fields",
        _ => "has no pipes between its fields",
    }
}

/// Returns the text of the file of `path`, if it is a plain one that can be read and isn't too large. Standard input,
/// which has the name `-`, is left for the run.
fn text_of(rt: &(impl Files + AllocGlobal), path: &str) -> Option<Vec<u8>> {
    if path == "-" || !is_plain(rt, path) {
        return None;
    }
    let mut source = Reading::new(fs::open(rt, path).ok()?);
    read_whole(rt.alloc(), &mut source, MOST).ok()
}

/// Returns the two digits with which the county codes of `state` begin.
fn digits_of(state: u8) -> [u8; 2] {
    [b'0' + state / 10, b'0' + state % 10]
}

/// Warns that `file`, whose `text` is known, has no border of the counties of `state`, and says what it seems to be.
/// Returns whether it has none.
fn warn_of_text(
    out: &mut String,
    file: NamedFile<'_>,
    (text, state): (&[u8], u8),
) -> Result<bool, AllocError> {
    match pairs_in(text, &digits_of(state)) {
        Pairs::OfState | Pairs::Refused => return Ok(false),
        Pairs::OfOthers(county, neighbour) => {
            let (county, neighbour) = (start_of(county), start_of(neighbour));
            write!(
                out,
                "countygroups: warning: {file} has counties of other states, as {county} and {neighbour}, and --state is {state:02}"
            )?;
        }
        Pairs::Missing => {
            let kind = kind_of(text);
            write!(out, "countygroups: warning: {file} {kind}")?;
        }
    }
    let words = remedy(FileOption::Adjacency);
    writeln!(
        out,
        ": no border was read from it, so that no two counties are adjacent but by --links\ncountygroups: {words}"
    )?;
    Ok(true)
}

/// Warns if the adjacency file of the command of `options` has no border of the state's counties. Returns whether it
/// has none. Nothing is known of a pipe, which can be read once.
///
/// # Errors
///
/// Returns `AllocError` if memory was refused.
pub(crate) fn warn_of_borders(
    rt: &(impl Files + AllocGlobal),
    out: &mut String,
    options: Options<'_>,
) -> Result<bool, AllocError> {
    let file = options.file(FileOption::Adjacency);
    let (Some(command), Some(path)) = (options.command, file.path) else {
        return Ok(false);
    };
    match text_of(rt, path) {
        Some(text) => warn_of_text(out, file, (&text, common_of(command).state)),
        None => Ok(false),
    }
}
