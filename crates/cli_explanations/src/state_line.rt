//! Whether the counties that were read are all of the state's, and whether both census files are of one state.

use crate::options::{Options, common_of};
use crate::shown_bytes::name_of;
use cli::Notes;
use cli_answers::FileOption;
use cli_words::{CommandWords, CountyWords};
use std::alloc::AllocError;
use std::fmt::Write;

/// Warns if the counties that were read have another number of people in all than the state's own line, as `notes`
/// tell. Says nothing if one of the two numbers was not read.
///
/// # Errors
///
/// Returns `AllocError` if memory was refused.
pub(crate) fn warn_of_state(
    out: &mut String,
    command: CommandWords<'_>,
    notes: &Notes,
) -> Result<(), AllocError> {
    let (Some((count, people)), Some(all)) = (notes.counties, notes.state_people) else {
        return Ok(());
    };
    if u64::from(all) == people {
        return Ok(());
    }
    let CountyWords::Census(census) = common_of(command).counties else {
        return Ok(());
    };
    let geo = name_of(census.geo);
    writeln!(
        out,
        "countygroups: warning: the {count} counties of --geo {geo} have {people} people, and the state's own line has {all}: the file may be cut short"
    )
}

/// Returns whether both of `letters` are ASCII letters.
fn are_letters(letters: [u8; 2]) -> bool {
    let [first, second] = letters;
    first.is_ascii_alphabetic() && second.is_ascii_alphabetic()
}

/// Appends the two ASCII `letters`.
fn push_letters(out: &mut String, letters: [u8; 2]) -> Result<(), AllocError> {
    let [first, second] = letters;
    let (first, second) = (char::from(first), char::from(second));
    write!(out, "{first}{second}")
}

/// Warns if the geographic header and segment 1 name two states, as `notes` tell. Says nothing if a name was not read
/// or isn't two ASCII letters.
///
/// # Errors
///
/// Returns `AllocError` if memory was refused.
pub(crate) fn warn_of_two_states(
    out: &mut String,
    options: Options<'_>,
    notes: &Notes,
) -> Result<(), AllocError> {
    let (Some(geo), Some(segment)) = notes.states else {
        return Ok(());
    };
    if geo == segment || !are_letters(geo) || !are_letters(segment) {
        return Ok(());
    }
    let segment_file = options.file(FileOption::Segment);
    let geo_file = options.file(FileOption::Geo);
    write!(out, "countygroups: warning: {segment_file} is of ")?;
    push_letters(out, segment)?;
    write!(out, ", and {geo_file} is of ")?;
    push_letters(out, geo)?;
    out.push_str(": they are files of two states\n")
}
