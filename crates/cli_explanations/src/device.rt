//! Why a file could not be read or stored.

use crate::machine_files::words_of_reason;
use crate::shown_bytes::{name_of, whole};
use cli_answers::FileOption;
use cli_file_stores::FileStoreFault;
use std::alloc::AllocError;
use std::fmt::Write;
use std::io::ErrorKind;

/// A file that could not be read or stored.
#[derive(Clone, Copy)]
pub(crate) struct Unmoved<'a> {
    /// The option that names it.
    pub(crate) option: FileOption,
    /// What the file store says.
    pub(crate) fault: FileStoreFault,
    /// Its path.
    pub(crate) path: &'a str,
    /// The kind of error that the system gave, if it gave one.
    pub(crate) reason: Option<ErrorKind>,
}

impl Unmoved<'_> {
    /// Returns why the file could not be read or stored.
    fn words(&self) -> &'static str {
        match (self.fault, self.reason) {
            (FileStoreFault::TooLarge, _) => "it has more than 1073741824 bytes",
            (FileStoreFault::Missing, _) => words_of_reason(ErrorKind::NotFound),
            (_, Some(ErrorKind::ResourceBusy)) if self.path == "-" => {
                "`-` is standard input, which can be read once, for one file"
            }
            (_, Some(reason)) => words_of_reason(reason),
            (_, None) => "the device failed",
        }
    }
}

/// Explains why `file` could not be read. If `is_case` is true it is a file of a case, and otherwise one of a command.
///
/// # Errors
///
/// Returns `AllocError` if memory was refused.
pub(crate) fn explain_unloaded(
    out: &mut String,
    file: Unmoved<'_>,
    is_case: bool,
) -> Result<(), AllocError> {
    let (option, name, words) = (file.option, name_of(file.path), file.words());
    if is_case {
        return writeln!(
            out,
            "countygroups: the case has no file {name} for {option}: each file stands behind a line `file NAME`"
        );
    }
    writeln!(
        out,
        "countygroups: {option} {name} could not be read: {words}\ncountygroups: give {option} a file that can be read, by its path from the folder where the program runs"
    )
}

/// Explains why `file` could not be stored.
///
/// # Errors
///
/// Returns `AllocError` if memory was refused.
pub(crate) fn explain_unstored(out: &mut String, file: Unmoved<'_>) -> Result<(), AllocError> {
    let (option, name, words) = (file.option, name_of(file.path), file.words());
    writeln!(
        out,
        "countygroups: {option} {name} could not be stored: {words}"
    )?;
    match file.reason {
        Some(ErrorKind::AlreadyExists) => writeln!(
            out,
            "countygroups: each run that is to store {name} has a file beside it, from {name}.countygroups.part to {name}.countygroups9.part: wait for one of them to end, or remove what killed runs left"
        ),
        _ => writeln!(
            out,
            "countygroups: give {option} a path where a file can be stored; what was stored before it stays"
        ),
    }
}

/// Appends `report`, the text of the answer of a run that could not store one of its files, with its control characters
/// escaped. Appends nothing if the text isn't UTF-8.
///
/// # Errors
///
/// Returns `AllocError` if memory was refused.
pub(crate) fn push_report(out: &mut String, report: &[u8]) -> Result<(), AllocError> {
    match str::from_utf8(report) {
        Ok(report) => {
            out.push_str("countygroups: the answer is:\n")?;
            for line in report.lines() {
                writeln!(out, "{}", whole(line))?;
            }
            Ok(())
        }
        Err(_) => Ok(()),
    }
}
