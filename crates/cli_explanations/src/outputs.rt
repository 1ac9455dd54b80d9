//! The files that commands store: what is amiss with their names before the run, and what stays under them after it.

use crate::machine_files::{closed_reason, is_one_file, is_plain, take_one_place, words_of_reason};
use crate::options::{Options, path_in};
use crate::shown_bytes::name_of;
use cli::StoredFiles;
use cli_answers::FileOption;
use cli_words::CommandWords;
use std::alloc::{AllocError, Global};
use std::fmt::Write;
use std::io::ErrorKind;
use std::rt::Files;

/// The options of the files that commands read.
const INPUTS: [FileOption; 11] = [
    FileOption::Geo,
    FileOption::Segment,
    FileOption::People,
    FileOption::Adjacency,
    FileOption::Links,
    FileOption::Withdrawn,
    FileOption::Certificate,
    FileOption::Grouping,
    FileOption::Which,
    FileOption::Assignments,
    FileOption::Events,
];

/// The options of the files that commands store, in their order, and what each file is.
const OUTPUTS: [(FileOption, &str); 7] = [
    (FileOption::CertificateOut, "certificate"),
    (FileOption::Out, "grouping"),
    (FileOption::Table, "table"),
    (FileOption::Groupings, "table of all groupings"),
    (FileOption::Districts, "table of the districts"),
    (FileOption::EventsOut, "text of events"),
    (FileOption::Record, "record"),
];

/// A file that a command is to store.
#[derive(Clone, Copy)]
pub struct Output<'a> {
    /// The option that names it.
    option: FileOption,
    /// Its path.
    pub path: &'a str,
    /// The kind of error that the system gave when the file beside it was opened before the run, if it gave one.
    pub reason: Option<ErrorKind>,
}

/// Returns the files that the command of `options` is to store, in their order. There are none if it is unknown.
///
/// # Errors
///
/// Returns `AllocError` if memory was refused.
pub fn outputs_of<'a>(alloc: Global, options: Options<'a>) -> Result<Vec<Output<'a>>, AllocError> {
    let mut outputs = Vec::new(alloc);
    let Some(command) = options.command else {
        return Ok(outputs);
    };
    for (option, _) in OUTPUTS {
        if let Some(path) = path_in(command, option) {
            outputs.push(Output {
                option,
                path,
                reason: None,
            })?;
        }
    }
    Ok(outputs)
}

/// Returns whether one of the `stored` files is the one of `path`.
fn has_stored(rt: &impl Files, command: CommandWords<'_>, stored: StoredFiles, path: &str) -> bool {
    for (option, _) in OUTPUTS {
        if stored.has(option) {
            if let Some(other) = path_in(command, option) {
                if is_one_file(rt, other, path) {
                    return true;
                }
            }
        }
    }
    false
}

/// Warns if the output of `option`, whose name is `path`, is the file of an input.
fn warn_of_inputs(
    rt: &impl Files,
    out: &mut String,
    command: CommandWords<'_>,
    (option, path): (FileOption, &str),
) -> Result<(), AllocError> {
    for input in INPUTS {
        if let Some(other) = path_in(command, input) {
            if take_one_place(rt, other, path) {
                let name = name_of(path);
                writeln!(
                    out,
                    "countygroups: warning: {option} {name} is the file of {input} too, and what is stored takes its place"
                )?;
            }
        }
    }
    Ok(())
}

/// Warns if `output` can't be stored, as the opening of the file beside it told.
fn warn_of_name(rt: &impl Files, out: &mut String, output: Output<'_>) -> Result<(), AllocError> {
    match output.reason {
        None | Some(ErrorKind::OutOfMemory) => Ok(()),
        Some(reason) => {
            let (option, name) = (output.option, name_of(output.path));
            let words = match closed_reason(rt, output.path) {
                Some(words) => words,
                None => words_of_reason(reason),
            };
            writeln!(
                out,
                "countygroups: warning: {option} {name} can't be stored: {words}"
            )
        }
    }
}

/// Says that the outputs of `first` and `second` are one file, and how both name it.
fn push_names(
    out: &mut String,
    (first, one): (FileOption, &str),
    (second, other): (FileOption, &str),
) -> Result<(), AllocError> {
    let (name, spelled) = (name_of(one), name_of(other));
    if one == other {
        return write!(
            out,
            "countygroups: warning: {first} and {second} are both {name}"
        );
    }
    write!(
        out,
        "countygroups: warning: {first} {name} and {second} {spelled} are one file"
    )
}

/// Warns if an output that is stored before the one of `second` is the same file, which is that of `path`. `later`
/// tells what the file of `second` is.
fn warn_of_one_name(
    rt: &impl Files,
    out: &mut String,
    command: CommandWords<'_>,
    (second, later): (FileOption, &str),
    path: &str,
) -> Result<(), AllocError> {
    for (first, earlier) in OUTPUTS {
        if first == second {
            break;
        }
        if let Some(one) = path_in(command, first) {
            if take_one_place(rt, one, path) {
                push_names(out, (first, one), (second, path))?;
                writeln!(out, ": a {later} takes the place of the {earlier}")?;
            }
        }
    }
    Ok(())
}

/// Warns of each two outputs of `command` that are one file.
fn warn_of_shared_names(
    rt: &impl Files,
    out: &mut String,
    command: CommandWords<'_>,
) -> Result<(), AllocError> {
    for (option, noun) in OUTPUTS {
        if let Some(path) = path_in(command, option) {
            warn_of_one_name(rt, out, command, (option, noun), path)?;
        }
    }
    Ok(())
}

/// Warns of what is amiss with the `outputs` of `command`, before the run. An output may be the file of another output
/// or of an input, or no file can be stored under its name.
///
/// # Errors
///
/// Returns `AllocError` if memory was refused.
pub(crate) fn warn_of_outputs(
    rt: &impl Files,
    out: &mut String,
    command: CommandWords<'_>,
    outputs: &[Output<'_>],
) -> Result<(), AllocError> {
    warn_of_shared_names(rt, out, command)?;
    for output in outputs {
        warn_of_inputs(rt, out, command, (output.option, output.path))?;
        warn_of_name(rt, out, *output)?;
    }
    Ok(())
}

/// Warns of older files that stay under the names of outputs because none of the `stored` files took their place.
///
/// # Errors
///
/// Returns `AllocError` if memory was refused.
pub(crate) fn warn_of_older_files(
    rt: &impl Files,
    out: &mut String,
    command: CommandWords<'_>,
    stored: StoredFiles,
) -> Result<(), AllocError> {
    for (option, _) in OUTPUTS {
        match path_in(command, option) {
            Some(path) if !has_stored(rt, command, stored, path) && is_plain(rt, path) => {
                let name = name_of(path);
                writeln!(
                    out,
                    "countygroups: warning: nothing was stored as {option} {name}: the file of that name is an older one"
                )?;
            }
            _ => {}
        }
    }
    Ok(())
}
