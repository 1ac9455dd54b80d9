//! Words that are no command: what `clap` says of them.

use crate::shown_bytes::whole;
use std::alloc::AllocError;
use std::fmt::Write;

/// The words that `clap` uses for a value that is no number.
const NO_NUMBER: [&str; 2] = [
    "invalid digit found in string",
    "cannot parse integer from empty string",
];

/// Options that take a number where a person may give a word, as `clap` names them, and which numbers are meant.
const MEANT: [(&str, &str); 2] = [
    (
        "for '--state <CODE>'",
        "--state takes the state's two-digit FIPS number, as 37 for North Carolina",
    ),
    (
        "for '--chamber <SEATS>'",
        "--chamber takes the number of seats, as 50 for North Carolina's Senate and 120 for its House",
    ),
];

/// Returns the name of the command that the `text` of `clap` names in its usage, or else the first of `words`. Returns
/// an empty name if that doesn't begin with a small letter.
fn command_named<'a>(words: &[&'a str], text: &'a str) -> &'a str {
    let name = match text.split_once("\nUsage: countygroups ") {
        Some((_, usage)) => usage.split(' ').next().unwrap_or(""),
        None => words.first().copied().unwrap_or(""),
    };
    match name.as_bytes() {
        [b'a'..=b'z', ..] => name,
        _ => "",
    }
}

/// Appends the first lines of `text`, up to a blank one, and its tip.
fn push_error(out: &mut String, text: &str) -> Result<(), AllocError> {
    let (error, rest) = text.split_once("\n\n").unwrap_or((text, ""));
    for line in error.lines() {
        let line = whole(line);
        writeln!(out, "countygroups: {line}")?;
    }
    match rest.strip_prefix("  tip: ") {
        Some(rest) => {
            let (tip, _) = rest.split_once('\n').unwrap_or((rest, ""));
            let tip = whole(tip);
            writeln!(out, "countygroups: tip: {tip}")
        }
        None => Ok(()),
    }
}

/// Says which numbers an option takes, if `text` tells that its value is no number.
fn push_meaning(out: &mut String, text: &str) -> Result<(), AllocError> {
    let is_word = NO_NUMBER.iter().any(|words| text.contains(*words));
    for (option, meaning) in MEANT {
        if is_word && text.contains(option) {
            writeln!(out, "countygroups: {meaning}")?;
        }
    }
    Ok(())
}

/// Explains `words` that are no command: what `clap` says of them, which numbers are meant, and which help tells the
/// words. What `clap` says is left out if it is `shown` on the same terminal already.
///
/// # Errors
///
/// Returns `AllocError` if memory was refused.
pub(crate) fn explain_usage(
    out: &mut String,
    words: &[&str],
    text: &str,
    shown: bool,
) -> Result<(), AllocError> {
    if words.is_empty() {
        out.push_str("countygroups: line 1 of the case is no command\n")?;
    }
    if !shown {
        push_error(out, text)?;
    }
    push_meaning(out, text)?;
    match command_named(words, text) {
        "" => out.push_str("countygroups: `countygroups --help` tells the commands\n"),
        name => writeln!(
            out,
            "countygroups: `countygroups {name} --help` tells the words"
        ),
    }
}
