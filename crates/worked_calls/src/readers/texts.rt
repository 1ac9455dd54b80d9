//! Texts that are cut into lines.

use std::alloc::{AllocError, Global};

/// Two lines, each with its LF.
const ENDED: &str = "ab\ncdefghijk\n";

/// A byte order mark, CRLF, a blank line, a line with a pipe, and a last line without LF.
const MIXED: &str = "\u{feff}a\r\n\nbc|d\r\nefghi";

/// Texts and their names.
pub(crate) const TEXTS: &[(&str, &str)] = &[
    ("nothing", ""),
    ("a mark", "\u{feff}"),
    ("blank lines", "\u{feff}\r\n\n\r\n"),
    ("a last line with LF", ENDED),
    ("a last line without LF", "ab\ncdefghijk"),
    ("CR and marks inside", "a\r\r\n\n b\r\n\u{feff}c\r"),
    ("a mixed text", MIXED),
];

/// Texts and their names, whose sources are to fail.
pub(crate) const FAILING: &[(&str, &str)] = &[
    ("a last line with LF", ENDED),
    ("a mixed text", MIXED),
];

/// Returns a text of a short line, a line of this many `letters`, and a short line.
pub(crate) fn long_text(alloc: Global, letters: usize) -> Result<String, AllocError> {
    let long = "x".repeat(alloc, letters)?;
    format!(in alloc; "ab\n{long}\ncd\n")
}
