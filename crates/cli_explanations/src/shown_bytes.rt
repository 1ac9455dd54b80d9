//! Bytes of files and names as a terminal may show them.

use std::fmt;

/// The most characters of a line or a field that are shown.
const MOST: usize = 120;

/// Bytes as text. Control characters, byte order marks, marks that change the direction of text and bytes that aren't
/// UTF-8 are escaped, such as `\n`, `\x1b` and `\u202e`.
#[derive(Clone, Copy)]
pub(crate) struct Shown<'a> {
    bytes: &'a [u8],
    most: usize,
}

/// Returns the start of `bytes`, a line or a field, as it may be shown. That is up to 120 characters, where a byte that
/// isn't UTF-8 counts as one. Dots stand for the rest, if there is more.
pub(crate) fn start_of(bytes: &[u8]) -> Shown<'_> {
    Shown { bytes, most: MOST }
}

/// Returns a whole `text` as it may be shown.
pub(crate) fn whole(text: &str) -> Shown<'_> {
    Shown {
        bytes: text.as_bytes(),
        most: usize::MAX,
    }
}

/// Returns a whole `name` as it may be shown. An empty name is shown as two quotes.
pub(crate) fn name_of(name: &str) -> Shown<'_> {
    if name.is_empty() {
        whole("''")
    } else {
        whole(name)
    }
}

/// Returns whether `character` is one that Unicode's Bidirectional Algorithm (UAX #9, section 2) takes as a mark: it
/// changes the direction in which the characters behind it are shown, and isn't shown itself.
fn turns_text(character: char) -> bool {
    matches!(
        character,
        '\u{61c}' | '\u{200e}' | '\u{200f}' | '\u{202a}'..='\u{202e}' | '\u{2066}'..='\u{2069}'
    )
}

/// Writes a `character`, or its escape if it is a control character, a byte order mark or a mark that changes the
/// direction of text.
fn write_character<W: fmt::Write>(f: &mut fmt::Formatter<W>, character: char) -> fmt::Result {
    match character {
        '\n' => f.write_str("\\n"),
        '\r' => f.write_str("\\r"),
        '\t' => f.write_str("\\t"),
        '\u{feff}' => f.write_str("\\ufeff"),
        _ if turns_text(character) => write!(f, "\\u{:04x}", u32::from(character)),
        _ if character.is_control() => write!(f, "\\x{:02x}", u32::from(character)),
        _ => f.write_char(character),
    }
}

/// Writes the characters of `text`, up to `most` of them. Returns how many more may follow, or `None` if `text` has
/// more than `most`.
fn write_text<W: fmt::Write>(
    f: &mut fmt::Formatter<W>,
    text: &str,
    most: usize,
) -> Result<Option<usize>, fmt::Error> {
    let mut left = most;
    for character in text.chars() {
        if left == 0 {
            return Ok(None);
        }
        left -= 1;
        write_character(f, character)?;
    }
    Ok(Some(left))
}

/// Writes the escapes of `bytes` that aren't UTF-8, up to `most` of them. Returns how many more may follow, or `None`
/// if there are more bytes than `most`.
fn write_bytes<W: fmt::Write>(
    f: &mut fmt::Formatter<W>,
    bytes: &[u8],
    most: usize,
) -> Result<Option<usize>, fmt::Error> {
    let mut left = most;
    for byte in bytes {
        if left == 0 {
            return Ok(None);
        }
        left -= 1;
        write!(f, "\\x{byte:02x}")?;
    }
    Ok(Some(left))
}

impl fmt::Display for Shown<'_> {
    fn fmt<W: fmt::Write>(&self, f: &mut fmt::Formatter<W>) -> fmt::Result {
        let mut left = self.most;
        for chunk in self.bytes.utf8_chunks() {
            let Some(after_text) = write_text(f, chunk.valid(), left)? else {
                return f.write_str("..");
            };
            let Some(after_bytes) = write_bytes(f, chunk.invalid(), after_text)? else {
                return f.write_str("..");
            };
            left = after_bytes;
        }
        Ok(())
    }
}
