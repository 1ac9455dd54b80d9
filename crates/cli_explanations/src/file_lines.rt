//! Lines of a file at fault, and what a file looks like.

use cli_answers::{FaultText, FileOption};
use field_lines::{Fields, field_at};

/// What helps against a file that is a zip archive.
pub(crate) const UNZIP: &str =
    "countygroups: the file is a zip: unpack it with `unzip -p FILE > TEXT`; if it holds several files, name the one to unpack behind FILE\n";

/// The byte order mark, in UTF-8.
pub(crate) const BYTE_ORDER_MARK: &[u8] = b"\xef\xbb\xbf";

/// Returns the line of this `number`, counted from 1, with every byte but its LF.
pub(crate) fn whole_line(text: &[u8], number: u64) -> Option<&[u8]> {
    let before = usize::try_from(number.checked_sub(1)?).ok()?;
    Fields::new(text, b'\n').nth(before)
}

/// Returns `bytes` without a byte order mark at their front.
fn unmarked(bytes: &[u8]) -> &[u8] {
    bytes.strip_prefix(BYTE_ORDER_MARK).unwrap_or(bytes)
}

/// Returns the line of this `number` as a cut text has it: without a byte order mark at the front of the text, and
/// without a CR at its end.
pub(crate) fn cut_line(text: &[u8], number: u64) -> Option<&[u8]> {
    let line = whole_line(unmarked(text), number)?;
    Some(line.strip_suffix(b"\r").unwrap_or(line))
}

/// Returns the line at fault as a cut text has it, where `number` counts from 1. Returns `None` if the whole file is at
/// fault, or if the line isn't known. A reader's lines are cut already, except that a line that is too long keeps its
/// mark.
pub(crate) fn line_at_fault(text: &FaultText, number: u64) -> Option<&[u8]> {
    match text {
        FaultText::Whole(text) => cut_line(text, number),
        FaultText::Read { .. } => match text.line(number) {
            Some(line) if number == 1 => Some(unmarked(line)),
            line => line,
        },
    }
}

/// Returns the option of the census file that `text` begins like. The GEOID of a geographic header has `US` behind
/// seven characters. The CIFSN of a segment 1 is `01`, and its LOGRECNO has seven characters.
pub(crate) fn looks_like(text: &[u8]) -> Option<FileOption> {
    let line = cut_line(text, 1)?;
    match (
        field_at(line, b'|', 3),
        field_at(line, b'|', 4),
        field_at(line, b'|', 8),
    ) {
        (_, _, Some([_, _, _, _, _, _, _, b'U', b'S', ..])) => Some(FileOption::Geo),
        (Some([b'0', b'1']), Some([_, _, _, _, _, _, _]), _) => Some(FileOption::Segment),
        _ => None,
    }
}

/// Returns the STATE of the first county line in `text`, the start of a geographic header. A county line has `050` in
/// its field 3, and its field 13 is the STATE. Returns `None` if there is no such line or field.
pub(crate) fn county_state(text: &[u8]) -> Option<&[u8]> {
    for line in Fields::new(text, b'\n') {
        if let Some(b"050") = field_at(line, b'|', 2) {
            return field_at(line, b'|', 12);
        }
    }
    None
}

/// Returns whether `text` is UTF-16, by its byte order mark.
pub(crate) fn is_utf16(text: &[u8]) -> bool {
    matches!(text, [0xff, 0xfe, ..] | [0xfe, 0xff, ..])
}

/// Returns whether `text`, a file or its start, begins with the bytes `PK`, as a zip archive does.
pub(crate) fn is_zip(text: &[u8]) -> bool {
    text.starts_with(b"PK")
}
