//! What is known of the text of a file at fault, for whoever explains the fault to a person.

use field_lines::Fields;

/// The text of a file at fault, so far as it is known.
#[derive(Drop)]
pub enum FaultText {
    /// All of it: the file was loaded.
    Whole(Vec<u8>),
    /// The file was read piece by piece.
    Read {
        /// Its first bytes, at most 65,536.
        head: Vec<u8>,
        /// The bytes of the line at fault, at most 65,536. There are none where the whole file is at fault.
        line: Vec<u8>,
    },
}

/// Returns the line of `text` that has `before` lines before it, if an LF ends it.
fn ended_line(text: &[u8], before: usize) -> Option<&[u8]> {
    let mut lines = Fields::new(text, b'\n');
    let line = lines.nth(before)?;
    let _next = lines.next()?;
    Some(line)
}

impl FaultText {
    /// Returns the first bytes of the file: all of them if it was loaded, or else at most 65,536.
    pub fn head(&self) -> &[u8] {
        match self {
            FaultText::Whole(text) => text.as_slice(),
            FaultText::Read { head, line: _ } => head.as_slice(),
        }
    }

    /// Returns the bytes of the line at fault, without its LF. `number` is the number of the line, which counts from 1.
    /// Returns `None` if the whole file is at fault, the text ends before the line, or the line isn't known.
    pub fn line(&self, number: u64) -> Option<&[u8]> {
        let before = usize::try_from(number.checked_sub(1)?).ok()?;
        match self {
            FaultText::Whole(text) => Fields::new(text.as_slice(), b'\n').nth(before),
            FaultText::Read { head, line } if line.is_empty() => ended_line(head, before),
            FaultText::Read { head: _, line } => Some(line.as_slice()),
        }
    }
}
