//! The cases of a file.

use anyhow::Result;
use field_lines::RawLines;
use std::alloc::Global;
use std::str;

/// A case: what is tried, its name, and its bytes.
#[derive(Drop)]
pub(crate) struct Case<'a> {
    /// What is tried.
    pub(crate) kind: &'a str,
    /// What the case is called.
    pub(crate) name: &'a str,
    /// The bytes of its lines.
    pub(crate) bytes: Vec<u8>,
}

/// Returns the kind and the name of the case that a `line` begins, or `None` if it begins none.
fn title<'a>(line: &'a [u8]) -> Option<(&'a str, &'a str)> {
    let words = str::from_utf8(line).ok()?;
    words.strip_prefix("== ")?.split_once(": ")
}

/// Returns the cases of a `text`. Lines in front of the first case are left out.
pub(crate) fn cases_of<'a>(alloc: Global, text: &'a [u8]) -> Result<Vec<Case<'a>>> {
    let mut cases: Vec<Case<'a>> = Vec::new(alloc);
    let mut lines = RawLines::new(text);
    for _ in 0..text.len() {
        let Some(piece) = lines.next_piece() else {
            break;
        };
        if let Some((kind, name)) = title(piece.bytes) {
            let bytes = Vec::new(alloc);
            cases.push(Case { kind, name, bytes })?;
        } else if let Some(case) = cases.last_mut() {
            case.bytes.extend_from_slice(piece.bytes)?;
            if piece.ended {
                case.bytes.push(b'\n')?;
            }
        }
    }
    Ok(cases)
}
