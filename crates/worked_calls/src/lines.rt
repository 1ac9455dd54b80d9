//! Lines, pieces and fields of texts.

use anyhow::Result;
use field_lines::{Fields, Lines, RawLines, field_at};

/// More lines and pieces than any text here has.
const MANY: u32 = 20;

/// Prints a `line` with its `number`.
fn show_line(rt: &HostRuntime, number: u32, line: &[u8]) -> Result<()> {
    println!(rt; "{number} {:?}", str::from_utf8(line)?)?;
    Ok(())
}

/// Prints the lines of a `text`. Returns an error if a line has a fault.
fn show_lines(rt: &HostRuntime, text: &str) -> Result<()> {
    println!(rt; "lines of {text:?}")?;
    let mut lines = Lines::new(text.as_bytes());
    for _ in 0..MANY {
        let Some((number, line)) = lines.next_line()? else {
            break;
        };
        show_line(rt, number, line)?;
    }
    Ok(())
}

/// Prints what three calls give of a `text`: the length of a line in bytes, the end, or a fault. A fault stays.
fn show_lengths(rt: &HostRuntime, text: &str) -> Result<()> {
    println!(rt; "lines of {} bytes", text.len())?;
    let mut lines = Lines::new(text.as_bytes());
    for _ in 0..3 {
        match lines.next_line() {
            Ok(Some((number, line))) => println!(rt; "{number}: {} bytes", line.len())?,
            Ok(None) => println!(rt; "end")?,
            Err(fault) => println!(rt; "{fault}: {}", fault.line())?,
        }
    }
    Ok(())
}

/// Prints the first pieces of `text`, at most 20, each with its number and whether an LF ended it.
fn show_pieces(rt: &HostRuntime, text: &[u8]) -> Result<()> {
    println!(rt; "pieces of {:?}", str::from_utf8(text)?)?;
    let mut pieces = RawLines::new(text);
    for _ in 0..MANY {
        let Some(piece) = pieces.next_piece() else {
            break;
        };
        let bytes = str::from_utf8(piece.bytes)?;
        println!(rt; "{} {bytes:?} ended {}", piece.number, piece.ended)?;
    }
    Ok(())
}

/// Prints the fields of a `line`, which the `delimiter` separates.
fn show_fields(rt: &HostRuntime, line: &str, delimiter: u8) -> Result<()> {
    println!(rt; "fields of {line:?}")?;
    for field in Fields::new(line.as_bytes(), delimiter) {
        println!(rt; "{:?}", str::from_utf8(field)?)?;
    }
    Ok(())
}

/// Prints the field of a `line` at this `index`, or that there is none.
fn show_field(rt: &HostRuntime, line: &str, delimiter: u8, index: usize) -> Result<()> {
    match field_at(line.as_bytes(), delimiter, index) {
        Some(field) => println!(rt; "field {index} of {line:?}: {:?}", str::from_utf8(field)?)?,
        None => println!(rt; "field {index} of {line:?}: none")?,
    }
    Ok(())
}

/// Texts with marks, carriage returns, blank lines and a last piece.
const TEXTS: &[&str] = &[
    "",
    "\u{feff}",
    "\u{feff}\r\n\n\r\na",
    "a\r\r\n\n b\r",
    "a\n\u{feff}b\n",
    "\u{feff}County Name|County GEOID|Neighbor Name|Neighbor GEOID|Length\r\nA|37001|A|37001|0\r\nA|37001|B|37003|12\r\nC|37005|B|37003|9\r\nA|37001|X|51001|3\r\n",
];

/// Prints the lines of texts.
fn show_texts(rt: &HostRuntime) -> Result<()> {
    for text in TEXTS {
        show_lines(rt, text)?;
    }
    Ok(())
}

/// Prints how long the lines are of the text `before`, `count` letters and the text `after`.
fn show_letters(rt: &HostRuntime, before: &str, count: usize, after: &str) -> Result<()> {
    let letters = "x".repeat(rt.alloc(), count)?;
    let text = format!(in rt.alloc(); "{before}{letters}{after}")?;
    show_lengths(rt, &text)
}

/// Prints how long lines may be.
fn show_long(rt: &HostRuntime) -> Result<()> {
    show_letters(rt, "", 65_536, "")?;
    show_letters(rt, "", 65_537, "")?;
    show_letters(rt, "x\n", 65_536, "")?;
    show_letters(rt, "x\n", 65_536, "\r")
}

/// Prints lines, pieces and fields.
pub(crate) fn show(rt: &HostRuntime) -> Result<()> {
    show_texts(rt)?;
    show_long(rt)?;
    show_pieces(rt, b"\xEF\xBB\xBFa\r\n\nb")?;
    show_pieces(rt, b"a\n")?;
    for line in ["", "|", "a|b|", "A|37001|X|51001|3"] {
        show_fields(rt, line, b'|')?;
    }
    for index in [1, 2, 3] {
        show_field(rt, "a,b,", b',', index)?;
    }
    Ok(())
}
