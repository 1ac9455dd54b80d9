//! The names of counties, as the first bytes of a geographic header or a table of counties have them.

use crate::shown_bytes::start_of;
use field_lines::Fields;
use std::alloc::AllocError;
use std::fmt::Write;

/// Returns the NAME on a `line` of the geographic header, if the line is for the county of `code`. A code has five
/// digits.
fn name_on<'a>(line: &'a [u8], code: &[u8]) -> Option<&'a [u8]> {
    let [first, second, county_code @ ..] = code else {
        return None;
    };
    let mut fields = Fields::new(line, b'|');
    let level = fields.nth(2)?;
    let component = fields.nth(1)?;
    let state = fields.nth(7)?;
    let county = fields.nth(1)?;
    let name = fields.nth(72)?;
    let is_county = level == b"050".as_slice() && component == b"00".as_slice();
    let is_of_code = state == [*first, *second].as_slice() && county == county_code;
    if is_county && is_of_code && !name.is_empty() {
        Some(name)
    } else {
        None
    }
}

/// Returns `field` without the quotes around it, if it has them.
fn without_quotes(field: &[u8]) -> &[u8] {
    let inner = match field.strip_prefix(b"\"") {
        Some(rest) => rest.strip_suffix(b"\""),
        None => None,
    };
    inner.unwrap_or(field)
}

/// Returns the name on a `line` of a table of counties whose fields have this `delimiter` between them, if the line is
/// for the county of `code`. It is the rest of the line behind the second delimiter.
fn people_name_on<'a>(line: &'a [u8], delimiter: u8, code: &[u8]) -> Option<&'a [u8]> {
    let line = line.strip_suffix(b"\r").unwrap_or(line);
    let mut fields = Fields::new(line, delimiter);
    let is_of_code = without_quotes(fields.next()?) == code;
    let people = fields.next()?;
    let name = without_quotes(fields.next()?);
    if is_of_code && !people.is_empty() && !name.is_empty() {
        Some(name)
    } else {
        None
    }
}

/// Returns the name of the county of `code` on a `line` of either file, if the line is for it.
fn any_name_on<'a>(line: &'a [u8], code: &[u8]) -> Option<&'a [u8]> {
    if let Some(name) = name_on(line, code) {
        return Some(name);
    }
    match people_name_on(line, b',', code) {
        Some(name) => Some(name),
        None => people_name_on(line, b'|', code),
    }
}

/// Returns the name of the county of `code`, if a whole line in `head` has it. `head` is the beginning of a geographic
/// header, whose last line may be cut, or a table of counties.
fn name_in<'a>(head: &'a [u8], code: &[u8]) -> Option<&'a [u8]> {
    let mut whole: Option<&[u8]> = None;
    for line in Fields::new(head, b'\n') {
        if let Some(before) = whole {
            if let Some(name) = any_name_on(before, code) {
                return Some(name);
            }
        }
        whole = Some(line);
    }
    match whole {
        Some(last) => any_name_on(last, code),
        None => None,
    }
}

/// Appends the name of the county of `code`, or the code if `head` doesn't have the name.
///
/// # Errors
///
/// Returns `AllocError` if memory was refused.
pub(crate) fn push_county(out: &mut String, head: &[u8], code: &[u8]) -> Result<(), AllocError> {
    match name_in(head, code) {
        Some(name) => write!(out, "{}", start_of(name)),
        None => write!(out, "{}", start_of(code)),
    }
}
