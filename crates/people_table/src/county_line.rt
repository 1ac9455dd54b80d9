//! The county on a line of a table.

ghost use Rattle.std.specs.Prelude.{◌≡◌, true, false, IfOk, MatchOption};
ghost use Rattle.std.specs.{Option.option_map, Str.is_utf8};
ghost use Rattle.field_lines.specs.{Values.GivesUnless, Number.digits_of};
ghost use Rattle.people_table.specs.CountyLines.{has_byte as line_has_byte, delimiter_on as delimiter_by, is_header as is_header_line};
ghost use Rattle.people_table.specs.CountyLines.{texts_of, county_in as county_of_texts, county_on as county_of_line};
ghost use Rattle.people_table.specs.declared.fault.PeopleKind.TheVariants.{Memory};

use crate::fault::PeopleKind;
use crate::fields::fields_of;
use crate::found::FoundCounty;
use county_codes::CountyCode;
use field_lines::{five_digits, number_in};
use std::alloc::{AllocError, Global};

/// The delimiter of a table, unless its first line calls for the pipe.
pub(crate) const COMMA: u8 = b',';

/// The delimiter of a table whose first line has a pipe and no comma.
const PIPE: u8 = b'|';

/// Returns whether the `line` has the `byte`.
fn has_byte(line: &[u8], byte: u8) -> bool
    ensures { result ≡ line_has_byte byte line.now }
{
    line.iter().any(|b| *b == byte)
}

/// Returns the delimiter of a table that has this first `line`: the pipe if it has a pipe and no comma, and else the
/// comma.
pub(crate) fn delimiter_on(line: &[u8]) -> u8
    ensures { result ≡ delimiter_by line.now }
{
    if has_byte(line, PIPE) && !has_byte(line, COMMA) {
        PIPE
    } else {
        COMMA
    }
}

/// Returns the county code that a `field` of exactly five ASCII digits spells. Returns `None` for any other field.
fn code_in(field: &[u8]) -> Option<CountyCode>
    ensures { result ≡ digits_of 5 field.now }
{
    CountyCode::new(five_digits(field)?)
}

/// Returns whether the first `line` of a table with this `delimiter` is a header: its first field isn't five digits. A
/// line whose quotes are wrong is no header.
pub(crate) fn is_header(alloc: Global, delimiter: u8, line: &[u8]) -> Result<bool, AllocError>
    ensures { IfOk result (λ b. b ≡ is_header_line delimiter line.now) }
{
    match fields_of(alloc, delimiter, line)? {
        Some(fields) => match fields.as_slice() {
            [first, ..] => Ok(code_in(first.as_slice()).is_none()),
            [] => Ok(false),
        },
        None => Ok(false),
    }
}

/// Returns `bytes` as text, or `None` if they aren't UTF-8.
fn text_of(bytes: &[u8]) -> Option<&str>
    ensures { MatchOption result (is_utf8 bytes.now ≡ false) (λ s. (s.now ≡ bytes.now) × (is_utf8 bytes.now ≡ true)) }
{
    match str::from_utf8(bytes) {
        Ok(text) => Some(text),
        Err(_) => None,
    }
}

/// Returns the county of these texts: the five digits of its `code`, its `people`, and its `name`.
///
/// # Errors
///
/// Returns `BadCode`, then `BadNumber`, then `BadName` if a text is wrong. Returns `Memory` if memory was refused.
#[tactic(auto, unfolding(crate::specs::CountyLines::county_in))]
fn county_in(
    alloc: Global,
    code: &[u8],
    people: &[u8],
    name: &[u8],
) -> Result<FoundCounty, PeopleKind>
    ensures { GivesUnless (λ k. k ≡ Memory) (λ f. f) result (county_of_texts (record { code = code.now; people = people.now; name = name.now })) }
{
    let code = code_in(code).ok_or(PeopleKind::BadCode)?;
    let people = number_in(people, 0, u32::MAX).ok_or(PeopleKind::BadNumber)?;
    let name = text_of(name).ok_or(PeopleKind::BadName)?;
    match FoundCounty::new(alloc, code, people, name) {
        Ok(county) => Ok(county),
        Err(_) => Err(PeopleKind::Memory),
    }
}

/// Returns the county on a `line` of a table with this `delimiter`.
///
/// # Errors
///
/// Returns `BadLine` if the line hasn't two fields or three, or if its quotes are wrong. Then returns `BadCode`,
/// `BadNumber` or `BadName` if the field is wrong. `Memory` may come in the place of any answer.
pub(crate) fn county_on(
    alloc: Global,
    delimiter: u8,
    line: &[u8],
) -> Result<FoundCounty, PeopleKind>
    ensures { GivesUnless (λ k. k ≡ Memory) (λ f. f) result (county_of_line delimiter line.now) }
{
    match fields_of(alloc, delimiter, line) {
        Ok(Some(fields)) => match fields.as_slice() {
            [code, people] => county_in(alloc, code.as_slice(), people.as_slice(), b""),
            [code, people, name] => {
                county_in(alloc, code.as_slice(), people.as_slice(), name.as_slice())
            }
            [] => Err(PeopleKind::BadLine),
            [_] => Err(PeopleKind::BadLine),
            [_, _, _, _, ..] => Err(PeopleKind::BadLine),
        },
        Ok(None) => Err(PeopleKind::BadLine),
        Err(_) => Err(PeopleKind::Memory),
    }
}
