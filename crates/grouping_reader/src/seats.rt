//! The seats and the county codes of a line.

ghost use Rattle.std.specs.{Prelude.{◌≡◌, length, drop, true, is_some, IfErr}, Option.option_and_then};
ghost use Rattle.field_lines.specs.{Fields.{fields_of, field_of}, Values.GivesUnless};
ghost use Rattle.field_lines.specs.Number.{number_in as number_spelled, digits_of};
ghost use Rattle.grouping_reader.specs.{SeatLine.{codes_on, seat_line}, declared.fault.CodeLineKind.TheVariants.Memory};

use crate::fault::CodeLineKind;
use county_codes::{Codes, CountyCode};
use field_lines::{Fields, field_at, five_digits, number_in};
use std::alloc::Global;

/// The byte between two fields of a line.
pub const DELIMITER: u8 = b'|';

/// Returns the county code that a `field` of exactly five ASCII digits spells. Returns `None` for any other field.
pub fn code_in(field: &[u8]) -> Option<CountyCode>
    ensures { result ≡ digits_of 5 field.now }
{
    CountyCode::new(five_digits(field)?)
}

/// Reads the codes of the fields of `line` from the second on. Returns `BadCode` if one of them isn't five digits, or
/// `Memory` if memory was refused.
fn codes_in(alloc: Global, line: &[u8]) -> Result<Codes, CodeLineKind>
    ensures { GivesUnless (λ f. f ≡ Memory) (λ c. c) result (codes_on (drop 1 (fields_of 124 line.now))) }
{
    let mut codes = Vec::new(alloc);
    let mut fields = Fields::new(line, DELIMITER);
    let _seats = fields.next();
    while let Some(field) = fields.next() {
        let code = code_in(field).ok_or(CodeLineKind::BadCode)?;
        codes.push(code)?;
    }
    Ok(Codes::new(codes))
}

/// Reads the seats and the county codes of a `line`, which is cut into fields at each pipe. Field 1 is a number of
/// seats from `least` to `greatest`: one or more ASCII digits, with leading zeros allowed. Each field from the second
/// on is a code of exactly five digits.
///
/// # Errors
///
/// Returns `TooFewFields` if the line has fewer than 2 fields. Otherwise returns `BadSeats` if field 1 isn't such a
/// number, and then `BadCode` if a later field isn't five digits. Returns `Memory` only if memory was refused. It may
/// take the place of `BadCode` or of an answer, but never that of `TooFewFields` or `BadSeats`.
#[tactic(auto, unfolding(crate::specs::SeatLine::seat_line))]
pub fn seats_and_codes(
    alloc: Global,
    line: &[u8],
    least: u16,
    greatest: u16,
) -> Result<(u16, Codes), CodeLineKind>
    ensures value { GivesUnless (λ f. f ≡ Memory) (λ r. (r.0, r.1)) result (seat_line least greatest line.now) }
    ensures memory { IfErr
        result
        (λ kind. kind ≡ Memory
        → (is_some (field_of 124 2 line.now) ≡ true)
        × (is_some (option_and_then (number_spelled least greatest) (field_of 124 1 line.now)) ≡ true)) }
{
    let seats = field_at(line, DELIMITER, 0).ok_or(CodeLineKind::TooFewFields)?;
    field_at(line, DELIMITER, 1).ok_or(CodeLineKind::TooFewFields)?;
    let seats = number_in(seats, u32::from(least), u32::from(greatest)).ok_or(
        CodeLineKind::BadSeats,
    )?;
    let codes = codes_in(alloc, line)?;
    Ok((seats as u16, codes))
}
