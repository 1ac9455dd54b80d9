//! The numbers that fields of digits spell, and a field by its index.

ghost use Rattle.std.specs.{Prelude.{◌≡◌, ◌<◌, ◌≤◌, ◌^◌, true, Some, IfSome, length}, List.{list_all, slice_get}};
ghost use Rattle.std.specs.{Char.is_ascii_digit, Option.option_map, Str.Parse.digits_value};
ghost use Rattle.field_lines.specs.{Fields.fields_of, Number.{kept_in, number_in, digits_of}};

use crate::fields::Fields;

/// The greatest number that fifteen digits spell.
const FIFTEEN_NINES: u64 = 999_999_999_999_999;

/// Returns whether each byte of the `field` is a digit.
fn is_digits(field: &[u8]) -> bool
    ensures { result ≡ list_all is_ascii_digit field.now }
{
    field.iter().all(|b| b.is_ascii_digit())
}

/// Returns the value of the `digits`, or `None` if it is more than `greatest`.
fn value_of(digits: &[u8], greatest: u64) -> Option<u64>
    requires all { list_all is_ascii_digit digits.now ≡ true }
    requires fits { greatest ≤ 999999999999999 }
    ensures { result ≡ kept_in 0 greatest (Some (digits_value 10 digits.now)) }
{
    let mut value: u64 = 0;
    for digit in digits {
        value = 10 * value + u64::from(*digit - b'0');
        if value > greatest {
            return None;
        }
    }
    Some(value)
}

/// Returns the number that a `field` spells, if it is at most `greatest`.
fn number_up_to(field: &[u8], greatest: u64) -> Option<u64>
    requires { greatest ≤ 999999999999999 }
    ensures { result ≡ number_in 0 greatest field.now }
{
    if field.is_empty() || !is_digits(field) {
        return None;
    }
    value_of(field, greatest)
}

/// Returns the number that a `field` of exactly `count` digits spells.
fn digits(field: &[u8], count: usize) -> Option<u64>
    requires { count ≤ 15 }
    ensures value { result ≡ digits_of count field.now }
    ensures small { IfSome result (λ n. n < 10 ^ count) }
{
    if field.len() != count {
        return None;
    }
    number_up_to(field, FIFTEEN_NINES)
}

/// Returns the number that a `field` spells in decimal, if it is from `least` to `greatest`. Such a field has one or
/// more ASCII digits, which may begin with zeros, and no other byte. Returns `None` for any other field.
pub fn number_in(field: &[u8], least: u32, greatest: u32) -> Option<u32>
    ensures value { result ≡ number_in least greatest field.now }
    ensures within { IfSome result (λ n. (least ≤ n) × (n ≤ greatest)) }
{
    let number = number_up_to(field, u64::from(greatest))? as u32;
    if number < least {
        return None;
    }
    Some(number)
}

/// Returns the number that a `field` of exactly two ASCII digits spells. Returns `None` for any other field.
pub fn two_digits(field: &[u8]) -> Option<u8>
    ensures value { result ≡ digits_of 2 field.now }
    ensures small { IfSome result (λ n. n < 100) }
{
    Some(digits(field, 2)? as u8)
}

/// Returns the number that a `field` of exactly three ASCII digits spells. Returns `None` for any other field.
pub fn three_digits(field: &[u8]) -> Option<u16>
    ensures value { result ≡ digits_of 3 field.now }
    ensures small { IfSome result (λ n. n < 1000) }
{
    Some(digits(field, 3)? as u16)
}

/// Returns the number that a `field` of exactly five ASCII digits spells. Returns `None` for any other field.
pub fn five_digits(field: &[u8]) -> Option<u32>
    ensures value { result ≡ digits_of 5 field.now }
    ensures small { IfSome result (λ n. n < 100000) }
{
    Some(digits(field, 5)? as u32)
}

/// Returns the number that a `field` of exactly fifteen ASCII digits spells. Returns `None` for any other field.
pub fn fifteen_digits(field: &[u8]) -> Option<u64>
    ensures value { result ≡ digits_of 15 field.now }
    ensures small { IfSome result (λ n. n < 1000000000000000) }
{
    digits(field, 15)
}

/// Returns the field of the `line` at `index`, which counts from 0. Returns `None` if the line has no more than `index`
/// fields.
pub fn field_at(line: &[u8], delimiter: u8, index: usize) -> Option<&[u8]>
    ensures { option_map (λ s. s.now) result ≡ slice_get (fields_of delimiter line.now) index }
{
    Fields::new(line, delimiter).nth(index)
}
