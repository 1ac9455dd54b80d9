//! Writing of numbers, codes and lists of them.

ghost use Rattle.std.specs.{Prelude.{◌≡◌, ◌≤◌, ◌∷◌, ◌++◌, [], OnOk, decimal, All}, List.flat_map};
ghost use Rattle.county_codes.specs.Digits.{five_digits};
ghost use Rattle.certificate_lines.specs.Spelling.{weight_word};

use certificate_data::Weight;
use county_codes::{CountyCode, push_code, push_codes};
use field_lines::push_number;
use std::alloc::AllocError;

/// Appends the `weights`, each after a blank.
fn push_weights(out: &mut Vec<u8>, weights: &[Weight]) -> Result<(), AllocError>
    ensures text { OnOk result (out.new.items ≡ out.old.items ++ flat_map (λ w. 32 ∷ weight_word w) weights.now) }
    ensures small { OnOk result (All (λ w. w.county ≤ 99999) weights.now) }
    ensures numbers { OnOk result (All (λ w. w.weight ≤ 4294967295) weights.now) }
{
    for weight in weights {
        out.extend_from_slice(b" ")?;
        push_code(out, weight.county)?;
        out.extend_from_slice(b":")?;
        push_number(out, u64::from(weight.weight))?;
    }
    Ok(())
}

/// Appends a line of a `name` and a `code`. No blank is added after the `name`, which ends with one.
pub fn push_code_line(out: &mut Vec<u8>, name: &[u8], code: CountyCode) -> Result<(), AllocError>
    ensures text { OnOk result (out.new.items ≡ out.old.items ++ (name.now ++ (five_digits code ++ 10 ∷ []))) }
    ensures small { OnOk result (code ≤ 99999) }
{
    out.extend_from_slice(name)?;
    push_code(out, code)?;
    out.extend_from_slice(b"\n")
}

/// Appends a line of a `name`, a `code` and a `number`. No blank is added after the `name`, which ends with one.
pub fn push_code_and_number_line(
    out: &mut Vec<u8>,
    name: &[u8],
    code: CountyCode,
    number: u32,
) -> Result<(), AllocError>
    ensures text { OnOk result (out.new.items
        ≡ out.old.items ++ (name.now ++ (five_digits code ++ 32 ∷ (decimal number ++ 10 ∷ [])))) }
    ensures small { OnOk result (code ≤ 99999) }
{
    out.extend_from_slice(name)?;
    push_code(out, code)?;
    out.extend_from_slice(b" ")?;
    push_number(out, u64::from(number))?;
    out.extend_from_slice(b"\n")
}

/// Appends a line of a `name` and a `number`. No blank is added after the `name`, which ends with one.
pub fn push_number_line(out: &mut Vec<u8>, name: &[u8], number: u32) -> Result<(), AllocError>
    ensures { OnOk result (out.new.items ≡ out.old.items ++ (name.now ++ (decimal number ++ 10 ∷ []))) }
{
    out.extend_from_slice(name)?;
    push_number(out, u64::from(number))?;
    out.extend_from_slice(b"\n")
}

/// Appends a line of a `name` and a `count`. No blank is added after the `name`, which ends with one.
pub fn push_count_line(out: &mut Vec<u8>, name: &[u8], count: usize) -> Result<(), AllocError>
    ensures { OnOk result (out.new.items ≡ out.old.items ++ (name.now ++ (decimal count ++ 10 ∷ []))) }
{
    out.extend_from_slice(name)?;
    push_number(out, count as u64)?;
    out.extend_from_slice(b"\n")
}

/// Appends a line of a `name` and two numbers. No blank is added after the `name`, which ends with one.
pub(crate) fn push_two_numbers_line(
    out: &mut Vec<u8>,
    name: &[u8],
    first: u32,
    second: u32,
) -> Result<(), AllocError>
    ensures { OnOk result (out.new.items
        ≡ out.old.items ++ (name.now ++ (decimal first ++ 32 ∷ (decimal second ++ 10 ∷ [])))) }
{
    out.extend_from_slice(name)?;
    push_number(out, u64::from(first))?;
    out.extend_from_slice(b" ")?;
    push_number(out, u64::from(second))?;
    out.extend_from_slice(b"\n")
}

/// Appends a line of a `name` and `codes`, each code after a blank.
pub fn push_codes_line(
    out: &mut Vec<u8>,
    name: &[u8],
    codes: &[CountyCode],
) -> Result<(), AllocError>
    ensures text { OnOk result (out.new.items
        ≡ out.old.items ++ (name.now ++ (flat_map (λ c. 32 ∷ five_digits c) codes.now ++ 10 ∷ []))) }
    ensures small { OnOk result (All (λ c. c ≤ 99999) codes.now) }
{
    out.extend_from_slice(name)?;
    push_codes(out, b" ", codes)?;
    out.extend_from_slice(b"\n")
}

/// Appends a line of a `name`, a `number` and `codes`, each code after a blank.
pub(crate) fn push_number_and_codes_line(
    out: &mut Vec<u8>,
    name: &[u8],
    number: u16,
    codes: &[CountyCode],
) -> Result<(), AllocError>
    ensures number { number ≤ 65535 }
    ensures text { OnOk result (out.new.items
        ≡ out.old.items ++ (name.now
        ++ (decimal number ++ (flat_map (λ c. 32 ∷ five_digits c) codes.now ++ 10 ∷ [])))) }
    ensures small { OnOk result (All (λ c. c ≤ 99999) codes.now) }
{
    out.extend_from_slice(name)?;
    push_number(out, u64::from(number))?;
    push_codes(out, b" ", codes)?;
    out.extend_from_slice(b"\n")
}

/// Appends a line of a `name`, a `number` and `weights`, each weight after a blank. The LF of the line is left out.
pub fn push_number_and_weights(
    out: &mut Vec<u8>,
    name: &[u8],
    number: u32,
    weights: &[Weight],
) -> Result<(), AllocError>
    ensures text { OnOk result (out.new.items
        ≡ out.old.items ++ (name.now ++ (decimal number ++ flat_map (λ w. 32 ∷ weight_word w) weights.now))) }
    ensures small { OnOk result (All (λ w. w.county ≤ 99999) weights.now) }
    ensures numbers { OnOk result (All (λ w. w.weight ≤ 4294967295) weights.now) }
{
    out.extend_from_slice(name)?;
    push_number(out, u64::from(number))?;
    push_weights(out, weights)
}
