//! Writing codes as their five digits.

ghost use Rattle.std.specs.Prelude.{◌≡◌, ◌≤◌, ◌++◌, All, OnOk};
ghost use Rattle.county_codes.specs.Digits.{five_digits, each_after};

use crate::code::CountyCode;
use std::alloc::AllocError;

/// Appends the five digits of a `number` to `out`. The number is at most 99,999. Returns an error only if memory was
/// refused.
pub fn push_five_digits(out: &mut Vec<u8>, number: u32) -> Result<(), AllocError>
    requires { number ≤ 99999 }
    ensures { OnOk result (out.new.items ≡ out.old.items ++ five_digits number) }
{
    let digits = [
        b'0' + (number / 10_000) as u8,
        b'0' + (number / 1_000 % 10) as u8,
        b'0' + (number / 100 % 10) as u8,
        b'0' + (number / 10 % 10) as u8,
        b'0' + (number % 10) as u8,
    ];
    out.extend_from_slice(&digits)
}

/// Appends the five digits of a `code` to `out`. Returns an error only if memory was refused.
pub fn push_code(out: &mut Vec<u8>, code: CountyCode) -> Result<(), AllocError>
    ensures text { OnOk result (out.new.items ≡ out.old.items ++ five_digits code) }
    ensures small { code ≤ 99999 }
{
    push_five_digits(out, code.get())
}

/// Appends the five digits of each of the `codes` to `out`, each after the `mark`. Returns an error only if memory was
/// refused.
pub fn push_codes(out: &mut Vec<u8>, mark: &[u8], codes: &[CountyCode]) -> Result<(), AllocError>
    ensures text { OnOk result (out.new.items ≡ out.old.items ++ each_after mark.now codes.now) }
    ensures small { OnOk result (All (λ code. code ≤ 99999) codes.now) }
{
    for code in codes {
        out.extend_from_slice(mark)?;
        push_five_digits(out, code.get())?;
    }
    Ok(())
}
