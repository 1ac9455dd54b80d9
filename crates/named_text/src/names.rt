//! The name of a county behind its code.

ghost use Rattle.std.specs.Prelude.{◌≡◌, ◌++◌, OnOk, map};
ghost use Rattle.pl94_counties.specs.CountyNames.{county_name};
ghost use Rattle.named_text.specs.NamedText.{after_blank, name_of as name_of_code, shown, shown_byte as byte_shown, with_name};

use field_lines::five_digits;
use pl94_counties::NamedCounty;
use std::alloc::AllocError;

/// Returns `byte`, or a blank if `byte` is a control character.
fn shown_byte(byte: u8) -> u8
    ensures { result ≡ byte_shown byte }
{
    if byte < 0x20 || byte == 0x7F {
        b' '
    } else {
        byte
    }
}

/// Appends `name`, with a blank in place of each control character.
fn push_shown(out: &mut Vec<u8>, name: &[u8]) -> Result<(), AllocError>
    ensures { OnOk result (out.new.items ≡ out.old.items ++ shown name.now) }
{
    for byte in name {
        out.push(shown_byte(*byte))?;
    }
    Ok(())
}

/// Appends a blank and `name`, if `name` isn't empty.
fn push_after_blank(out: &mut Vec<u8>, name: &[u8]) -> Result<(), AllocError>
    ensures { OnOk result (out.new.items ≡ out.old.items ++ after_blank name.now) }
{
    if name.is_empty() {
        Ok(())
    } else {
        out.push(b' ')?;
        push_shown(out, name)
    }
}

/// Returns the name of the county of `code` in `named`. It is empty if `named` doesn't have the county.
fn name_of(named: &[NamedCounty], code: u32) -> &str
    ensures { result.now ≡ name_of_code (map county_name named.now) code }
{
    for county in named {
        if county.county.code.get() == code {
            return &county.name;
        }
    }
    ""
}

/// Appends `word`. If it is the code of a county in `named` that has a name, appends a blank and the name too.
///
/// # Errors
///
/// Returns `AllocError` if memory was refused.
pub(crate) fn push_with_name(
    out: &mut Vec<u8>,
    named: &[NamedCounty],
    word: &[u8],
) -> Result<(), AllocError>
    ensures { OnOk result (out.new.items ≡ out.old.items ++ with_name (map county_name named.now) word.now) }
{
    out.extend_from_slice(word)?;
    match five_digits(word) {
        None => Ok(()),
        Some(code) => push_after_blank(out, name_of(named, code).as_bytes()),
    }
}
