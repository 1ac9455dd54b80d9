//! Texts of any bytes on one line.

ghost use Rattle.std.specs.Prelude.{◌≡◌, ◌<◌, ◌++◌, OnOk};
ghost use Rattle.cli_record.specs.Escapes.{is_escaped as must_be_escaped, hex_digit as digit_of, escaped_byte};
ghost use Rattle.cli_record.specs.Escapes.{escaped};

use std::alloc::AllocError;

/// Returns whether `byte` is a backslash, below 0x20 or above 0x7E.
fn is_escaped(byte: u8) -> bool
    ensures { result ≡ must_be_escaped byte }
{
    byte == b'\\' || byte < 0x20 || byte > 0x7E
}

/// Returns the hexadecimal digit of `number`, with letters in upper case.
fn hex_digit(number: u8) -> u8
    requires { number < 16 }
    ensures { result ≡ digit_of number }
{
    if number < 10 {
        b'0' + number
    } else {
        b'A' - 10 + number
    }
}

/// Appends `byte`, or `\x` and its two hexadecimal digits if it is escaped.
fn push_byte(out: &mut Vec<u8>, byte: u8) -> Result<(), AllocError>
    ensures { OnOk result (out.new.items ≡ out.old.items ++ escaped_byte byte) }
{
    if is_escaped(byte) {
        out.extend_from_slice(&[b'\\', b'x', hex_digit(byte / 16), hex_digit(byte % 16)])
    } else {
        out.extend_from_slice(&[byte])
    }
}

/// Appends `text` with its escapes.
pub(crate) fn push_escaped(out: &mut Vec<u8>, text: &[u8]) -> Result<(), AllocError>
    ensures { OnOk result (out.new.items ≡ out.old.items ++ escaped text.now) }
{
    for byte in text {
        push_byte(out, *byte)?;
    }
    Ok(())
}
