//! Numbers in fields, and the texts of faults of lines.

use anyhow::Result;
use field_lines::{LineFault, fifteen_digits, five_digits, number_in, three_digits, two_digits};

/// Prints the number from `least` to `greatest` that a `field` spells, if it spells one.
fn show_number(rt: &HostRuntime, field: &str, least: u32, greatest: u32) -> Result<()> {
    let number = number_in(field.as_bytes(), least, greatest);
    println!(rt; "{field:?} from {least} to {greatest}: {number:?}")?;
    Ok(())
}

/// Prints the number from `least` to `greatest` that each of the `fields` spells, if it spells one.
fn show_numbers(rt: &HostRuntime, fields: &[&str], least: u32, greatest: u32) -> Result<()> {
    for field in fields {
        show_number(rt, field, least, greatest)?;
    }
    Ok(())
}

/// Fields of at most one digit and a mark, and others.
const SHORT: &[&str] = &[
    "", "0", "007", "10", "+4", " 4", "4 ", "-4", "4.", "4\r", "\u{ff14}",
];

/// Numbers at the end of a word, and long ones.
const LONG: &[&str] = &[
    "4294967295",
    "4294967296",
    "00000000000000000000000000000000000000012",
    "99999999999999999999999999999999999999999",
];

/// Prints numbers at the ends of ranges.
fn show_ranges(rt: &HostRuntime) -> Result<()> {
    show_numbers(rt, SHORT, 0, 9)?;
    show_numbers(rt, &["0", "1", "1000", "1001"], 1, 1_000)?;
    show_numbers(rt, LONG, 0, u32::MAX)
}

/// Prints what `text` spells as a field of exactly two digits, of three, of five and of fifteen.
fn show_digits(rt: &HostRuntime, text: &str) -> Result<()> {
    let field = text.as_bytes();
    println!(rt;
        "{text:?}: two {:?}, three {:?}",
        two_digits(field),
        three_digits(field)
    )?;
    println!(rt;
        "{text:?}: five {:?}, fifteen {:?}",
        five_digits(field),
        fifteen_digits(field)
    )?;
    Ok(())
}

/// Texts of up to fifteen digits.
const DIGITS: &[&str] = &[
    "7",
    "37",
    "3a",
    "037",
    "01",
    "001",
    "0001",
    "3700",
    "37001",
    "037001",
    "37001020100100",
    "370010201001000",
    "999999999999999",
];

/// Prints the texts of faults of lines.
fn show_faults(rt: &HostRuntime) -> Result<()> {
    for fault in [
        LineFault::LineTooLong(7),
        LineFault::TooManyLines,
        LineFault::ReadFault(8),
        LineFault::Memory,
    ] {
        println!(rt; "{fault}: {}", fault.line())?;
    }
    Ok(())
}

/// Prints numbers, digits and faults.
pub(crate) fn show(rt: &HostRuntime) -> Result<()> {
    show_ranges(rt)?;
    for text in DIGITS {
        show_digits(rt, text)?;
    }
    show_faults(rt)
}
