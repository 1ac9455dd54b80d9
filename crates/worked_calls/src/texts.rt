//! Texts of the greatest numbers, and of a grouping's faults.

use anyhow::{Context, Result};
use county_codes::{CountyCode, push_code};
use county_problem::GroupingFault;
use field_lines::push_number;
use grouping_report::push_grouping_fault;

/// Prints a `number` and the county code with the number `code`.
fn show_number(rt: &HostRuntime, number: u64, code: u32) -> Result<()> {
    let mut out = Vec::new(rt.alloc());
    push_number(&mut out, number)?;
    out.push(b' ')?;
    push_code(&mut out, CountyCode::new(code).context("a code")?)?;
    println!(rt; "{}", str::from_utf8(&out)?)?;
    Ok(())
}

/// Prints a grouping's `fault` in words.
fn show_fault(rt: &HostRuntime, fault: GroupingFault) -> Result<()> {
    let mut out = Vec::new(rt.alloc());
    push_grouping_fault(&mut out, fault)?;
    println!(rt; "{}", str::from_utf8(&out)?)?;
    Ok(())
}

/// Prints numbers and codes at the ends of their ranges, and faults that no file gives.
pub(crate) fn show(rt: &HostRuntime) -> Result<()> {
    for (number, code) in [(0, 0), (u64::MAX, 99_999)] {
        show_number(rt, number, code)?;
    }
    for fault in [
        GroupingFault::EmptyGroup(2),
        GroupingFault::SeatsTotal(131_070, 120),
        GroupingFault::Memory,
    ] {
        show_fault(rt, fault)?;
    }
    Ok(())
}
