//! Verdicts on texts in memory, and on texts that are pulled from a source a few bytes at a time or fail.

use crate::certificates::script::source_of;
use anyhow::{Error, Result};
use certificate_checker::{CheckStop, Verdict, check, check_from};
use county_codes::{Group, Grouping};
use county_problem::Problem;
use state_judge::CheckFault;
use std::alloc::Global;

/// More steps than a check of the texts here takes.
const ENOUGH: u64 = 100_000;

/// More pulls than a text here takes.
const MOST_PULLS: u32 = 1_000;

/// Numbers of bytes that come at a time, each with its words. The last number is more than any text here has.
const WAYS: &[(usize, &str)] = &[(1, "by 1"), (2, "by 2"), (7, "by 7"), (100_000, "at once")];

/// Returns a `group` in words: its seats and its codes, with a pipe before each code.
fn group_said(alloc: Global, group: &Group) -> Result<String> {
    let mut said = format!(in alloc; "{}", group.seats)?;
    for code in group.codes.as_slice() {
        write!(said, "|{code}")?;
    }
    Ok(said)
}

/// Returns the groups of a `grouping` in words, with a blank before each.
fn grouping_said(alloc: Global, grouping: &Grouping) -> Result<String> {
    let mut said = String::new(alloc);
    for group in &grouping.groups {
        let group = group_said(alloc, group)?;
        write!(said, " {group}")?;
    }
    Ok(said)
}

/// Returns a `verdict` in words.
fn verdict_said(alloc: Global, verdict: Verdict) -> Result<String> {
    match verdict {
        Verdict::Best(target) => {
            let groups = grouping_said(alloc, &target)?;
            Ok(format!(in alloc; "best{groups}")?)
        }
        Verdict::Impossible => Ok(String::from_str(alloc, "impossible")?),
        Verdict::No(CheckFault::Text(fault), line) => {
            Ok(format!(in alloc; "text fault {:?} line {line}", fault.kind)?)
        }
        Verdict::No(fault, line) => Ok(format!(in alloc; "{fault:?} line {line}")?),
        Verdict::Budget => Ok(String::from_str(alloc, "budget")?),
    }
}

/// Returns what is said of a `text` in memory.
fn whole(alloc: Global, problem: &Problem, text: &[u8]) -> Result<String> {
    verdict_said(alloc, check(alloc, problem, text, ENOUGH)?)
}

/// Returns what is said of a `text` that comes `at_a_time` bytes at a time. The pull with the number `failing` fails,
/// counted from 1. At 0 none fails.
fn pulled(
    alloc: Global,
    problem: &Problem,
    text: &[u8],
    at_a_time: usize,
    failing: u32,
) -> Result<String> {
    let mut source = source_of(text, at_a_time, failing);
    match check_from(alloc, problem, &mut source, ENOUGH) {
        Ok(verdict) => verdict_said(alloc, verdict),
        Err(CheckStop::Memory) => Err(Error::from(CheckStop::Memory)),
        Err(stop) => Ok(format!(in alloc; "{stop}")?),
    }
}

/// Prints what is said of a `text` if its first pull fails, then if its second does, and so on. It ends with the first
/// pull that isn't made any more: there the same is said as of the text in memory. What is the same as for the pull
/// before isn't printed again.
fn show_failing(
    rt: &HostRuntime,
    problem: &Problem,
    text: &[u8],
    at_a_time: usize,
    way: &str,
) -> Result<()> {
    let whole = whole(rt.alloc(), problem, text)?;
    let mut before = String::new(rt.alloc());
    for failing in 1..=MOST_PULLS {
        let said = pulled(rt.alloc(), problem, text, at_a_time, failing)?;
        if said == whole {
            println!(rt; "{way}, pull {failing} fails: the same as in memory")?;
            break;
        }
        if said != before {
            println!(rt; "{way}, pull {failing} fails: {said}")?;
        }
        before = said;
    }
    Ok(())
}

/// Prints what is said of a `text` in memory, and of the text as it comes a few bytes at a time. Then it prints what is
/// said if one of the pulls fails.
pub(crate) fn show_check(
    rt: &HostRuntime,
    problem: &Problem,
    name: &str,
    text: &[u8],
) -> Result<()> {
    let whole = whole(rt.alloc(), problem, text)?;
    println!(rt; "{name}: {whole}")?;
    for (at_a_time, way) in WAYS {
        let said = pulled(rt.alloc(), problem, text, *at_a_time, 0)?;
        if said == whole {
            println!(rt; "{way}: the same")?;
        } else {
            println!(rt; "{way}: {said}")?;
        }
        show_failing(rt, problem, text, *at_a_time, way)?;
    }
    Ok(())
}
