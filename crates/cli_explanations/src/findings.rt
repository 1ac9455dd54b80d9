//! What an audit found, for a person: which counties its groups have, and the window of a district.

use crate::grouping_fault::explain_fault;
use crate::options::Options;
use baf_auditor::{Finding, Findings, Set};
use county_codes::{Codes, Grouping};
use county_problem::Problem;
use std::alloc::{AllocError, Global};
use std::fmt::Write;

/// Returns the sets that `findings` name, as often as they name them.
///
/// # Errors
///
/// Returns `AllocError` if memory was refused.
pub(crate) fn named_sets(alloc: Global, findings: &Findings) -> Result<Vec<Set>, AllocError> {
    let mut named = Vec::new(alloc);
    for finding in &findings.list {
        match finding {
            Finding::Crosses(_, first, second) => {
                named.push(*first)?;
                named.push(*second)?;
            }
            Finding::WrongNumber(set, _, _) => named.push(*set)?,
            _ => {}
        }
    }
    Ok(named)
}

/// Says with which county `set` begins, if it is one of the sets `named` by findings.
fn explain_set(out: &mut String, named: &[Set], set: Set, codes: &Codes) -> Result<(), AllocError> {
    if !named.contains(&set) {
        return Ok(());
    }
    match (set, codes.as_slice().first()) {
        (Set::Group(number), Some(code)) => {
            writeln!(
                out,
                "countygroups: group {number} begins with county {code}"
            )
        }
        (Set::Withdrawn(number), Some(code)) => {
            writeln!(
                out,
                "countygroups: withdrawn {number} begins with county {code}"
            )
        }
        _ => Ok(()),
    }
}

/// Says with which county each group of `grouping` and each withdrawn set of `problem` begins that one of the
/// `findings` names.
fn explain_sets(
    out: &mut String,
    findings: &Findings,
    (problem, grouping): (&Problem, &Grouping),
) -> Result<(), AllocError> {
    let named = named_sets(*out.allocator(), findings)?;
    for (number, group) in (1..=u32::MAX).zip(&grouping.groups) {
        explain_set(out, &named, Set::Group(number), &group.codes)?;
    }
    for (number, set) in (1..=u32::MAX).zip(problem.withdrawn()) {
        explain_set(out, &named, Set::Withdrawn(number), &set.codes)?;
    }
    Ok(())
}

/// Returns what the word of `finding` means.
fn meaning(finding: &Finding) -> &'static str {
    match finding {
        Finding::Grouping(_) => "Grouping: the grouping isn't lawful",
        Finding::UnknownBlock(_) => "UnknownBlock: a line names a block that --geo lacks",
        Finding::BlockTwice(_) => "BlockTwice: two or more lines name the block",
        Finding::Unassigned(_) => {
            "Unassigned: the block has people, and no line gives it a district"
        }
        Finding::Crosses(_, _, _) => "Crosses: the district has blocks in both sets",
        Finding::WrongNumber(_, _, _) => {
            "WrongNumber: the set has another number of seats than districts with a block in it"
        }
        Finding::DistrictSize(_, _) => {
            "DistrictSize: the people of the district don't suit one seat"
        }
    }
}

/// Says how many `findings` there are, and what the word of each of their kinds means.
fn explain_kinds(out: &mut String, findings: &Findings) -> Result<(), AllocError> {
    let count = findings.list.len();
    writeln!(
        out,
        "countygroups: findings on standard output, one a line: {count}"
    )?;
    let mut last = "";
    for finding in &findings.list {
        let words = meaning(finding);
        if words != last {
            writeln!(out, "countygroups: {words}")?;
        }
        last = words;
    }
    Ok(())
}

/// Explains the `findings` of an audit of a grouping.
///
/// # Errors
///
/// Returns `AllocError` if memory was refused.
pub(crate) fn explain_findings(
    out: &mut String,
    options: Options<'_>,
    findings: &Findings,
    (problem, grouping): (&Problem, &Grouping),
) -> Result<(), AllocError> {
    if let Some(Finding::Grouping(fault)) = findings.list.first() {
        return explain_fault(out, options, fault, (problem, grouping));
    }
    let (least, most) = problem.district_bounds(1);
    explain_kinds(out, findings)?;
    explain_sets(out, findings, (problem, grouping))?;
    writeln!(
        out,
        "countygroups: a district may have {least} to {most} people"
    )
}
