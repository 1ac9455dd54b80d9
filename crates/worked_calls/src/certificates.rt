//! Worked trees and leaves, which no file of the command reaches. From a file of cases come trees, alone and in front
//! of other text, and lines of words. Then come values without a spelling, and ten thousand trees that are made,
//! written and read. The next lines tell which leaf is found at the state where nothing is closed, and the checker's
//! verdict on it, and the verdict on parts at that state. The last lines are verdicts on texts that are pulled from a
//! source a few bytes at a time, or whose source fails at one pull.
//!
//! A case begins with a line `== KIND: NAME`, and its bytes are the lines up to the next such line. In the files
//! `problems` and `checks` a case of the kind `problem` tells the problem of the cases behind it. `leaf LIMIT` asks for
//! the leaf that is found, with the grouping of the case as the target. `part BUDGET COUNTY LIMIT` asks for the verdict
//! on a part of one branch, whose leaves are all open, with a take for each line of the case. `check` asks for the
//! verdicts on the bytes of the case, and `cut` for those on the bytes without the last LF.

mod cases;
mod generated_trees;
mod leaves;
mod parts;
mod problems;
mod pulled_texts;
mod readings;
mod script;
mod unspelled_values;

use crate::certificates::cases::{Case, cases_of};
use crate::certificates::generated_trees::round_trips;
use crate::certificates::leaves::leaf_said;
use crate::certificates::parts::part_said;
use crate::certificates::problems::problem_in;
use crate::certificates::pulled_texts::show_check;
use crate::certificates::readings::reading;
use crate::certificates::unspelled_values::without_spelling;
use anyhow::{Context, Result};
use county_problem::Problem;
use std::fs;

/// How many trees are made.
const TREES: u32 = 10_000;

/// Prints the name of `case` and what is said of its bytes.
fn show_case(rt: &HostRuntime, case: &Case) -> Result<()> {
    let said = reading(rt.alloc(), case.kind, &case.bytes)?;
    println!(rt; "{}: {said}", case.name)?;
    Ok(())
}

/// Prints what is said of each case of the file.
fn show_cases(rt: &HostRuntime) -> Result<()> {
    let text = fs::read(rt, "cases")?;
    for case in &cases_of(rt.alloc(), &text)? {
        show_case(rt, case)?;
    }
    Ok(())
}

/// Prints what is said of values without a spelling.
fn show_unspelled(rt: &HostRuntime) -> Result<()> {
    for said in &without_spelling(rt.alloc())? {
        println!(rt; "{said}")?;
    }
    Ok(())
}

/// Prints which leaf is found over the problem in front of a `case`, or what is said of its part. If the case tells a
/// problem, keeps that instead.
fn show_leaf(rt: &HostRuntime, problem: &mut Option<Problem>, case: &Case) -> Result<()> {
    let Some((kind, words)) = case.kind.split_once(' ') else {
        *problem = Some(problem_in(rt.alloc(), &case.bytes)?);
        return Ok(());
    };
    let problem = problem.as_ref().context("a problem")?;
    let said = match kind {
        "part" => part_said(rt.alloc(), problem, words, &case.bytes)?,
        _ => leaf_said(rt.alloc(), problem, words.parse::<u16>()?, &case.bytes)?,
    };
    println!(rt; "{}: {said}", case.name)?;
    Ok(())
}

/// Prints which leaves are found over the problems of the file, and what is said of parts.
fn show_leaves(rt: &HostRuntime) -> Result<()> {
    let text = fs::read(rt, "problems")?;
    let mut problem = None;
    for case in &cases_of(rt.alloc(), &text)? {
        show_leaf(rt, &mut problem, case)?;
    }
    Ok(())
}

/// Prints the verdicts on the text of a `case` over the problem in front of it. If the case tells a problem, keeps that
/// instead.
fn show_verdicts(rt: &HostRuntime, problem: &mut Option<Problem>, case: &Case) -> Result<()> {
    if case.kind == "problem" {
        *problem = Some(problem_in(rt.alloc(), &case.bytes)?);
        return Ok(());
    }
    let problem = problem.as_ref().context("a problem")?;
    let whole = case.bytes.as_slice();
    let text = match case.kind {
        "cut" => whole.strip_suffix(b"\n").unwrap_or(whole),
        _ => whole,
    };
    show_check(rt, problem, case.name, text)
}

/// Prints the verdicts on the texts of the file.
fn show_checks(rt: &HostRuntime) -> Result<()> {
    let text = fs::read(rt, "checks")?;
    let mut problem = None;
    for case in &cases_of(rt.alloc(), &text)? {
        show_verdicts(rt, &mut problem, case)?;
    }
    Ok(())
}

/// Prints what is read of the cases of all three files, what is said of values without a spelling, and how many trees
/// read back as they were written.
pub(crate) fn show(rt: &HostRuntime) -> Result<()> {
    println!(rt; "-- certificates")?;
    show_cases(rt)?;
    show_unspelled(rt)?;
    let back = round_trips(rt.alloc(), TREES)?;
    println!(rt; "{back} of {TREES} trees read back as they were written")?;
    show_leaves(rt)?;
    show_checks(rt)
}
