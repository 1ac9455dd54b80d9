//! What `audit` says of the assignments of a plan.

ghost use Rattle.std.specs.{Prelude.{◌≤◌, ◌<◌, All, IfOk, length, map, option_map}, List.Sorted.IsStrictlyIncreasing};
ghost use Rattle.run_laws.specs.JudgeSteps.{IsAudited, IsTableIfAsked};
ghost use Rattle.cli_reports.specs.Texts.{audited_of};

use crate::forms::findings_in;
use baf_auditor::{Assignment, Findings, audit, districts};
use cli_answers::{RunAnswer, RunOutcome};
use cli_words::Form;
use county_codes::Grouping;
use county_problem::Problem;
use district_table::districts_table;
use pl94_counties::Block;
use std::alloc::{AllocError, Global};

/// What `audit` says, and the text of its table.
#[derive(Drop)]
pub struct Audited {
    /// The findings, with status 0 if there are none, else 1.
    pub answer: RunAnswer,
    /// The table of the districts, or `None` if it isn't asked for.
    pub districts: Option<Vec<u8>>,
}

/// Returns the table of the districts of a plan, or `None` if it isn't `asked` for.
fn table_if_asked(
    alloc: Global,
    problem: &Problem,
    grouping: &Grouping,
    blocks: &[Block],
    lines: &[Assignment],
    asked: bool,
) -> Result<Option<Vec<u8>>, AllocError>
    requires fits { All (λ block. block.code < 1000000000000000) blocks.now }
    requires ascending { IsStrictlyIncreasing (map (λ block. block.code) blocks.now) }
    requires few { length lines.now ≤ 4000000 }
    ensures { IfOk result (λ table. IsTableIfAsked asked problem.now grouping.now.groups.items blocks.now lines.now (option_map (λ t. t.items) table)) }
{
    if !asked {
        return Ok(None);
    }
    let list = districts(alloc, problem, grouping, blocks, lines)?;
    let table = districts_table(alloc, problem, &list)?;
    Ok(Some(table))
}

/// Returns what an audit with these `findings` comes to.
fn audit_outcome(findings: Findings) -> RunOutcome {
    if findings.list.is_empty() {
        RunOutcome::Done
    } else {
        RunOutcome::Found(findings)
    }
}

/// Returns what `audit` says of the assignments of a plan: all findings of `blocks` and `lines` against `grouping`. The
/// table of the districts is beside them if it is `asked` for. The findings have this `form`.
///
/// The blocks ascend by code, as `read_blocks` gives them. There are at most 4,000,000 lines, as `read_assignments`
/// gives them.
///
/// # Errors
///
/// Returns `AllocError` if memory was refused.
pub fn audit_and_report(
    alloc: Global,
    form: Form,
    problem: &Problem,
    grouping: &Grouping,
    blocks: &[Block],
    lines: &[Assignment],
    asked: bool,
) -> Result<Audited, AllocError>
    requires fits { All (λ block. block.code < 1000000000000000) blocks.now }
    requires ascending { IsStrictlyIncreasing (map (λ block. block.code) blocks.now) }
    requires few { length lines.now ≤ 4000000 }
    ensures { IfOk result (λ s. IsAudited form asked problem.now grouping.now.groups.items blocks.now lines.now (audited_of s)) }
{
    let findings = audit(alloc, problem, grouping, blocks, lines)?;
    let table = table_if_asked(alloc, problem, grouping, blocks, lines, asked)?;
    let text = findings_in(alloc, form, &findings)?;
    let status = if findings.list.is_empty() { 0 } else { 1 };
    Ok(Audited {
        answer: RunAnswer {
            text,
            status,
            outcome: audit_outcome(findings),
            subject: None,
        },
        districts: table,
    })
}
