//! The audit of a plan over a problem and a grouping: all findings, in their order.

ghost use Rattle.std.specs.Prelude.{◌≡◌, ◌≢◌, ◌<◌, ◌≤◌, ◌↔◌, [], ◌∷◌, length, map, All, IfOk, OnOk, MatchOption};
ghost use Rattle.std.specs.{List.Sorted.IsStrictlyIncreasing, BTreeMap.btree_map_len};
ghost use Rattle.county_codes.specs.Limits.{most_counties};
ghost use Rattle.grouping_laws.specs.Grouping.{Lawful};
ghost use Rattle.county_problem.specs.{ProblemValue.problem_of, Judging.IsFault};
ghost use Rattle.county_problem.specs.declared.grouping_fault.GroupingFault.TheVariants.{Memory};
ghost use Rattle.baf_auditor.specs.Findings.{drawn_sets, plan_of, IsFinding, AreAll, AreFindings};
ghost use Rattle.baf_auditor.specs.Kinds.{AddsOfDistricts, IsClean};
ghost use Rattle.baf_auditor.specs.declared.finding.Finding.TheVariants as findings;

use crate::assignments::Assignment;
use crate::block_findings::{CodeKind, add_codes};
use crate::block_kinds::{BlockKinds, block_kinds};
use crate::crossings::add_crossings;
use crate::district_blocks::{Given, given_blocks};
use crate::district_sets::{listed_places, standing_places};
use crate::finding::{Finding, Findings};
use crate::lines_by_block::lines_by_block;
use crate::numbers::{add_group_numbers, add_withdrawn_numbers};
use crate::sizes::{add_sizes, people_by_label};
use county_codes::Grouping;
use county_problem::{GroupingFault, Problem, judge};
use pl94_counties::Block;
use std::alloc::{AllocError, Global};

/// Appends to `findings` those of districts: those that cross, then wrong numbers, then wrong sizes. `given` has the
/// people of each listed block that a district is given, by label and code.
fn add_district_findings(
    alloc: Global,
    findings: &mut Vec<Finding>,
    problem: &Problem,
    grouping: &Grouping,
    given: &[Given<'_>],
) -> Result<(), AllocError>
    requires few_groups { length grouping.now.groups.items ≤ most_counties }
    requires few { length given.now ≤ 4000000 }
    requires fits { All (λ e. e.0.1 < 1000000000000000) given.now }
    ensures { OnOk result (AddsOfDistricts (problem_of problem.now) (drawn_sets problem.now grouping.now.groups.items) (length grouping.now.groups.items) given.now findings.old.items findings.new.items) }
{
    let groups = grouping.groups.as_slice();
    let sets = problem.withdrawn();
    let found = standing_places(alloc, problem, grouping, given)?;
    let standing = listed_places(alloc, found)?;
    add_crossings(findings, groups.len(), &standing)?;
    add_group_numbers(findings, groups, &standing)?;
    add_withdrawn_numbers(findings, groups.len(), sets, &standing)?;
    let sums = people_by_label(alloc, given)?;
    add_sizes(findings, problem.district_bounds(1), &sums)?;
    Ok(())
}

/// Returns the findings of the plan that `lines` give over a lawful `grouping`, in their order. These are the codes at
/// fault among the census `blocks`, and then the findings of districts.
fn plan_findings(
    alloc: Global,
    problem: &Problem,
    grouping: &Grouping,
    blocks: &[Block],
    lines: &[Assignment],
) -> Result<Vec<Finding>, AllocError>
    requires few_groups { length grouping.now.groups.items ≤ most_counties }
    requires fits { All (λ block. block.code < 1000000000000000) blocks.now }
    requires ascending { IsStrictlyIncreasing (map (λ block. block.code) blocks.now) }
    requires few { length lines.now ≤ 4000000 }
    ensures { IfOk result (λ v. AreAll (IsFinding problem.now (plan_of problem.now grouping.now.groups.items blocks.now lines.now)) v.items) }
{
    let ordered = lines_by_block(alloc, lines)?;
    let kinds = block_kinds(alloc, problem, grouping, blocks, lines, &ordered)?;
    let BlockKinds {
        unknown,
        twice,
        unassigned,
        listed,
    } = kinds;
    let given = given_blocks(alloc, listed, ordered)?;
    let mut findings = Vec::new(alloc);
    add_codes(&mut findings, CodeKind::Unknown, &unknown)?;
    add_codes(&mut findings, CodeKind::Twice, &twice)?;
    add_codes(&mut findings, CodeKind::Unassigned, &unassigned)?;
    add_district_findings(alloc, &mut findings, problem, grouping, &given)?;
    Ok(findings)
}

/// Returns the first fault of `grouping`, or `None` if it is lawful.
fn fault_of(alloc: Global, problem: &Problem, grouping: &Grouping) -> Option<GroupingFault>
    ensures lawful { MatchOption result (Lawful (problem_of problem.now) grouping.now.groups.items) (IsFault (problem_of problem.now) grouping.now.groups.items) }
    ensures few { MatchOption result (length grouping.now.groups.items ≤ most_counties) (λ fault. fault ≢ Memory
        → ¬ Lawful (problem_of problem.now) grouping.now.groups.items) }
{
    judge(alloc, problem, grouping).err()
}

/// Returns findings that have nothing but the `fault` of a grouping.
fn only_finding(alloc: Global, fault: GroupingFault) -> Result<Findings, AllocError>
    ensures { IfOk result (λ f. f.list.items ≡ findings.Grouping fault ∷ []) }
{
    let mut list = Vec::new(alloc);
    list.push(Finding::Grouping(fault))?;
    Ok(Findings { list })
}

/// Returns all that is wrong with a plan's assignments, by kind and then by block, set or label. The sets are the
/// groups in the order of `grouping`, and then the withdrawn sets. A block stands in the set that has its county. A
/// block whose county is in no set counts as not listed. A district is a label that some line gives to a listed block.
/// Its people are those of its listed blocks, each once. If the grouping isn't lawful, that is the only finding.
///
/// The blocks ascend by code, as `read_blocks` gives them. There are at most 4,000,000 assignments, as
/// `read_assignments` gives them.
///
/// # Errors
///
/// Returns `AllocError` only if memory was refused.
pub fn audit(
    alloc: Global,
    problem: &Problem,
    grouping: &Grouping,
    blocks: &[Block],
    lines: &[Assignment],
) -> Result<Findings, AllocError>
    requires fits { All (λ block. block.code < 1000000000000000) blocks.now }
    requires ascending { IsStrictlyIncreasing (map (λ block. block.code) blocks.now) }
    requires few { length lines.now ≤ 4000000 }
    ensures findings { IfOk result (λ f. AreFindings problem.now grouping.now.groups.items blocks.now lines.now f.list.items) }
    ensures clean { IfOk result (λ f. (f.list.items ≡ [])
        ↔ IsClean problem.now grouping.now.groups.items (plan_of problem.now grouping.now.groups.items blocks.now lines.now)) }
{
    match fault_of(alloc, problem, grouping) {
        None => Ok(Findings {
            list: plan_findings(alloc, problem, grouping, blocks, lines)?,
        }),
        Some(GroupingFault::Memory) => Err(AllocError),
        Some(fault) => only_finding(alloc, fault),
    }
}
