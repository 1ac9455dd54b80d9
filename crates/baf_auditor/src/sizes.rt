//! The people of each district, and the findings of districts with too few people or too many.

ghost use Rattle.std.specs.{Prelude.{◌≡◌, ◌≤◌, ◌^◌, ◌++◌, ℕ, List, IfOk, OnOk, length}, List.filter_map};
ghost use Rattle.std.specs.{List.Sorted.IsStrictlySortedBy, Option.{unwrap_or, option_to_list}, Ordering.nat_cmp};
ghost use Rattle.std.specs.{Cmp.Lexicographic.slice_cmp, BTreeMap.{get, keys}};
ghost use Rattle.baf_auditor.specs.Districts.{with_people, district_people, size_finding};

use crate::district_blocks::Given;
use crate::finding::Finding;
use crate::label::Label;
use std::alloc::{AllocError, Global};
use std::collections::BTreeMap;

/// Adds the `people` of a listed block to those of its district.
fn add_people(sums: &mut BTreeMap<Label, u64>, label: &Label, people: u32) -> Result<(), AllocError>
    requires { unwrap_or (get (slice_cmp nat_cmp) sums.old label.now) 0 ≤ 2 ^ 60 }
    ensures { OnOk result ((other : List ℕ)
        → get (slice_cmp nat_cmp) sums.new other
        ≡ with_people other label.now people (get (slice_cmp nat_cmp) sums.old other)) }
{
    let before = sums.get(label).copied().unwrap_or(0);
    sums.insert(label.copy()?, before + u64::from(people))?;
    Ok(())
}

/// Returns the people of each district of `given`, by its label: those of its listed blocks, each once.
pub(crate) fn people_by_label(
    alloc: Global,
    given: &[Given<'_>],
) -> Result<BTreeMap<Label, u64>, AllocError>
    requires { length given.now ≤ 4000000 }
    ensures { IfOk result (λ m. (label : List ℕ)
        → get (slice_cmp nat_cmp) m label ≡ district_people given.now label) }
{
    let mut sums = BTreeMap::new(alloc);
    for block in given {
        add_people(&mut sums, &block.assignment.label, block.people)?;
    }
    Ok(sums)
}

/// Appends the finding of a district whose `people` are not within `bounds`.
fn add_size(
    findings: &mut Vec<Finding>,
    bounds: (u64, u64),
    label: &Label,
    people: u64,
) -> Result<(), AllocError>
    ensures { OnOk result (findings.new.items
        ≡ findings.old.items ++ option_to_list (size_finding bounds.0 bounds.1 (label.now, people))) }
{
    if people < bounds.0 || people > bounds.1 {
        findings.push(Finding::DistrictSize(label.copy()?, people))?;
    }
    Ok(())
}

/// Appends the findings of districts whose people are not within `bounds`, by label.
pub(crate) fn add_sizes(
    findings: &mut Vec<Finding>,
    bounds: (u64, u64),
    sums: &BTreeMap<Label, u64>,
) -> Result<(), AllocError>
    ensures findings { OnOk result (findings.new.items
        ≡ findings.old.items ++ filter_map (size_finding bounds.0 bounds.1) sums.now.entries) }
    ensures ordered { IsStrictlySortedBy (slice_cmp nat_cmp) (keys sums.now) }
{
    for (label, people) in sums {
        add_size(findings, bounds, label, *people)?;
    }
    Ok(())
}
