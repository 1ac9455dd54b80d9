//! The findings of sets whose number of districts isn't their number of seats.

ghost use Rattle.std.specs.Prelude.{◌≡◌, ◌<◌, ◌≤◌, ◌+◌, ◌++◌, IfOk, OnOk, length};
ghost use Rattle.baf_auditor.specs.Findings.{groups_from, withdrawn_from};
ghost use Rattle.baf_auditor.specs.Districts.{districts_at, number_finding, numbers_from};

use crate::finding::{Finding, Set};
use crate::label::Label;
use county_codes::{Group, Withdrawn};
use std::alloc::AllocError;

/// Returns how many districts stand in the set at `place`.
fn districts_at(standing: &[(Label, usize)], place: usize) -> u32
    requires { length standing.now ≤ 4000000 }
    ensures { result ≡ districts_at place standing.now }
{
    let mut districts = 0;
    for key in standing {
        if key.1 == place {
            districts += 1;
        }
    }
    districts
}

/// Appends the finding of the set `name`, if its number of `districts` isn't its number of `seats`.
fn add_number(
    findings: &mut Vec<Finding>,
    name: Set,
    seats: u16,
    districts: u32,
) -> Result<(), AllocError>
    ensures { OnOk result (findings.new.items ≡ findings.old.items ++ number_finding name seats districts) }
{
    if districts != u32::from(seats) {
        findings.push(Finding::WrongNumber(name, seats, districts))?;
    }
    Ok(())
}

/// Appends the findings of `groups` whose number of districts isn't their number of seats, in the order of the groups.
pub(crate) fn add_group_numbers(
    findings: &mut Vec<Finding>,
    groups: &[Group],
    standing: &[(Label, usize)],
) -> Result<(), AllocError>
    requires few_groups { length groups.now ≤ 1000 }
    requires few { length standing.now ≤ 4000000 }
    ensures { OnOk result (findings.new.items
        ≡ findings.old.items ++ numbers_from standing.now 0 (groups_from 1 groups.now)) }
{
    for (i, group) in groups.iter().enumerate() {
        let name = Set::Group((i + 1) as u32);
        let districts = districts_at(standing, i);
        add_number(findings, name, group.seats, districts)?;
    }
    Ok(())
}

/// Appends the findings of withdrawn sets whose number of districts isn't their number of seats, in the order of the
/// sets. The places of the sets stand behind those of `groups` groups.
pub(crate) fn add_withdrawn_numbers(
    findings: &mut Vec<Finding>,
    groups: usize,
    sets: &[Withdrawn],
    standing: &[(Label, usize)],
) -> Result<(), AllocError>
    requires few_groups { groups ≤ 1000 }
    requires few_sets { length sets.now ≤ 1000 }
    requires few { length standing.now ≤ 4000000 }
    ensures { OnOk result (findings.new.items
        ≡ findings.old.items ++ numbers_from standing.now groups (withdrawn_from 1 sets.now)) }
{
    for (i, set) in sets.iter().enumerate() {
        let name = Set::Withdrawn((i + 1) as u32);
        let districts = districts_at(standing, groups + i);
        add_number(findings, name, set.seats, districts)?;
    }
    Ok(())
}
