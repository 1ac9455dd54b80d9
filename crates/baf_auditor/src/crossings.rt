//! The findings of districts that have blocks in two sets of counties.

ghost use Rattle.std.specs.Prelude.{◌≡◌, ◌<◌, ◌≤◌, ◌++◌, All, IfOk, OnOk};
ghost use Rattle.baf_auditor.specs.Districts.{name_at, crossings_with, crossings};

use crate::finding::{Finding, Set};
use crate::label::Label;
use std::alloc::AllocError;

/// Returns the name of the set at `place`, counted from 0, where `groups` groups stand before the withdrawn sets.
pub(crate) fn set_at(groups: usize, place: usize) -> Set
    requires { place < 4294967295 }
    ensures { result ≡ name_at groups place }
{
    if place < groups {
        Set::Group((place + 1) as u32)
    } else {
        Set::Withdrawn((place - groups + 1) as u32)
    }
}

/// Appends a finding for the set of `first` with each later set of the same district. These stand at the front of
/// `rest`.
fn add_crossings_with(
    findings: &mut Vec<Finding>,
    groups: usize,
    first: &(Label, usize),
    rest: &[(Label, usize)],
) -> Result<(), AllocError>
    requires here { first.now.1 < 1000000 }
    requires places { All (λ k. k.1 < 1000000) rest.now }
    ensures { OnOk result (findings.new.items ≡ findings.old.items ++ crossings_with groups first.now rest.now) }
{
    for key in rest {
        if key.0 != first.0 {
            return Ok(());
        }
        let one = set_at(groups, first.1);
        let other = set_at(groups, key.1);
        findings.push(Finding::Crosses(first.0.copy()?, one, other))?;
    }
    Ok(())
}

/// Appends to `findings` one for each pair of sets in which one district has blocks, by label and sets. `standing` has
/// the districts with the places of their sets, by label and place. `groups` groups stand before the withdrawn sets.
pub(crate) fn add_crossings(
    findings: &mut Vec<Finding>,
    groups: usize,
    standing: &[(Label, usize)],
) -> Result<(), AllocError>
    requires { All (λ k. k.1 < 1000000) standing.now }
    ensures { OnOk result (findings.new.items ≡ findings.old.items ++ crossings groups standing.now) }
{
    for (i, key) in standing.iter().enumerate() {
        add_crossings_with(findings, groups, key, &standing[i + 1..])?;
    }
    Ok(())
}
