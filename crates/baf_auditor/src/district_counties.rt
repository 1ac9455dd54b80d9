//! The counties in which each district has census blocks.

ghost use Rattle.std.specs.{Prelude.{◌≡◌, ◌<◌, ◌||◌, ℕ, List, All, IfOk, OnOk, map}, List.Sorted.IsStrictlySortedBy};
ghost use Rattle.std.specs.BTreeSet.{contains};
ghost use Rattle.baf_auditor.specs.{Giving.by_label, Districts.{shows_county, has_county}};

use crate::block_list::county_of_block;
use crate::district_blocks::Given;
use crate::label::Label;
use county_codes::CountyCode;
use std::alloc::{AllocError, Global};
use std::collections::BTreeSet;

/// Adds the county of the block `code` to those in which the district of `label` has blocks.
fn add_county(
    found: &mut BTreeSet<(Label, CountyCode)>,
    label: &Label,
    code: u64,
) -> Result<(), AllocError>
    requires { code < 1000000000000000 }
    ensures { OnOk result ((key : List ℕ × ℕ)
        → contains by_label found.new key ≡ (shows_county key (label.now, code) || contains by_label found.old key)) }
{
    if let Some(county) = county_of_block(code) {
        found.insert((label.copy()?, county))?;
    }
    Ok(())
}

/// Returns the districts of `given` with the counties in which they have blocks, by label and county.
pub(crate) fn given_counties(
    alloc: Global,
    given: &[Given<'_>],
) -> Result<BTreeSet<(Label, CountyCode)>, AllocError>
    requires { All (λ e. e.0.1 < 1000000000000000) given.now }
    ensures { IfOk result (λ s. (key : List ℕ × ℕ) → contains by_label s key ≡ has_county (map (λ e. e.0) given.now) key) }
{
    let mut found = BTreeSet::new(alloc);
    for block in given {
        let line = block.assignment;
        add_county(&mut found, &line.label, line.block)?;
    }
    Ok(found)
}

/// Lists the districts of `found` with their counties, by label and county.
pub(crate) fn listed_counties(
    alloc: Global,
    found: BTreeSet<(Label, CountyCode)>,
) -> Result<Vec<(Label, CountyCode)>, AllocError>
    ensures items { IfOk result (λ v. v.items ≡ found.keys) }
    ensures ordered { IsStrictlySortedBy by_label found.keys }
{
    found.into_iter().collect(alloc)
}
