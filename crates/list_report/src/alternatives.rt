//! What the listed groupings choose in each region.

ghost use Rattle.std.specs.Prelude.{◌≡◌, ℕ, ◌++◌, ◌==◌, ◌≤◌, List, ◌∷◌, [], length, map, filter, IfOk, OnOk};
ghost use Rattle.std.specs.List.{list_any, list_all};
ghost use Rattle.grouping_laws.specs.Sets.{contains};
ghost use Rattle.list_report.specs.SharedSets.{same_sets};
ghost use Rattle.list_report.specs.Alternatives.{with_alternatives, number_of_alternative, product};
ghost use Rattle.list_report.specs.Alternatives.{sets_inside, add_choice, alternatives as alternatives_in};

use crate::sets::Sets;
use county_codes::{Codes, CountyCode, has_code};
use std::alloc::{AllocError, Global};
use std::marker::Model;

/// Different choices of sets inside a region.
#[derive(Debug, Drop)]
pub(crate) struct Alternatives {
    list: Vec<Sets>,
}

impl Model for Alternatives {
    ghost use Rattle.std.specs.Prelude.{ℕ, List};

    /// The sets of each.
    ghost Value = { List (List (List ℕ)) };

    ghost view = { λ a. a.list.items };
}

impl Alternatives {
    /// Returns the alternatives as a slice.
    pub(crate) fn as_slice(&self) -> &[Sets]
        ensures { result.now ≡ self.now }
    {
        self.list.as_slice()
    }
}

/// A region: its counties, and what the listed groupings choose there.
#[derive(Debug, Drop)]
pub(crate) struct Region {
    /// The codes of its counties, ascending.
    pub(crate) counties: Codes,
    /// The alternatives, in the order of the first grouping that has each.
    pub(crate) alternatives: Alternatives,
}

/// Returns whether `counties` has all of the `codes`.
fn has_all(counties: &[CountyCode], codes: &[CountyCode]) -> bool
    ensures { result ≡ list_all (contains counties.now) codes.now }
{
    codes.iter().all(|code| has_code(counties, *code))
}

/// Returns those of the `sets` whose counties all lie in the region with these `counties`.
pub(crate) fn inside(
    alloc: Global,
    counties: &[CountyCode],
    sets: &[Codes],
) -> Result<Sets, AllocError>
    ensures { IfOk result (λ v. v ≡ sets_inside counties.now sets.now) }
{
    let mut found = Vec::new(alloc);
    for set in sets {
        if has_all(counties, set.as_slice()) {
            found.push(set.copy()?)?;
        }
    }
    Ok(Sets::new(found))
}

/// Returns whether one of the `choices` has the same sets as `choice`.
fn has_choice(choices: &[Sets], choice: &Sets) -> bool
    ensures { result ≡ list_any (λ x. same_sets x choice.now) choices.now }
{
    choices.iter().any(|other| other.is_same(choice))
}

/// Appends `choice` to `choices`, if it isn't among them.
fn push_choice(choices: &mut Vec<Sets>, choice: Sets) -> Result<(), AllocError>
    ensures { OnOk result (choices.new.items ≡ add_choice choices.old.items choice) }
{
    if !has_choice(choices, &choice) {
        choices.push(choice)?;
    }
    Ok(())
}

/// Returns the different choices of the listed groupings in the region with these `counties`.
fn choices_in(
    alloc: Global,
    listed: &[Sets],
    counties: &[CountyCode],
) -> Result<Alternatives, AllocError>
    ensures { IfOk result (λ v. v ≡ alternatives_in listed.now counties.now) }
{
    let mut list = Vec::new(alloc);
    for sets in listed {
        push_choice(&mut list, inside(alloc, counties, sets.as_slice())?)?;
    }
    Ok(Alternatives { list })
}

/// Returns the regions whose counties are these `parts`, with their alternatives.
pub(crate) fn regions_with(
    alloc: Global,
    listed: &[Sets],
    parts: &[Codes],
) -> Result<Vec<Region>, AllocError>
    ensures { IfOk result (λ v. v.items ≡ with_alternatives listed.now parts.now) }
{
    let mut regions = Vec::new(alloc);
    for counties in parts {
        regions.push(Region {
            counties: counties.copy()?,
            alternatives: choices_in(alloc, listed, counties.as_slice())?,
        })?;
    }
    Ok(regions)
}

/// Returns the number, from 1, of the first of the `choices` that has the same sets as `choice`.
pub(crate) fn alternative_number(choices: &[Sets], choice: &Sets) -> usize
    ensures { result ≡ number_of_alternative choices.now choice.now }
{
    for (i, other) in choices.iter().enumerate() {
        if other.is_same(choice) {
            return i + 1;
        }
    }
    choices.len() + 1
}

/// Returns whether the product of the regions' numbers of alternatives is `number`, which is not 0.
pub(crate) fn has_product(regions: &[Region], number: usize) -> bool
    requires { 1 ≤ number }
    ensures { result ≡ (product regions.now == number) }
{
    let mut so_far: usize = 1;
    for region in regions {
        match so_far.checked_mul(region.alternatives.as_slice().len()) {
            Some(more) => so_far = more,
            None => return false,
        }
    }
    so_far == number
}
