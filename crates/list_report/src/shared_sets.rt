//! The sets that all listed groupings have, and the others.

ghost use Rattle.std.specs.{Prelude.{◌≡◌, ℕ, ◌++◌, List, not, filter, IfOk, OnOk}, List.list_all};
ghost use Rattle.list_report.specs.SharedSets.{has_set, first_sets, shared_sets, unshared_sets};

use crate::sets::Sets;
use county_codes::Codes;
use std::alloc::{AllocError, Global};

/// Returns whether `set` is one of the `sets`.
fn has(sets: &[Codes], set: &Codes) -> bool
    ensures { result ≡ has_set sets.now set.now }
{
    sets.iter().any(|other| other == set)
}

/// Returns whether each listed grouping has `set`.
fn all_have(listed: &[Sets], set: &Codes) -> bool
    ensures { result ≡ list_all (λ g. has_set g set.now) listed.now }
{
    listed.iter().all(|sets| has(sets.as_slice(), set))
}

/// Returns those of the `sets` that each listed grouping has, in their order.
fn kept_by_all(alloc: Global, listed: &[Sets], sets: &[Codes]) -> Result<Vec<Codes>, AllocError>
    ensures { IfOk result (λ v. v.items ≡ filter (λ s. list_all (λ g. has_set g s) listed.now) sets.now) }
{
    let mut shared = Vec::new(alloc);
    for set in sets {
        if all_have(listed, set) {
            shared.push(set.copy()?)?;
        }
    }
    Ok(shared)
}

/// Returns the sets of the first of the `listed` groupings that all of them have, in their order. Returns no set if no
/// grouping is listed.
pub(crate) fn shared_by_all(alloc: Global, listed: &[Sets]) -> Result<Vec<Codes>, AllocError>
    ensures { IfOk result (λ v. v.items ≡ shared_sets listed.now) }
{
    match listed.first() {
        Some(sets) => kept_by_all(alloc, listed, sets.as_slice()),
        None => Ok(Vec::new(alloc)),
    }
}

/// Appends those of the `sets` that aren't shared.
fn push_unshared(out: &mut Vec<Codes>, shared: &[Codes], sets: &[Codes]) -> Result<(), AllocError>
    ensures { OnOk result (out.new.items ≡ out.old.items ++ filter (λ s. not (has_set shared.now s)) sets.now) }
{
    for set in sets {
        if !has(shared, set) {
            out.push(set.copy()?)?;
        }
    }
    Ok(())
}

/// Returns the sets of all `listed` groupings that aren't among the `shared` sets, one grouping after the other.
pub(crate) fn not_shared(
    alloc: Global,
    shared: &[Codes],
    listed: &[Sets],
) -> Result<Vec<Codes>, AllocError>
    ensures { IfOk result (λ v. v.items ≡ unshared_sets shared.now listed.now) }
{
    let mut unshared = Vec::new(alloc);
    for sets in listed {
        push_unshared(&mut unshared, shared, sets.as_slice())?;
    }
    Ok(unshared)
}
