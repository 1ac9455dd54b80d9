//! The number of a grouping in a list of groupings, by its sets.

ghost use Rattle.std.specs.{Prelude.{◌≡◌, ◌++◌, OnOk, map}, List.{list_all, list_any}};
ghost use Rattle.grouping_laws.specs.Sets.{contains};
ghost use Rattle.list_groupings.specs.Walking.{sets_held};
ghost use Rattle.run_laws.specs.WhichGrouping.{have_same_counties as are_same_counties, has_sets_of as has_its_sets};
ghost use Rattle.run_laws.specs.WhichGrouping.{have_same_sets as are_same_sets, number_in_list as listed_number};
ghost use Rattle.run_laws.specs.WhichGrouping.{number_line};

use county_codes::{CountyCode, Group, Grouping, has_code};
use field_lines::push_number;
use std::alloc::AllocError;

/// Returns whether `set` has each of the counties in `codes`.
fn has_each(set: &[CountyCode], codes: &[CountyCode]) -> bool
    ensures { result ≡ list_all (contains set.now) codes.now }
{
    codes.iter().all(|code| has_code(set, *code))
}

/// Returns whether the sets `first` and `second` have the same counties, in any order.
fn have_same_counties(first: &[CountyCode], second: &[CountyCode]) -> bool
    ensures { result ≡ are_same_counties first.now second.now }
{
    has_each(second, first) && has_each(first, second)
}

/// Returns whether one of `groups` has the counties in `codes`, and no others.
fn has_set(groups: &[Group], codes: &[CountyCode]) -> bool
    ensures { result ≡ list_any (λ l. are_same_counties codes.now l.codes) groups.now }
{
    groups
        .iter()
        .any(|group| have_same_counties(codes, group.codes.as_slice()))
}

/// Returns whether each set of `first` is a set of `second`.
fn has_sets_of(first: &[Group], second: &[Group]) -> bool
    ensures { result ≡ has_its_sets first.now second.now }
{
    first
        .iter()
        .all(|group| has_set(second, group.codes.as_slice()))
}

/// Returns whether the groupings `first` and `second` have the same sets, in any order and with any seats.
fn have_same_sets(first: &[Group], second: &[Group]) -> bool
    ensures { result ≡ are_same_sets first.now second.now }
{
    has_sets_of(first, second) && has_sets_of(second, first)
}

/// Returns the number, from 1, of the first of `groupings` that has the sets of `grouping`. `None` if none has them.
pub(crate) fn number_in_list(grouping: &Grouping, groupings: &[Grouping]) -> Option<usize>
    ensures { result ≡ listed_number grouping.now.groups.items (map sets_held groupings.now) }
{
    for (i, listed) in groupings.iter().enumerate() {
        if have_same_sets(&grouping.groups, &listed.groups) {
            return Some(i + 1);
        }
    }
    None
}

/// Appends the line that tells the `number` of a grouping, or that the grouping isn't listed.
///
/// # Errors
///
/// Returns `AllocError` if memory was refused.
pub(crate) fn push_number_line(out: &mut Vec<u8>, number: Option<usize>) -> Result<(), AllocError>
    ensures { OnOk result (out.new.items ≡ out.old.items ++ number_line number) }
{
    match number {
        None => out.extend_from_slice(b"number none\n"),
        Some(number) => {
            out.extend_from_slice(b"number ")?;
            push_number(out, number as u64)?;
            out.extend_from_slice(b"\n")
        }
    }
}
