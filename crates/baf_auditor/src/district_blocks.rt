//! The listed census blocks that a plan gives to districts, with their labels and their people.

ghost use Rattle.std.specs.{Prelude.{◌≡◌, ◌≤◌, IfOk, length, map}, List.{filter_map, Sorted.{IsSorted, IsStrictlySortedBy}}};
ghost use Rattle.std.specs.{Ordering.nat_cmp, Map.lookup, BTreeMap.is_at};
ghost use Rattle.baf_auditor.specs.{Order.by_block, Giving.{given_entry, AreGiven}};

use crate::assignments::Assignment;
use crate::entries::value_of;
use crate::lines_by_block::Line;
use std::alloc::{AllocError, Global};
use std::marker::Model;

/// A listed block that a line gives to a district: the label, the block's code, and its people.
#[derive(Drop)]
pub(crate) struct Given<'a> {
    /// The line.
    pub(crate) assignment: &'a Assignment,
    /// The people of the block.
    pub(crate) people: u32,
}

impl<'a> Model for Given<'a> {
    ghost use Rattle.baf_auditor.specs.Districts.{GivenBlock};

    ghost Value = { GivenBlock };

    ghost use Rattle.std.specs.Prelude.{◌<◌};

    ghost view = { λ given. ((given.assignment.now.label, given.assignment.now.block), given.people) };

    ghost invariant = { λ given. given.people < 4294967296 };
}

/// Returns the listed block that `line` gives to a district, if it gives one.
fn given_entry<'a>(listed: &[(u64, u32)], line: &Line<'a>) -> Option<Given<'a>>
    requires { IsStrictlySortedBy nat_cmp (map (λ e. e.0) listed.now) }
    ensures { result ≡ given_entry (λ code. lookup (is_at (nat_cmp code)) listed.now) line.now }
{
    let assignment = line.assignment;
    if !assignment.label.assigns() {
        return None;
    }
    match value_of(listed, assignment.block) {
        Some(people) => Some(Given { assignment, people }),
        None => None,
    }
}

/// Returns the listed block of each of `lines` that gives one to a district.
fn given_entries<'a>(
    alloc: Global,
    listed: &[(u64, u32)],
    lines: &[Line<'a>],
) -> Result<Vec<Given<'a>>, AllocError>
    requires { IsStrictlySortedBy nat_cmp (map (λ e. e.0) listed.now) }
    ensures { IfOk result (λ v. v.items ≡ filter_map (given_entry (λ code. lookup (is_at (nat_cmp code)) listed.now)) lines.now) }
{
    lines
        .iter()
        .filter_map(|line| given_entry(listed, line))
        .collect(alloc)
}

/// Returns the listed blocks that `lines` give to districts. The lines are in the order of their blocks. `listed` has the
/// people of each listed block by its code. A block stands once for each district that it is given to.
pub(crate) fn given_blocks<'a>(
    alloc: Global,
    listed: Vec<(u64, u32)>,
    mut lines: Vec<Line<'a>>,
) -> Result<Vec<Given<'a>>, AllocError>
    requires sorted { IsStrictlySortedBy nat_cmp (map (λ e. e.0) listed.items) }
    requires ordered { IsSorted by_block lines.items }
    ensures given { IfOk result (λ v. AreGiven (λ code. lookup (is_at (nat_cmp code)) listed.items) lines.entry.items v.items) }
    ensures few { IfOk result (λ v. length v.items ≤ length lines.entry.items) }
{
    lines.dedup();
    given_entries(alloc, &listed, &lines)
}
