//! The assignments of a plan in the order of their census blocks.

ghost use Rattle.std.specs.{Prelude.{◌≡◌, IfOk, length}, List.Sorted.{IsPermutation, IsSorted}};
ghost use Rattle.baf_auditor.specs.Order.{by_block};

use crate::assignments::Assignment;
use std::alloc::{AllocError, Global};
use std::cmp::Ordering;
use std::marker::Model;

/// An assignment that is compared by its block, and then by its label.
#[derive(Drop)]
pub(crate) struct Line<'a> {
    /// The assignment.
    pub(crate) assignment: &'a Assignment,
}

impl<'a> Model for Line<'a> {
    ghost use Rattle.baf_auditor.specs.declared.assignments.Assignment.{Assignment};

    ghost Value = { Assignment };

    ghost view = { λ line. line.assignment.now };
}

impl<'a> PartialEq for Line<'a> {
    ghost use Rattle.std.specs.{Ordering.eq_by_cmp, Cmp.{partial_equiv_from_equiv, eq_by_cmp_equiv}};
    ghost use Rattle.baf_auditor.specs.Order.{by_block, by_block_total};

    ghost eq = { eq_by_cmp by_block };

    ghost laws = { partial_equiv_from_equiv (eq_by_cmp_equiv by_block_total) };

    fn eq(&self, other: &Self) -> bool {
        self.cmp(other).is_eq()
    }
}

impl<'a> Eq for Line<'a> {
    ghost use Rattle.std.specs.Cmp.{eq_by_cmp_equiv};
    ghost use Rattle.baf_auditor.specs.Order.{by_block_total};

    ghost laws = { eq_by_cmp_equiv by_block_total };
}

impl<'a> PartialOrd for Line<'a> {
    ghost use Rattle.std.specs.{Prelude.{Some, refl}, Cmp.po};
    ghost use Rattle.baf_auditor.specs.Order.{by_block, by_block_total};

    ghost partial_cmp = { λ x y. Some (by_block x y) };

    ghost laws = { po by_block_total (λ x y. refl) };

    fn partial_cmp(&self, other: &Self) -> Option<Ordering> {
        Some(self.cmp(other))
    }
}

/// Lines are compared by their blocks, and then by their labels.
impl<'a> Ord for Line<'a> {
    ghost use Rattle.std.specs.Prelude.{refl};
    ghost use Rattle.baf_auditor.specs.Order.{by_block, by_block_total};

    ghost cmp = { by_block };

    ghost total = { by_block_total };

    ghost matches_partial_cmp = { λ x y. refl };

    ghost matches_eq = { λ x y. refl };

    fn cmp(&self, other: &Self) -> Ordering {
        match self.assignment.block.cmp(&other.assignment.block) {
            Ordering::Equal => self.assignment.label.cmp(&other.assignment.label),
            unequal => unequal,
        }
    }
}

/// Returns the `lines` of a file by their blocks, and then by their labels.
pub(crate) fn lines_by_block(
    alloc: Global,
    lines: &[Assignment],
) -> Result<Vec<Line<'_>>, AllocError>
    ensures same { IfOk result (λ v. IsPermutation lines.now v.items) }
    ensures long { IfOk result (λ v. length v.items ≡ length lines.now) }
    ensures ordered { IfOk result (λ v. IsSorted by_block v.items) }
{
    let mut ordered: Vec<Line<'_>> = lines
        .iter()
        .map(|assignment| Line { assignment })
        .collect(alloc)?;
    ordered.sort_unstable();
    Ok(ordered)
}
