//! Tests of whether a text spells a tree or a certificate. They go by the values, and write no line.

ghost use Rattle.std.specs.Prelude.{◌↔◌, ◌<◌, ℕ, List, [], ◌∷◌, ◌++◌, map, length, Some, IsTrue};
ghost use Rattle.certificate_laws.specs.Depth.{after_raise};
ghost use Rattle.certificate_data.specs.{RoundValue.target_of, Tree.bound, declared.format.Format.Format};
ghost use Rattle.certificate_data.specs.TreeValue.{allowance_of, tree_of, leaf_of, list_of_takes, certificate_of};
ghost use Rattle.certificate_lines.specs.{Fitting.AllFit, Items.{groups_wanted, allowances_wanted}};
ghost use Rattle.certificate_lines.specs.declared.item.Item.TheVariants as item;
ghost use Rattle.certificate_lines.specs.declared.item.Wanted.TheVariants as want;
ghost use Rattle.certificate_text.specs.{Spelling.{IsSpelling, IsTreeSpelling}, Tests.Tests};
ghost use Rattle.certificate_text.specs.Trees.{leaf_items, items_of_tree, items_of_takes, items_of_head, items_of_target, items_of_certificate};

use certificate_data::{Allowance, Certificate, Format, Leaf, Take, Tree};
use certificate_lines::{
    allowance_fits, are_few, branch_fits, group_fits, is_code, levels_after, order_fits, take_fits,
};
use county_codes::{Group, Grouping, Tolerance};

/// Returns whether the lines of `allowances`, those of a bound leaf after its first one, fit.
fn allowances_fit(allowances: &[Allowance]) -> bool
    ensures { Tests (allowances_wanted (length allowances.now)) (map item.Allows allowances.now) [] result }
{
    for allowance in allowances {
        if !allowance_fits(allowance) {
            return false;
        }
    }
    true
}

/// Returns whether the lines of a bound leaf with these `allowances` fit, of which there may be at most 256.
fn bound_fits(allowances: &[Allowance]) -> bool
    ensures { (format : Format) (levels : ℕ)
        → Tests (want.Tree format levels ∷ []) (leaf_items (bound (map allowance_of allowances.now))) [] result }
{
    if !are_few(allowances.len()) {
        return false;
    }
    allowances_fit(allowances)
}

/// Returns whether the lines of a `leaf` fit.
fn leaf_fits(leaf: &Leaf) -> bool
    ensures { (format : Format) (levels : ℕ)
        → Tests (want.Tree format levels ∷ []) (leaf_items (leaf_of leaf.now)) [] result }
{
    match leaf {
        Leaf::Stuck(county) => is_code(*county),
        Leaf::Seats => true,
        Leaf::Bound(allowances) => bound_fits(allowances),
    }
}

/// Returns whether the lines of a branch's `takes` fit, each with its tree, and the line of its mark.
#[cycle(fitting)]
fn takes_fit(takes: &[Take], format: Format, levels: u16) -> bool
    requires { 0 < levels }
    ensures { Tests (want.Takes format levels ∷ []) (items_of_takes (list_of_takes takes.now)
        ++ item.Mark ∷ []) (want.Tree format (after_raise format levels) ∷ []) result }
{
    'taking: for take in takes {
        if !take_fits(take.codes.as_slice()) {
            return false;
        }
        if !tree_fits(&take.tree, format, levels - 1) {
            return false;
        }
    }
    true
}

/// Returns whether the lines of a `tree` fit, where its branches may open `levels` levels.
#[cycle(fitting)]
pub fn tree_fits(tree: &Tree, format: Format, levels: u16) -> bool
    ensures { Tests (want.Tree format levels ∷ []) (items_of_tree (tree_of tree.now)) [] result }
{
    let mut levels = levels;
    'branching: for branch in &tree.branches {
        if !branch_fits(format, levels, branch.county, branch.limit) {
            return false;
        }
        if !takes_fit(&branch.takes, format, levels) {
            return false;
        }
        levels = levels_after(format, levels);
    }
    leaf_fits(&tree.leaf)
}

/// Returns whether the head fits, and the line of `tolerance` if one is named.
fn head_fits(tolerance: Option<Tolerance>) -> bool
    ensures { (format : Format)
        → Tests (want.Head ∷ []) (items_of_head format tolerance) (want.Order format ∷ []) result }
{
    match tolerance {
        None => true,
        Some(tolerance) => tolerance.is_in_range(),
    }
}

/// Returns whether the lines of the `groups` fit.
fn groups_fit(groups: &[Group]) -> bool
    ensures { Tests (groups_wanted (length groups.now)) (map item.Grouped groups.now) [] result }
{
    for group in groups {
        if !group_fits(group) {
            return false;
        }
    }
    true
}

/// Returns whether the lines of a target with these `groups` fit.
fn counted_groups_fit(groups: &[Group]) -> bool
    ensures { Tests (want.Target ∷ []) (items_of_target (Some groups.now)) [] result }
{
    if !are_few(groups.len()) {
        return false;
    }
    groups_fit(groups)
}

/// Returns whether the lines of a `target` fit, or the line that says that there is none.
fn target_fits(target: &Option<Grouping>) -> bool
    ensures { Tests (want.Target ∷ []) (items_of_target (target_of target.now)) [] result }
{
    match target {
        Some(target) => counted_groups_fit(&target.groups),
        None => true,
    }
}

/// Returns whether the lines of a `certificate` fit.
fn certificate_fits(certificate: &Certificate) -> bool
    ensures { IsTrue result ↔ AllFit (want.Head ∷ []) (items_of_certificate (certificate_of certificate.now)) }
{
    let round = &certificate.round;
    let order = round.order.as_slice();
    if !head_fits(round.tolerance) {
        return false;
    }
    if !order_fits(order) {
        return false;
    }
    if !are_few(usize::from(round.limit)) {
        return false;
    }
    if !target_fits(&round.target) {
        return false;
    }
    tree_fits(&certificate.tree, round.format, order.len() as u16)
}

/// Returns whether a text spells the `tree`, for an order of `counties` counties.
pub(crate) fn has_tree_text(tree: &Tree, format: Format, counties: u16) -> bool
    ensures { IsTrue result ↔ ((text : List ℕ) × IsTreeSpelling format counties text (tree_of tree.now)) }
{
    tree_fits(tree, format, counties)
}

/// Returns whether a text spells the `certificate`.
pub(crate) fn has_text(certificate: &Certificate) -> bool
    ensures { IsTrue result ↔ ((text : List ℕ) × IsSpelling text (certificate_of certificate.now)) }
{
    certificate_fits(certificate)
}
