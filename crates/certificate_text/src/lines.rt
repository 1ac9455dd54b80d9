//! The lines of a tree or a certificate, written with its numbers as they stand.

ghost use Rattle.std.specs.Prelude.{◌≡◌, ◌<◌, ◌^◌, ◌∷◌, ◌++◌, [], map, codes, decimal, IfOk, OnOk};
ghost use Rattle.certificate_lines.specs.Spelling.{text_of_items};
ghost use Rattle.certificate_data.specs.declared.allowance.Allowance.TheVariants as allowance;
ghost use Rattle.certificate_lines.specs.declared.item.Item.TheVariants as item;
ghost use Rattle.certificate_lines.specs.declared.item.Opening.TheVariants as opening;
ghost use Rattle.certificate_data.specs.{RoundValue.target_of, TreeValue.{tree_of, leaf_of, certificate_of}};
ghost use Rattle.certificate_text.specs.Trees.{leaf_items, items_of_tree, items_of_head, items_of_target, items_of_certificate};
ghost use Rattle.certificate_text.specs.{Writing.{Added, branch_items, take_items}, Ranges.AreTreeNumbers};

use certificate_data::{Allowance, Branch, Certificate, Format, Leaf, Take, Tree, Weight};
use certificate_lines::{
    Version, push_code_and_number_line, push_code_line, push_codes_line, push_count_line,
    push_group_line, push_head, push_limit, push_number_and_weights, push_order, push_target_line,
    push_tolerance,
};
use county_codes::{CountyCode, Group, Grouping, Tolerance};
use std::alloc::{AllocError, Global};

/// Appends the first line of a bound leaf, which says how many `lines` follow.
fn push_bound_line(out: &mut Vec<u8>, lines: usize) -> Result<(), AllocError>
    ensures text { OnOk result (out.new.items ≡ out.old.items ++ (codes "bound " ++ (decimal lines ++ 10 ∷ []))) }
    ensures range { lines < 2 ^ 64 }
{
    push_count_line(out, b"bound ", lines)
}

/// Appends the line of a `quota` and `weights`.
fn push_weigh_line(out: &mut Vec<u8>, quota: u32, weights: &[Weight]) -> Result<(), AllocError>
    ensures { OnOk result (Added (item.Allows (allowance.Weigh quota weights.now) ∷ []) out.old.items out.new.items) }
{
    push_number_and_weights(out, b"weigh ", quota, weights)?;
    out.extend_from_slice(b"\n")?;
    Ok(())
}

/// Appends the line of `allowance`, which is one of a bound leaf.
fn push_allowance(out: &mut Vec<u8>, allowance: &Allowance) -> Result<(), AllocError>
    ensures { OnOk result (Added (item.Allows allowance.now ∷ []) out.old.items out.new.items) }
{
    match allowance {
        Allowance::Room => out.extend_from_slice(b"room\n"),
        Allowance::Weigh { quota, weights } => push_weigh_line(out, *quota, weights.as_slice()),
    }
}

/// Appends the lines of `allowances`, which are those of a bound leaf after its first one.
fn push_allowances(out: &mut Vec<u8>, allowances: &[Allowance]) -> Result<(), AllocError>
    ensures { OnOk result (Added (map item.Allows allowances.now) out.old.items out.new.items) }
{
    for allowance in allowances {
        push_allowance(out, allowance)?;
    }
    Ok(())
}

/// Appends the lines of a `leaf`.
fn push_leaf(out: &mut Vec<u8>, leaf: &Leaf) -> Result<(), AllocError>
    ensures { OnOk result (Added (leaf_items (leaf_of leaf.now)) out.old.items out.new.items) }
{
    match leaf {
        Leaf::Stuck(county) => push_code_line(out, b"stuck ", *county),
        Leaf::Seats => out.extend_from_slice(b"seats\n"),
        Leaf::Bound(allowances) => {
            push_bound_line(out, allowances.len())?;
            push_allowances(out, allowances)
        }
    }
}

/// Appends the line that opens a branch at `county`, with its `limit` if there is one. Returns an error if memory was
/// refused.
pub fn push_branch_line(
    out: &mut Vec<u8>,
    county: CountyCode,
    limit: Option<u16>,
) -> Result<(), AllocError>
    ensures { OnOk result (Added (item.Opens (opening.Branch county limit) ∷ []) out.old.items out.new.items) }
{
    match limit {
        None => push_code_line(out, b"branch ", county),
        Some(limit) => push_code_and_number_line(out, b"branch ", county, u32::from(limit)),
    }
}

/// Appends the line of a take of the counties `codes`. Returns an error if memory was refused.
pub fn push_take_line(out: &mut Vec<u8>, codes: &[CountyCode]) -> Result<(), AllocError>
    ensures { OnOk result (Added (item.Takes codes.now ∷ []) out.old.items out.new.items) }
{
    push_codes_line(out, b"take", codes)
}

/// Appends the line of the mark. Returns an error if memory was refused.
pub fn push_mark_line(out: &mut Vec<u8>) -> Result<(), AllocError>
    ensures { OnOk result (Added (item.Mark ∷ []) out.old.items out.new.items) }
{
    out.extend_from_slice(b"mark\n")
}

/// Appends the lines of a `take` and its tree.
#[cycle(push_lines)]
fn push_take(out: &mut Vec<u8>, take: &Take) -> Result<(), AllocError>
    ensures { OnOk result (Added (take_items take.now) out.old.items out.new.items) }
{
    push_take_line(out, take.codes.as_slice())?;
    push_tree(out, &take.tree)
}

/// Appends the lines of a `branch`, up to its mark.
#[cycle(push_lines)]
fn push_branch(out: &mut Vec<u8>, branch: &Branch) -> Result<(), AllocError>
    ensures { OnOk result (Added (branch_items branch.now) out.old.items out.new.items) }
{
    push_branch_line(out, branch.county, branch.limit)?;
    'taking: for take in &branch.takes {
        push_take(out, take)?;
    }
    push_mark_line(out)
}

/// Appends the lines of a `tree`. Returns an error if memory was refused.
#[cycle(push_lines)]
pub fn push_tree(out: &mut Vec<u8>, tree: &Tree) -> Result<(), AllocError>
    ensures { OnOk result (Added (items_of_tree (tree_of tree.now)) out.old.items out.new.items) }
{
    'branching: for branch in &tree.branches {
        push_branch(out, branch)?;
    }
    push_leaf(out, &tree.leaf)
}

/// Returns the lines of a `tree`, whatever its numbers are. If the tree has a spelling, these lines are its spelling.
///
/// # Errors
///
/// Returns an error if memory was refused.
pub fn tree_lines(alloc: Global, tree: &Tree) -> Result<Vec<u8>, AllocError>
    ensures text { IfOk result (λ text. text.items ≡ text_of_items (items_of_tree (tree_of tree.now))) }
    ensures numbers { IfOk result (λ text. AreTreeNumbers (tree_of tree.now)) }
{
    let mut out = Vec::new(alloc);
    push_tree(&mut out, tree)?;
    Ok(out)
}

/// Appends the head of this `format`, and the line of `tolerance` if one is named.
fn push_head_lines(
    out: &mut Vec<u8>,
    format: Format,
    tolerance: Option<Tolerance>,
) -> Result<(), AllocError>
    ensures { OnOk result (out.new.items ≡ out.old.items ++ text_of_items (items_of_head format tolerance)) }
{
    match tolerance {
        None => push_head(out, format, Version::One),
        Some(tolerance) => {
            push_head(out, format, Version::Two)?;
            push_tolerance(out, tolerance)
        }
    }
}

/// Appends the lines of a target's `groups`.
fn push_groups(out: &mut Vec<u8>, groups: &[Group]) -> Result<(), AllocError>
    ensures { OnOk result (out.new.items ≡ out.old.items ++ text_of_items (map item.Grouped groups.now)) }
{
    for group in groups {
        push_group_line(out, group)?;
    }
    Ok(())
}

/// Appends the lines of a `target`, or the line that says that there is none.
fn push_target(out: &mut Vec<u8>, target: &Option<Grouping>) -> Result<(), AllocError>
    ensures { OnOk result (out.new.items ≡ out.old.items ++ text_of_items (items_of_target (target_of target.now))) }
{
    match target {
        Some(target) => {
            push_target_line(out, Some(target.groups.len()))?;
            push_groups(out, &target.groups)
        }
        None => push_target_line(out, None),
    }
}

/// Returns the lines of a `certificate`, whatever its numbers are.
pub(crate) fn lines_of(alloc: Global, certificate: &Certificate) -> Result<Vec<u8>, AllocError>
    ensures { IfOk result (λ text. text.items ≡ text_of_items (items_of_certificate (certificate_of certificate.now))) }
{
    let round = &certificate.round;
    let mut out = Vec::new(alloc);
    push_head_lines(&mut out, round.format, round.tolerance)?;
    push_order(&mut out, round.order.as_slice())?;
    push_limit(&mut out, round.limit)?;
    push_target(&mut out, &round.target)?;
    push_tree(&mut out, &certificate.tree)?;
    out.extend_from_slice(b"end\n")?;
    Ok(out)
}
