//! The lines of a partial tree, written with its numbers as they stand.

ghost use Rattle.std.specs.Prelude.{◌≡◌, [], ◌∷◌, IfOk, OnOk};
ghost use Rattle.certificate_lines.specs.Spelling.{text_of_items};
ghost use Rattle.certificate_lines.specs.declared.item.Item.TheVariants as item;
ghost use Rattle.partial_trees.specs.PartialValue.{rest_of, partial_of};
ghost use Rattle.partial_text.specs.{PartItems.items_of_part, Reading.{part_branch_items, part_take_items}};
ghost use Rattle.partial_text.specs.Writing.{AddsLines};

use certificate_data::Tree;
use certificate_text::{push_branch_line, push_mark_line, push_take_line, push_tree};
use partial_trees::{PartialBranch, PartialTake, PartialTree};
use std::alloc::{AllocError, Global};

/// Appends the line of an open leaf.
fn push_open_line(out: &mut Vec<u8>) -> Result<(), AllocError>
    ensures { OnOk result (AddsLines (item.Open ∷ []) out.old.items out.new.items) }
{
    out.extend_from_slice(b"open\n")
}

/// Appends the lines of `rest`, the tree behind all branches, or the line of the open leaf if there is no such tree.
fn push_rest(out: &mut Vec<u8>, rest: &Option<Tree>) -> Result<(), AllocError>
    ensures { OnOk result (AddsLines (items_of_part (rest_of rest.now)) out.old.items out.new.items) }
{
    match rest {
        None => push_open_line(out),
        Some(tree) => push_tree(out, tree),
    }
}

/// Appends the lines of a `take` and its partial tree.
#[cycle(push_lines)]
fn push_take(out: &mut Vec<u8>, take: &PartialTake) -> Result<(), AllocError>
    ensures { OnOk result (AddsLines (part_take_items take.now) out.old.items out.new.items) }
{
    push_take_line(out, take.codes.as_slice())?;
    push_part(out, &take.tree)
}

/// Appends the lines of a `branch`, up to its mark.
#[cycle(push_lines)]
fn push_branch(out: &mut Vec<u8>, branch: &PartialBranch) -> Result<(), AllocError>
    ensures { OnOk result (AddsLines (part_branch_items branch.now) out.old.items out.new.items) }
{
    push_branch_line(out, branch.county, branch.limit)?;
    'taking: for take in &branch.takes {
        push_take(out, take)?;
    }
    push_mark_line(out)
}

/// Appends the lines of a `part`.
#[cycle(push_lines)]
fn push_part(out: &mut Vec<u8>, part: &PartialTree) -> Result<(), AllocError>
    ensures { OnOk result (AddsLines (items_of_part (partial_of part.now)) out.old.items out.new.items) }
{
    'branching: for branch in &part.branches {
        push_branch(out, branch)?;
    }
    push_rest(out, &part.rest)
}

/// Returns the lines of a `part`, whatever its numbers are.
pub(crate) fn part_lines(alloc: Global, part: &PartialTree) -> Result<Vec<u8>, AllocError>
    ensures { IfOk result (λ text. text.items ≡ text_of_items (items_of_part (partial_of part.now))) }
{
    let mut out = Vec::new(alloc);
    push_part(&mut out, part)?;
    Ok(out)
}
