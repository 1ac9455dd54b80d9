//! Tests of whether the lines of a partial tree fit. They go by the values, and write no line.

ghost use Rattle.std.specs.Prelude.{◌<◌, [], ◌∷◌, ◌++◌};
ghost use Rattle.certificate_laws.specs.Depth.{after_raise};
ghost use Rattle.certificate_lines.specs.declared.item.Item.TheVariants as item;
ghost use Rattle.certificate_lines.specs.declared.item.Wanted.TheVariants as want;
ghost use Rattle.certificate_text.specs.Tests.{Tests};
ghost use Rattle.partial_trees.specs.PartialValue.{rest_of, partial_of, list_of_begun};
ghost use Rattle.partial_text.specs.PartItems.{items_of_part, items_of_begun};

use certificate_data::{Format, Tree};
use certificate_lines::{branch_fits, levels_after, take_fits};
use certificate_text::tree_fits;
use partial_trees::{PartialTake, PartialTree};

/// Returns whether the lines behind all branches fit the `format` and this number of `levels`. They are the lines of
/// the tree `rest`, or the line of the open leaf, which always fits.
fn rest_fits(rest: &Option<Tree>, format: Format, levels: u16) -> bool
    ensures { Tests (want.Part format levels ∷ []) (items_of_part (rest_of rest.now)) [] result }
{
    match rest {
        None => true,
        Some(tree) => tree_fits(tree, format, levels),
    }
}

/// Returns whether the lines of a branch's `takes` fit, each with its partial tree, and the line of its mark.
#[cycle(fitting)]
fn takes_fit(takes: &[PartialTake], format: Format, levels: u16) -> bool
    requires { 0 < levels }
    ensures { Tests (want.PartTakes format levels ∷ []) (items_of_begun (list_of_begun takes.now)
        ++ item.Mark ∷ []) (want.Part format (after_raise format levels) ∷ []) result }
{
    'taking: for take in takes {
        if !take_fits(take.codes.as_slice()) {
            return false;
        }
        if !part_fits(&take.tree, format, levels - 1) {
            return false;
        }
    }
    true
}

/// Returns whether the lines of the `part` fit, where its branches may open `levels` levels.
#[cycle(fitting)]
pub(crate) fn part_fits(part: &PartialTree, format: Format, levels: u16) -> bool
    ensures { Tests (want.Part format levels ∷ []) (items_of_part (partial_of part.now)) [] result }
{
    let mut levels = levels;
    'branching: for branch in &part.branches {
        if !branch_fits(format, levels, branch.county, branch.limit) {
            return false;
        }
        if !takes_fit(&branch.takes, format, levels) {
            return false;
        }
        levels = levels_after(format, levels);
    }
    rest_fits(&part.rest, format, levels)
}
