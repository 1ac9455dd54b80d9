//! Tests of whether each branch of a partial tree has an open leaf.

ghost use Rattle.std.specs.Prelude.{◌↔◌, IsTrue};
ghost use Rattle.partial_trees.specs.PartialValue.{partial_of, list_of_begun};
ghost use Rattle.partial_trees.specs.OpenBranches.{BranchesAreOpen, BranchesOfTakesAreOpen};

use crate::reading::have_open_leaf;
use partial_trees::{PartialTake, PartialTree};

/// Returns whether each branch in the trees of the `takes` has an open leaf.
#[cycle(opened)]
fn takes_are_open(takes: &[PartialTake]) -> bool
    ensures { IsTrue result ↔ BranchesOfTakesAreOpen (list_of_begun takes.now) }
{
    'taking: for take in takes {
        if !branches_are_open(&take.tree) {
            return false;
        }
    }
    true
}

/// Returns whether each branch of the `part` has an open leaf, in its takes or behind it.
#[cycle(opened)]
pub(crate) fn branches_are_open(part: &PartialTree) -> bool
    ensures { IsTrue result ↔ BranchesAreOpen (partial_of part.now) }
{
    let mut in_takes = true;
    'branching: for branch in &part.branches {
        if !takes_are_open(&branch.takes) {
            return false;
        }
        in_takes = have_open_leaf(&branch.takes);
    }
    if in_takes {
        return true;
    }
    part.rest.is_none()
}
