//! Whether a partial tree has an open leaf.

ghost use Rattle.std.specs.Prelude.{◌≤◌, ◌↔◌, IsTrue};
ghost use Rattle.board_laws.specs.PartialTrees.{open_leaves, open_in, IsPart};
ghost use Rattle.partial_trees.specs.PartialValue.{partial_of, list_of_begun};

use crate::tree::{PartialTake, PartialTree};

/// Returns whether an open leaf stands in one of the `takes`.
#[cycle(leaving)]
fn takes_are_open(takes: &[PartialTake]) -> bool
    ensures { IsTrue result ↔ (1 ≤ open_in (list_of_begun takes.now)) }
{
    'taking: for take in takes {
        if has_open_leaf(&take.tree) {
            return true;
        }
    }
    false
}

/// Returns whether a leaf of `tree` is open.
#[cycle(leaving)]
fn has_open_leaf(tree: &PartialTree) -> bool
    ensures { IsTrue result ↔ (1 ≤ open_leaves (partial_of tree.now)) }
{
    if tree.rest.is_none() {
        return true;
    }
    'branching: for branch in &tree.branches {
        if takes_are_open(&branch.takes) {
            return true;
        }
    }
    false
}

impl PartialTree {
    /// Returns whether a branch was begun and some leaf is open.
    pub fn is_part(&self) -> bool
        ensures { IsTrue result ↔ IsPart (partial_of self.now) }
    {
        !self.branches.is_empty() && has_open_leaf(self)
    }
}
