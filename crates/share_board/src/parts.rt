//! Partial trees that are made: an open leaf, and a branch of which all leaves are open.

ghost use Rattle.std.specs.Prelude.{◌≡◌, IfOk};
ghost use Rattle.board_laws.specs.PartialTrees.{open_leaf, open_branch};
ghost use Rattle.partial_trees.specs.PartialValue.{partial_of};

use county_codes::{Codes, CountyCode};
use partial_trees::{PartialBranch, PartialTake, PartialTree};
use std::alloc::{AllocError, Global};

/// Returns an open leaf, which is the place of one piece.
pub(crate) fn open_place(alloc: Global) -> PartialTree
    ensures { partial_of result ≡ open_leaf }
{
    PartialTree {
        branches: Vec::new(alloc),
        rest: None,
    }
}

/// Returns the branch at `county` with these `groups`, of which all leaves are open.
pub(crate) fn split_tree(
    alloc: Global,
    county: CountyCode,
    limit: u16,
    groups: Vec<Codes>,
) -> Result<PartialTree, AllocError>
    ensures { IfOk result (λ tree. partial_of tree ≡ open_branch county limit groups.items) }
{
    let mut takes = Vec::new(alloc);
    for codes in groups {
        let tree = open_place(alloc);
        takes.push(PartialTake { codes, tree })?;
    }
    let mut branches = Vec::new(alloc);
    branches.push(PartialBranch {
        county,
        limit: Some(limit),
        takes,
    })?;
    Ok(PartialTree {
        branches,
        rest: None,
    })
}
