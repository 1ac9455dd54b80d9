//! Copies of trees and certificates, equal and separate. Copying goes as deep as takes nest.

ghost use Rattle.std.specs.Prelude.{◌≡◌, IfOk};
ghost use Rattle.certificate_data.specs.Tree.{Tree as TreeValue, Takes};
ghost use Rattle.certificate_data.specs.TreeValue.{tree_of, branch_onto, take_onto, leaf_of, certificate_of};

use crate::allowance::Allowance;
use crate::certificate::Certificate;
use crate::tree::{Branch, Leaf, Take, Tree};
use std::alloc::{AllocError, Global};

/// Returns a copy of `lines`, which are those of a bound leaf, or `AllocError` if memory was refused.
fn copy_lines(alloc: Global, lines: &[Allowance]) -> Result<Vec<Allowance>, AllocError>
    ensures { IfOk result (λ v. v.items ≡ lines.now) }
{
    let mut copies = Vec::new(alloc);
    for line in lines {
        copies.push(line.copy()?)?;
    }
    Ok(copies)
}

impl Leaf {
    /// Returns an equal leaf, or an error if memory was refused.
    pub fn copy(&self) -> Result<Leaf, AllocError>
        ensures { IfOk result (λ leaf. leaf_of leaf ≡ leaf_of self.now) }
    {
        match self {
            Leaf::Stuck(county) => Ok(Leaf::Stuck(*county)),
            Leaf::Seats => Ok(Leaf::Seats),
            Leaf::Bound(lines) => Ok(Leaf::Bound(copy_lines(*lines.allocator(), lines)?)),
        }
    }
}

impl Tree {
    /// Returns an equal tree, or an error if memory was refused.
    #[cycle(copies)]
    pub fn copy(&self) -> Result<Tree, AllocError>
        ensures { IfOk result (λ tree. tree_of tree ≡ tree_of self.now) }
    {
        let mut branches = Vec::new(*self.branches.allocator());
        for branch in &self.branches {
            branches.push(branch.copy()?)?;
        }
        let leaf = self.leaf.copy()?;
        Ok(Tree { branches, leaf })
    }
}

impl Branch {
    /// Returns an equal branch, or an error if memory was refused.
    #[cycle(copies)]
    pub fn copy(&self) -> Result<Branch, AllocError>
        ensures { IfOk result (λ branch. (raised : TreeValue)
            → branch_onto branch raised ≡ branch_onto self.now raised) }
    {
        let mut takes = Vec::new(*self.takes.allocator());
        for take in &self.takes {
            takes.push(take.copy()?)?;
        }
        Ok(Branch {
            county: self.county,
            limit: self.limit,
            takes,
        })
    }
}

impl Take {
    /// Returns an equal take, or an error if memory was refused.
    #[cycle(copies)]
    pub fn copy(&self) -> Result<Take, AllocError>
        ensures { IfOk result (λ take. (others : Takes) → take_onto take others ≡ take_onto self.now others) }
    {
        Ok(Take {
            codes: self.codes.copy()?,
            tree: self.tree.copy()?,
        })
    }
}

impl Certificate {
    /// Returns an equal certificate, or an error if memory was refused.
    pub fn copy(&self) -> Result<Certificate, AllocError>
        ensures { IfOk result (λ certificate. certificate_of certificate ≡ certificate_of self.now) }
    {
        Ok(Certificate {
            round: self.round.copy()?,
            tree: self.tree.copy()?,
        })
    }
}
