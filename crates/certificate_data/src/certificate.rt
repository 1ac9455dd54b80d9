//! Certificates: a round and its tree.

use crate::round::Round;
use crate::tree::Tree;

/// A certificate: what it is about, and its tree.
#[derive(Debug, Drop)]
pub struct Certificate {
    /// What it is about.
    pub round: Round,
    /// The tree.
    pub tree: Tree,
}
