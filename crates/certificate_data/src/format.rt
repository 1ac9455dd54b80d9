//! The two formats of certificates, plain and wide.

/// The two formats of certificates.
///
/// In a plain certificate the limit of the round serves the whole tree, and each branch is at the first open county of
/// the order. In a wide one each branch has a county and a limit of its own, and groups that leave a stuck part behind
/// are left out.
#[derive(Clone, Copy, Debug, PartialEq, Eq)]
pub enum Format {
    /// One limit for the whole tree.
    Plain,
    /// A limit for each branch.
    Wide,
}
