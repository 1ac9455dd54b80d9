//! The format, the limit and the depth of a board's first round.

use certificate_data::Format;

/// The shape of a board's first round.
#[derive(Clone, Copy, Debug)]
pub struct BoardShape {
    /// The format of its certificate.
    pub format: Format,
    /// The greatest size of a group that a branch may close, in counties.
    pub limit: u16,
    /// The greatest number of branchings that stand above its pieces.
    pub depth: u8,
}
