//! Pieces and lines that are taken of the bytes that were pulled.

/// Where a piece lies among the bytes that were taken since the last pull.
#[derive(Clone, Copy, Debug, PartialEq, Eq)]
pub(crate) struct TakenPiece {
    /// Where its bytes begin.
    pub(crate) from: usize,
    /// Where they end, before the LF.
    pub(crate) to: usize,
    /// Whether an LF ended it.
    pub(crate) ended: bool,
}

impl TakenPiece {
    /// Creates the value that stands for no piece, if none was taken.
    pub(crate) fn none() -> Self {
        TakenPiece {
            from: 0,
            to: 0,
            ended: false,
        }
    }
}

/// Where a line lies among the bytes that were taken since the last pull, with its CR and its byte order mark.
#[derive(Clone, Copy, Debug, PartialEq, Eq)]
pub(crate) struct TakenLine {
    /// Its number.
    pub(crate) number: u32,
    /// Where its bytes begin.
    pub(crate) from: usize,
    /// Where they end, before the LF.
    pub(crate) to: usize,
}

impl TakenLine {
    /// Creates the value that stands for no line, if none was taken.
    pub(crate) fn none() -> Self {
        TakenLine {
            number: 0,
            from: 0,
            to: 0,
        }
    }
}
