//! The law of openings. The function does nothing; its contract is the law.

ghost use Rattle.share_board.specs.Laws.{RoundsOpen};

/// States that a plain round opens in exactly one way at each of its states, to each depth. Any round opens in exactly
/// one way to depth 0.
///
/// So either the opening has no more pieces than a round may begin with, or every opening has more and there is one. If
/// a board may begin with a round, there is a content to begin with.
pub fn rounds_open()
    ensures { RoundsOpen }
{}
