//! The pieces of a text, either in memory or pulled from a source.

ghost use Rattle.std.specs.{Prelude.{Bool, false}, Borrow.sem, Io.BufRead.Rests};
ghost use Rattle.field_lines.specs.Source.{Given, nothing_comes};
ghost use Rattle.field_lines.specs.PiecesFrom.{PiecesLeft, pieces_of_text, pieces_left, IsNextPieceOf};

use crate::fault::LineFault;
use crate::raw_pieces::{RawLines, TextPiece};
use crate::raw_reader::RawReader;
use crate::source::Source;

/// The pieces of a text, whether it stands in memory or is pulled from a source. One body reads both.
pub trait PiecesFrom<F> {
    /// What was given so far, and whether more may come.
    ghost given: { F → Given };

    /// Whether the last pull returned an error.
    ghost is_failed: { F → Bool };

    /// The pieces that are left.
    ghost left: { Self → PiecesLeft };

    /// Returns the next piece, which is lent until the next call. Further bytes are pulled from `from` unless the text
    /// stands in memory. Returns `None` at the end of the text.
    ///
    /// # Errors
    ///
    /// Returns the same errors as `RawReader::next_piece`. A text in memory gives none.
    fn next_from(&mut self, from: &mut F) -> Result<Option<TextPiece<'_>>, LineFault>
        ensures* next { sem 𝓛 (Rests Self.row self.entry (λ new. IsNextPieceOf (left self.old) (given from.old) (is_failed from.old) result (left new) (given from.new) (is_failed from.new))) };
}

/// Nothing is pulled: the text stands in memory.
impl PiecesFrom<()> for RawLines<'_> {
    ghost given = { λ _. nothing_comes };

    ghost is_failed = { λ _. false };

    ghost left = { pieces_of_text };

    fn next_from(&mut self, _from: &mut ()) -> Result<Option<TextPiece<'_>>, LineFault> {
        let next = self.next_piece();
        let _left = &*self;
        Ok(next)
    }
}

impl<S: Source> PiecesFrom<S> for RawReader {
    ghost given = { λ s. S.given s };

    ghost is_failed = { λ s. S.is_failed s };

    ghost left = { pieces_left };

    fn next_from(&mut self, from: &mut S) -> Result<Option<TextPiece<'_>>, LineFault> {
        self.next_piece(from)
    }
}
