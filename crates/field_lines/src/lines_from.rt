//! The lines of a cut text, either in memory or pulled from a source.

ghost use Rattle.std.specs.{Prelude.{Bool, false, ◌≤◌, ◌+◌, IfOk, IfErr, IfSome, length}, Borrow.sem, Io.BufRead.Rests};
ghost use Rattle.field_lines.specs.{Fault.{most_lines, most_bytes, line_of_fault}, Source.{Given, nothing_comes}};
ghost use Rattle.field_lines.specs.LinesFrom.{LinesLeft, lines_of_cut, lines_held, IsNextAnswer};

use crate::fault::LineFault;
use crate::line_reader::LineReader;
use crate::lines::Lines;
use crate::source::Source;

/// The lines of a cut text, whether it stands in memory or is pulled from a source. One body reads both.
pub trait LinesFrom<F> {
    /// What was given so far, and whether more may come.
    ghost given: { F → Given };

    /// Whether the last pull returned an error.
    ghost is_failed: { F → Bool };

    /// The lines that are left.
    ghost left: { Self → LinesLeft };

    /// Returns the next line that isn't blank, after its number, which counts from 1. Further bytes are pulled from
    /// `from` unless the text stands in memory. The line is lent until the next call. Returns `None` at the end of the
    /// text.
    ///
    /// # Errors
    ///
    /// Returns the same errors as `LineReader::next_line`.
    fn next_from(&mut self, from: &mut F) -> Result<Option<(u32, &[u8])>, LineFault>
        ensures number { IfOk result (λ next. IfSome next (λ l. (1 ≤ l.0) × (l.0 ≤ most_lines))) }
        ensures bytes { IfOk result (λ next. IfSome next (λ l. (1 ≤ length l.1.now) × (length l.1.now ≤ most_bytes))) }
        ensures fault { IfErr result (λ f. (1 ≤ line_of_fault f) × (line_of_fault f ≤ most_lines + 1)) }
        ensures* next { sem 𝓛 (Rests Self.row self.entry (λ new. IsNextAnswer (left self.old) (given from.old) (is_failed from.old) result (left new) (given from.new) (is_failed from.new))) };

    /// Returns the bytes of the line at which the reader stands, as `LineReader::line` does. For a text in memory, this
    /// returns no bytes, since the caller has the text.
    fn line(&self) -> &[u8];
}

/// Nothing is pulled: the text stands in memory.
impl LinesFrom<()> for Lines<'_> {
    ghost given = { λ _. nothing_comes };

    ghost is_failed = { λ _. false };

    ghost left = { lines_of_cut };

    fn next_from(&mut self, _from: &mut ()) -> Result<Option<(u32, &[u8])>, LineFault> {
        let next = self.next_line();
        let _left = &*self;
        next
    }

    fn line(&self) -> &[u8] {
        b""
    }
}

impl<S: Source> LinesFrom<S> for LineReader {
    ghost given = { λ s. S.given s };

    ghost is_failed = { λ s. S.is_failed s };

    ghost left = { lines_held };

    fn next_from(&mut self, from: &mut S) -> Result<Option<(u32, &[u8])>, LineFault> {
        self.next_line(from)
    }

    fn line(&self) -> &[u8] {
        LineReader::line(self)
    }
}
