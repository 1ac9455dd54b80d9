//! The piece at the front of bytes that were pulled.

ghost use Rattle.std.specs.Prelude.{◌≡◌, ◌+◌, ◌≤◌, length, take, MatchOption};
ghost use Rattle.field_lines.specs.Front.{HasNoLf, HasLfAt};

use memchr::memchr;

/// The piece at the front of bytes that were pulled.
#[derive(Clone, Copy, Debug, PartialEq, Eq)]
pub(crate) struct FrontPiece {
    /// The number of its bytes, without the LF.
    pub(crate) length: usize,
    /// Whether an LF ends it.
    pub(crate) ended: bool,
}

/// Returns the place of the first LF in `bytes`, or `None` if there is no LF. There must be none before the place
/// `from`.
pub(crate) fn lf_after(bytes: &[u8], from: usize) -> Option<usize>
    requires within { from ≤ length bytes.now }
    requires none { HasNoLf (take from bytes.now) }
    ensures { MatchOption result (HasNoLf bytes.now) (HasLfAt bytes.now) }
{
    let place = memchr(b'\n', &bytes[from..])?;
    Some(from + place)
}
