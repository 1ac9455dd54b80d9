//! Bytes that were pulled from a source and aren't taken yet.

ghost use Rattle.std.specs.Prelude.{◌≡◌, ◌==◌, ◌+◌, ◌<◌, ◌≤◌, ◌++◌, false, None, Some, take, length, IfOk, OnErr, slice_range, if◌then◌else◌};
ghost use Rattle.std.specs.Result.{is_err};

use crate::front::{FrontPiece, lf_after};
use crate::lines::MAX_LINE;
use crate::source::{Source, SourceFault};
use crate::taken_pieces::TakenPiece;
use std::alloc::{AllocError, Global};
use std::marker::Model;

/// The greatest number of bytes that are held: as many as a line may have, and as many again for a pull.
const MAX_HELD: usize = 131_072;

/// The bytes that were pulled and aren't taken yet, and before them bytes that were taken since the last pull.
#[derive(Drop)]
pub(crate) struct PulledBytes {
    buffer: Vec<u8>,
    start: usize,
    end: usize,
}

impl Model for PulledBytes {
    ghost use Rattle.std.specs.Prelude.{◌≡◌, ◌≤◌, vec_len, take, slice_range};
    ghost use Rattle.field_lines.specs.HeldBytes.{Pulled};

    /// The bytes that were taken since the last pull, and those that are held.
    ghost Value = { Pulled };

    ghost view = { λ p. record { taken = take p.start p.buffer.items; bytes = slice_range p.buffer.items p.start p.end } };

    ghost invariant = { λ p. (p.start ≤ p.end) × (p.end ≤ 131072) × (vec_len p.buffer ≡ 131072) };
}

/// Pulls bytes into the `buffer` behind its first `end` bytes, and returns how many there were.
fn pull_behind<S: Source>(
    source: &mut S,
    buffer: &mut [u8],
    end: usize,
) -> Result<usize, SourceFault>
    requires { end < length buffer.old }
    ensures same { take end buffer.new ≡ take end buffer.old }
    ensures bound { IfOk result (λ n. end + n ≤ length buffer.new) }
    ensures given { IfOk result (λ n. (S.given source.new).bytes ≡ (S.given source.old).bytes ++ slice_range buffer.new end (end + n)) }
    ensures ended { IfOk result (λ n. (S.given source.new).ended ≡ (n == 0)) }
    ensures none { OnErr result (S.given source.new ≡ S.given source.old) }
    ensures failed { S.is_failed source.new ≡ is_err result }
{
    source.pull(&mut buffer[end..])
}

/// Returns all `count` bytes as a piece that no LF ended, or `None` if there are no bytes.
fn rest_of(count: usize) -> Option<FrontPiece>
    ensures { result ≡ (if count == 0 then None else Some (record { length = count; ended = false })) }
{
    if count == 0 {
        return None;
    }
    Some(FrontPiece {
        length: count,
        ended: false,
    })
}

impl PulledBytes {
    ghost use Rattle.std.specs.Prelude.{◌≡◌, ◌+◌, ◌<◌, ◌≤◌, Bool, true, false, List, [], ◌++◌, ◌==◌, take, drop, length, IfOk, OnOk, OnErr, MatchOption, slice_range, vec_len};
    ghost use Rattle.std.specs.Result.{is_err};
    ghost use Rattle.field_lines.specs.{HeldBytes.{no_bytes, Pulls}, Front.{IsFrontPiece, IsWithin, HasFront}};
    ghost use Rattle.field_lines.specs.TakenPieces.{IsPlace, taken_bytes, TakesFirst};

    /// Creates a value that holds no bytes yet. Returns an error if memory was refused.
    pub(crate) fn new(alloc: Global) -> Result<Self, AllocError>
        ensures { IfOk result (λ p. p ≡ no_bytes) }
    {
        let mut buffer = Vec::with_capacity(alloc, MAX_HELD)?;
        buffer.resize(MAX_HELD, 0)?;
        Ok(PulledBytes {
            buffer,
            start: 0,
            end: 0,
        })
    }

    /// Returns the bytes that are held.
    pub(crate) fn held(&self) -> &[u8]
        ensures value { result.now ≡ self.now.bytes }
        ensures few { length result.now ≤ 131072 }
    {
        let (start, end) = (self.start, self.end);
        let all = self.buffer.as_slice();
        &all[start..end]
    }

    /// Returns the bytes that were taken, from the place `from` up to the place `to`.
    pub(crate) fn taken(&self, from: usize, to: usize) -> &[u8]
        requires ordered { from ≤ to }
        requires within { to ≤ length self.now.taken }
        ensures { result.now ≡ slice_range self.now.taken from to }
    {
        let _start = self.start;
        let all = self.buffer.as_slice();
        &all[from..to]
    }

    /// Takes `count` bytes from the front, and returns the place at which they begin among those taken.
    pub(crate) fn take(&mut self, count: usize) -> usize
        requires { count ≤ length self.old.bytes }
        ensures place { result ≡ length self.old.taken }
        ensures small { result ≤ 131072 }
        ensures taken { self.new.taken ≡ self.old.taken ++ take count self.old.bytes }
        ensures bytes { self.new.bytes ≡ drop count self.old.bytes }
    {
        let start = self.start;
        self.start = start + count;
        start
    }

    /// Moves the bytes that are held to the front of the buffer.
    fn move_to_front(&mut self)
        ensures taken { self.new.taken ≡ [] }
        ensures bytes { self.new.bytes ≡ self.old.bytes }
    {
        if self.start > 0 {
            self.buffer.copy_within(self.start..self.end, 0);
            self.end -= self.start;
            self.start = 0;
        }
    }

    /// Pulls further bytes from a `source` that hasn't ended, and returns how many there were. It asks for at least
    /// 65,536 bytes.
    fn pull<S: Source>(&mut self, source: &mut S) -> Result<usize, SourceFault>
        requires few { length self.old.bytes ≤ 65536 }
        requires open { (S.given source.old).ended ≡ false }
        ensures pulls { Pulls (S.given source.old) (S.given source.new) self.old self.new }
        ensures count { IfOk result (λ n. length self.new.bytes ≡ length self.old.bytes + n) }
        ensures ended { IfOk result (λ n. (S.given source.new).ended ≡ (n == 0)) }
        ensures few { length self.new.bytes ≤ 131072 }
        ensures failed { S.is_failed source.new ≡ is_err result }
    {
        self.move_to_front();
        let end = self.end;
        let count = pull_behind(source, &mut self.buffer, end)?;
        self.end = end + count;
        Ok(count)
    }

    /// Returns the piece at the front, after as many pulls from `source` as it takes to tell, or `None` at the end. A
    /// piece of more than 65,536 bytes may be cut short. Returns `SourceFault` if the source failed.
    pub(crate) fn front<S: Source>(
        &mut self,
        source: &mut S,
    ) -> Result<Option<FrontPiece>, SourceFault>
        ensures pulls { Pulls (S.given source.old) (S.given source.new) self.old self.new }
        ensures front { IfOk result (HasFront self.new.bytes (S.given source.new).ended) }
        ensures failed { OnErr result (S.is_failed source.new ≡ true) }
        ensures sound { OnOk result (S.is_failed source.old ≡ false → S.is_failed source.new ≡ false) }
    {
        let mut searched = 0;
        loop {
            let held = self.held();
            if let Some(length) = lf_after(held, searched) {
                return Ok(Some(FrontPiece {
                    length,
                    ended: true,
                }));
            }
            searched = held.len();
            if searched > MAX_LINE || source.ended() {
                return Ok(rest_of(searched));
            }
            self.pull(source)?;
        }
    }

    /// Returns the bytes that were taken, from the place `from` up to the place `to`, or none if these aren't places.
    /// If a piece was too long to be taken, this returns the first 65,536 bytes that are held instead.
    pub(crate) fn piece_at_fault(&self, is_too_long: bool, from: usize, to: usize) -> &[u8] {
        let piece = if is_too_long {
            self.held().get(..MAX_LINE)
        } else {
            self.buffer.as_slice().get(from..to)
        };
        piece.unwrap_or(b"")
    }

    /// Returns the bytes of `front`, the piece at the front.
    pub(crate) fn piece(&self, front: FrontPiece) -> &[u8]
        requires { IsWithin self.now.bytes front.length front.ended }
        ensures value { result.now ≡ take front.length self.now.bytes }
        ensures length { length result.now ≡ front.length }
    {
        &self.held()[..front.length]
    }

    /// Takes `front`, the piece at the front, with the LF that ends it, if one does. Returns where the piece lies,
    /// without the LF.
    pub(crate) fn take_piece(&mut self, front: FrontPiece) -> TakenPiece
        requires within { IsWithin self.old.bytes front.length front.ended }
        requires short { front.length ≤ 65536 }
        ensures place { IsPlace self.new result.from result.to }
        ensures bytes { taken_bytes self.new result ≡ take front.length self.old.bytes }
        ensures first { (ended : Bool) → IsFrontPiece self.old.bytes ended front.length front.ended
            → TakesFirst ended self.old.bytes self.new result }
    {
        let length = front.length;
        let from = self.take(if front.ended { length + 1 } else { length });
        TakenPiece {
            from,
            to: from + length,
            ended: front.ended,
        }
    }
}
