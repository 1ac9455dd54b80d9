//! The pieces of a text that is pulled from a source.

ghost use Rattle.std.specs.Prelude.{◌≡◌};
ghost use Rattle.field_lines.specs.ReadPiece.{raw_fault_at, TakesRaw};

use crate::fault::LineFault;
use crate::lines::MAX_LINE;
use crate::pulled_bytes::PulledBytes;
use crate::raw_pieces::TextPiece;
use crate::source::Source;
use crate::taken_pieces::TakenPiece;
use std::alloc::Global;
use std::marker::Model;

/// Returns the fault of the piece with this `number`, if it has one. A piece is at fault if it is too long, or if its
/// number is the last that there is.
fn raw_fault_at(number: u64, length: usize) -> Option<LineFault>
    ensures { result ≡ raw_fault_at number length }
{
    if length > MAX_LINE {
        Some(LineFault::LineTooLong(number))
    } else if number == u64::MAX {
        Some(LineFault::Memory)
    } else {
        None
    }
}

/// Takes the next piece, whose number is `number`, unless it is at fault. Returns `None` at the end.
fn take_raw<S: Source>(
    pulled: &mut PulledBytes,
    number: u64,
    source: &mut S,
) -> Result<Option<TakenPiece>, LineFault>
    ensures { TakesRaw number pulled.old (S.given source.old) (S.is_failed source.old) result pulled.new (S.given source.new) (S.is_failed source.new) }
{
    let Ok(front) = pulled.front(source) else {
        return Err(LineFault::ReadFault(number));
    };
    let Some(front) = front else {
        return Ok(None);
    };
    match raw_fault_at(number, front.length) {
        Some(fault) => Err(fault),
        None => Ok(Some(pulled.take_piece(front))),
    }
}

/// The pieces of a text that is pulled from a source. They are those that `RawLines` gives of a text in memory, if each
/// has at most `MAX_LINE` bytes. The reader holds and moves bytes as `LineReader` does.
#[derive(Drop)]
pub struct RawReader {
    pulled: PulledBytes,
    number: u64,
    fault: Option<LineFault>,
    last: TakenPiece,
}

impl Model for RawReader {
    ghost use Rattle.field_lines.specs.LinesFrom.{LinesHeld};

    /// The bytes that are held, the number of the next piece, and the fault that was returned.
    ghost Value = { LinesHeld };

    ghost view = { λ r. record { bytes = r.pulled.bytes; number = r.number; fault = r.fault } };
}

impl RawReader {
    ghost use Rattle.std.specs.{Prelude.{◌≡◌, ◌≤◌, IfOk, IfErr, IfSome, length}, Borrow.sem, Io.BufRead.Rests};
    ghost use Rattle.field_lines.specs.{Fault.most_bytes, LinesFrom.nothing_read, PiecesFrom.IsRawRead};
    ghost use Rattle.field_lines.specs.contracts.raw_reader.RawReader.{the_row};

    /// Creates a reader that has pulled nothing.
    ///
    /// # Errors
    ///
    /// Returns `Memory` if memory was refused.
    pub fn new(alloc: Global) -> Result<Self, LineFault>
        ensures made { IfOk result (λ r. r ≡ nothing_read) }
        ensures refused { IfErr result (λ f. f ≡ LineFault.Memory) }
    {
        match PulledBytes::new(alloc) {
            Ok(pulled) => Ok(RawReader {
                pulled,
                number: 1,
                fault: None,
                last: TakenPiece::none(),
            }),
            Err(_) => Err(LineFault::Memory),
        }
    }

    /// Returns the next piece, which is lent until the next call. Returns `None` at the end of the text, and again at
    /// each later call. Each call is lent the same `source`.
    ///
    /// # Errors
    ///
    /// Returns `LineTooLong` at a piece of more than `MAX_LINE` bytes. Returns `ReadFault` with the piece that was
    /// being read if the source failed. Returns `Memory` at piece 18,446,744,073,709,551,615. Each later call returns
    /// the same fault, and pulls nothing.
    pub fn next_piece<S: Source>(
        &mut self,
        source: &mut S,
    ) -> Result<Option<TextPiece<'_>>, LineFault>
        ensures bytes { IfOk result (λ next. IfSome next (λ p. length p.bytes.now ≤ most_bytes)) }
        ensures* next { sem 𝓛 (Rests the_row self.entry (λ new. IsRawRead self.old (S.given source.old) (S.is_failed source.old) result new (S.given source.new) (S.is_failed source.new))) }
    {
        if let Some(fault) = self.fault {
            return Err(fault);
        }
        let number = self.number;
        match take_raw(&mut self.pulled, number, source) {
            Ok(Some(piece)) => {
                self.number = number + 1;
                self.last = piece;
                let bytes = self.pulled.taken(piece.from, piece.to);
                Ok(Some(TextPiece {
                    number,
                    bytes,
                    ended: piece.ended,
                }))
            }
            Ok(None) => {
                self.last = TakenPiece::none();
                Ok(None)
            }
            Err(fault) => {
                self.fault = Some(fault);
                Err(fault)
            }
        }
    }

    /// Returns the bytes of the piece at which the reader stands. These are the bytes of the last piece that it lent,
    /// the first 65,536 of one that is too long, or none at the end. They are for showing the line to a person. No
    /// clause speaks of them.
    pub fn line(&self) -> &[u8] {
        let is_too_long = matches!(self.fault, Some(LineFault::LineTooLong(_)));
        self.pulled
            .piece_at_fault(is_too_long, self.last.from, self.last.to)
    }
}
