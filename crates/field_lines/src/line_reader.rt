//! The lines of a cut text that is pulled from a source.

ghost use Rattle.std.specs.Prelude.{◌≡◌, ◌+◌, ◌<◌, ◌≤◌, IfOk, IfErr, IfSome, length};
ghost use Rattle.field_lines.specs.{Fault.{most_lines, most_bytes, line_of_fault}, ReadLine.{TakesPiece, TakesLine}};

use crate::fault::LineFault;
use crate::lines::{fault_at, line_in};
use crate::pulled_bytes::PulledBytes;
use crate::source::Source;
use crate::taken_pieces::{TakenLine, TakenPiece};
use std::alloc::Global;
use std::marker::Model;

/// Takes the next piece, whose number is `number`, unless it is at fault. Returns `None` at the end.
fn take_piece<S: Source>(
    pulled: &mut PulledBytes,
    number: u64,
    source: &mut S,
) -> Result<Option<TakenPiece>, LineFault>
    requires from_one { 1 ≤ number }
    requires within { number ≤ most_lines + 1 }
    ensures takes { TakesPiece number pulled.old (S.given source.old) (S.is_failed source.old) result pulled.new (S.given source.new) (S.is_failed source.new) }
    ensures few { IfOk result (λ next. IfSome next (λ _. number ≤ most_lines)) }
    ensures fault { IfErr result (λ f. (1 ≤ line_of_fault f) × (line_of_fault f ≤ most_lines + 1)) }
{
    let Ok(front) = pulled.front(source) else {
        return Err(LineFault::ReadFault(number));
    };
    let Some(front) = front else {
        return Ok(None);
    };
    match fault_at(number, pulled.piece(front)) {
        Some(fault) => Err(fault),
        None => Ok(Some(pulled.take_piece(front))),
    }
}

/// Takes the next line that isn't blank, and counts the lines in `number`. Returns `None` at the end.
fn take_line<S: Source>(
    pulled: &mut PulledBytes,
    number: &mut u64,
    source: &mut S,
) -> Result<Option<TakenLine>, LineFault>
    requires from_one { 1 ≤ number.old }
    requires few { number.old ≤ most_lines + 1 }
    ensures takes { TakesLine number.old pulled.old (S.given source.old) (S.is_failed source.old) result number.new pulled.new (S.given source.new) (S.is_failed source.new) }
    ensures from { number.old ≤ number.new }
    ensures to { number.new ≤ most_lines + 1 }
    ensures line { IfOk result (λ next. IfSome next (λ l. number.old ≤ l.number)) }
    ensures fault { IfErr result (λ f. (1 ≤ line_of_fault f) × (line_of_fault f ≤ most_lines + 1)) }
{
    while let Some(piece) = take_piece(pulled, *number, source)? {
        let at = *number;
        *number += 1;
        if !line_in(at, pulled.taken(piece.from, piece.to)).is_empty() {
            return Ok(Some(TakenLine {
                number: at as u32,
                from: piece.from,
                to: piece.to,
            }));
        }
    }
    Ok(None)
}

/// The lines of a cut text that is pulled from a source, as `Lines` gives them of a text in memory.
///
/// It holds 128 KiB and no more. A pull asks for 64 KiB or more, and is made only if no whole line is held. The part of
/// a line that is held is then moved to the front, so a line is copied only if it lies across two pulls.
#[derive(Drop)]
pub struct LineReader {
    pulled: PulledBytes,
    number: u64,
    fault: Option<LineFault>,
    last: TakenLine,
}

impl Model for LineReader {
    ghost use Rattle.std.specs.Prelude.{◌≤◌, ◌+◌, IfSome};
    ghost use Rattle.field_lines.specs.{Fault.{most_lines, line_of_fault}, LinesFrom.LinesHeld};

    /// The bytes that are held, the number of the next line, and the fault that was returned.
    ghost Value = { LinesHeld };

    ghost view = { λ r. record { bytes = r.pulled.bytes; number = r.number; fault = r.fault } };

    ghost invariant = { λ r. (1 ≤ r.number) × (r.number ≤ most_lines + 1) × IfSome r.fault (λ f. (1 ≤ line_of_fault f) × (line_of_fault f ≤ most_lines + 1)) };
}

impl LineReader {
    ghost use Rattle.std.specs.{Prelude.{◌≡◌, ◌≤◌, ◌+◌, IfOk, IfErr, IfSome, length}, Borrow.sem, Io.BufRead.Rests};
    ghost use Rattle.field_lines.specs.Fault.{most_lines, most_bytes, line_of_fault};
    ghost use Rattle.field_lines.specs.{LinesFrom.{nothing_read, IsNextRead}, contracts.line_reader.LineReader.the_row};

    /// Creates a reader that has pulled nothing.
    ///
    /// # Errors
    ///
    /// Returns `Memory` if memory was refused.
    pub fn new(alloc: Global) -> Result<Self, LineFault>
        ensures made { IfOk result (λ r. r ≡ nothing_read) }
        ensures refused { IfErr result (λ f. f ≡ LineFault.Memory) }
    {
        match PulledBytes::new(alloc) {
            Ok(pulled) => Ok(LineReader {
                pulled,
                number: 1,
                fault: None,
                last: TakenLine::none(),
            }),
            Err(_) => Err(LineFault::Memory),
        }
    }

    /// Returns the next line that isn't blank, after its number, which counts from 1. The line is lent until the next
    /// call. Returns `None` at the end of the text, and again at each later call. Each call is lent the same `source`.
    ///
    /// # Errors
    ///
    /// Returns `TooManyLines` and `LineTooLong` as `Lines` does. Returns `ReadFault` with the line that was being read
    /// if the source failed. Each later call returns the same fault, and pulls nothing.
    pub fn next_line<S: Source>(
        &mut self,
        source: &mut S,
    ) -> Result<Option<(u32, &[u8])>, LineFault>
        ensures number { IfOk result (λ next. IfSome next (λ l. (1 ≤ l.0) × (l.0 ≤ most_lines))) }
        ensures bytes { IfOk result (λ next. IfSome next (λ l. (1 ≤ length l.1.now) × (length l.1.now ≤ most_bytes))) }
        ensures fault { IfErr result (λ f. (1 ≤ line_of_fault f) × (line_of_fault f ≤ most_lines + 1)) }
        ensures* next { sem 𝓛 (Rests the_row self.entry (λ new. IsNextRead self.old (S.given source.old) (S.is_failed source.old) result new (S.given source.new) (S.is_failed source.new))) }
    {
        if let Some(fault) = self.fault {
            return Err(fault);
        }
        match take_line(&mut self.pulled, &mut self.number, source) {
            Ok(Some(line)) => {
                self.last = line;
                let bytes = self.pulled.taken(line.from, line.to);
                Ok(Some((line.number, line_in(u64::from(line.number), bytes))))
            }
            Ok(None) => Ok(None),
            Err(fault) => {
                self.fault = Some(fault);
                Err(fault)
            }
        }
    }

    /// Returns the bytes of the line at which the reader stands. These are the bytes of the last line that it lent, or
    /// the first 65,536 of one that is too long. They are for showing the line to a person. No clause speaks of them.
    pub fn line(&self) -> &[u8] {
        let is_too_long = matches!(self.fault, Some(LineFault::LineTooLong(_)));
        self.pulled
            .piece_at_fault(is_too_long, self.last.from, self.last.to)
    }
}
