//! The lines of a text, read one after the other.

ghost use Rattle.std.specs.Prelude.{◌≡◌, [], ◌∷◌, ◌++◌, IfOk, IfErr, OnOk};
ghost use Rattle.certificate_lines.specs.{Words.line_words, Rest.{IsTextMemory, ReadsLine, TakesTextPiece}};
ghost use Rattle.certificate_lines.specs.{Reading.EndsUnless, Items.{by_words, head_in}};
ghost use Rattle.certificate_lines.specs.Lines as line;

use crate::fault::{TextFault, TextKind};
use crate::item::{Opening, Version};
use crate::lines::{
    allowance_on, end_on, group_on, head_on, limit_on, opening_on, order_on, part_on, take_on,
    target_on, tolerance_on,
};
use crate::words::{Words, bytes_of_line};
use certificate_data::{Allowance, Format};
use county_codes::{Codes, Group, Tolerance};
use field_lines::split_piece;
use std::alloc::Global;
use std::marker::Model;

/// Appends an `item` to `items`. If memory was refused, the fault stands at the given `line`.
///
/// # Errors
///
/// Returns `Memory` if memory was refused.
pub fn push_on<T: Drop>(items: &mut Vec<T>, item: T, line: u64) -> Result<(), TextFault>
    ensures pushed { OnOk result (items.new.items ≡ items.old.items ++ item ∷ []) }
    ensures refused { IfErr result (λ f. IsTextMemory f) }
{
    match items.push(item) {
        Ok(()) => Ok(()),
        Err(_) => Err(TextFault {
            kind: TextKind::Memory,
            line,
        }),
    }
}

/// Returns the format and the version that the first line names. `bytes` are the line's bytes without the LF, and
/// `ended` says whether an LF ended them.
pub(crate) fn head_of(bytes: &[u8], ended: bool) -> Result<(Format, Version), TextKind>
    ensures { result ≡ head_in bytes.now ended }
{
    head_on(bytes_of_line(bytes, ended)?)
}

/// What is left of a text, and the number of its next line.
///
/// Each method that reads takes the next line and returns what it says.
///
/// # Errors
///
/// Returns the fault of that line with its number, or `CutShort` if there is no line. If memory was refused, `Memory`
/// comes in place of any answer.
#[derive(Drop)]
pub struct Cursor<'a> {
    text: &'a [u8],
    number: u64,
}

impl<'a> Model for Cursor<'a> {
    ghost use Rattle.std.specs.Prelude.{length, ◌+◌, ◌<◌, ◌^◌};
    ghost use Rattle.certificate_lines.specs.Rest.{Rest};

    /// The text that is left, and the number of its first line.
    ghost Value = { Rest };

    ghost view = { λ s. record { number = s.number; text = s.text.now } };

    ghost invariant = { λ s. s.number + length s.text.now < 2 ^ 64 };
}

impl<'a> Cursor<'a> {
    /// Creates a cursor that has the whole `text` left.
    pub fn new(text: &'a [u8]) -> Self
        ensures { result ≡ record { number = 1; text = text.now } }
    {
        Cursor { text, number: 1 }
    }

    /// Returns the text that is left.
    pub fn rest(&self) -> &'a [u8]
        ensures { result.now ≡ self.now.text }
    {
        self.text
    }

    /// Returns the number of the next line.
    pub fn number(&self) -> u64
        ensures { result ≡ self.now.number }
    {
        self.number
    }

    /// Takes the next line. Returns its bytes without the LF and whether an LF ended it, or `None` if no line is left.
    pub(crate) fn next_piece(&mut self) -> Option<(&'a [u8], bool)>
        ensures { TakesTextPiece self.old result self.new }
    {
        let (bytes, ended, rest) = split_piece(self.text)?;
        self.text = rest;
        self.number += 1;
        Some((bytes, ended))
    }

    /// Takes the next line, and returns its words and its number.
    pub fn next_words(&mut self) -> Result<(Words<'a>, u64), TextFault>
        ensures line { IfOk result (λ r. r.1 ≡ self.old.number) }
        ensures words { ReadsLine (λ r. r.0) (λ p. line_words p.bytes p.ended) self.old result self.new }
    {
        let line = self.number;
        let Some((bytes, ended)) = self.next_piece() else {
            return Err(TextFault {
                kind: TextKind::CutShort,
                line,
            });
        };
        match Words::new(bytes, ended) {
            Ok(words) => Ok((words, line)),
            Err(kind) => Err(TextFault { kind, line }),
        }
    }

    /// Reads the head.
    pub fn head(&mut self) -> Result<(Format, Version), TextFault>
        ensures { ReadsLine (λ r. r) (λ p. head_in p.bytes p.ended) self.old result self.new }
    {
        let line = self.number;
        let Some((bytes, ended)) = self.next_piece() else {
            return Err(TextFault {
                kind: TextKind::CutShort,
                line,
            });
        };
        match head_of(bytes, ended) {
            Ok(head) => Ok(head),
            Err(kind) => Err(TextFault { kind, line }),
        }
    }

    /// Reads the tolerance that the certificate names.
    pub fn tolerance(&mut self) -> Result<Tolerance, TextFault>
        ensures { ReadsLine (λ r. r) (by_words line.tolerance_on) self.old result self.new }
    {
        let (mut words, line) = self.next_words()?;
        match tolerance_on(&mut words) {
            Ok(tolerance) => Ok(tolerance),
            Err(kind) => Err(TextFault { kind, line }),
        }
    }

    /// Reads the order.
    pub fn order(&mut self, alloc: Global) -> Result<Codes, TextFault>
        ensures { ReadsLine (λ r. r) (by_words line.order_on) self.old result self.new }
    {
        let (mut words, line) = self.next_words()?;
        match order_on(alloc, &mut words) {
            Ok(order) => Ok(order),
            Err(kind) => Err(TextFault { kind, line }),
        }
    }

    /// Reads the limit.
    pub fn limit(&mut self) -> Result<u16, TextFault>
        ensures { ReadsLine (λ r. r) (by_words line.limit_on) self.old result self.new }
    {
        let (mut words, line) = self.next_words()?;
        match limit_on(&mut words) {
            Ok(limit) => Ok(limit),
            Err(kind) => Err(TextFault { kind, line }),
        }
    }

    /// Reads the number of groups of the target, or `None` if there is no target.
    pub fn target(&mut self) -> Result<Option<u16>, TextFault>
        ensures { ReadsLine (λ r. r) (by_words line.target_on) self.old result self.new }
    {
        let (mut words, line) = self.next_words()?;
        match target_on(&mut words) {
            Ok(groups) => Ok(groups),
            Err(kind) => Err(TextFault { kind, line }),
        }
    }

    /// Reads a group of the target.
    pub fn group(&mut self, alloc: Global) -> Result<Group, TextFault>
        ensures { ReadsLine (λ r. r) (by_words line.group_on) self.old result self.new }
    {
        let (mut words, line) = self.next_words()?;
        match group_on(alloc, &mut words) {
            Ok(group) => Ok(group),
            Err(kind) => Err(TextFault { kind, line }),
        }
    }

    /// Reads a branch or a leaf, where branches may still open `levels` levels.
    pub fn opening(&mut self, format: Format, levels: u16) -> Result<Opening, TextFault>
        ensures read { ReadsLine (λ r. r) (by_words (line.opening_on format levels)) self.old result self.new }
        ensures level { IfOk result (λ o. line.HasLevel levels o) }
    {
        let (mut words, line) = self.next_words()?;
        match opening_on(format, levels, &mut words) {
            Ok(opening) => Ok(opening),
            Err(kind) => Err(TextFault { kind, line }),
        }
    }

    /// Reads a branch or a leaf of a partial tree, where branches may still open `levels` levels, or `None` at an open
    /// leaf.
    pub fn part_opening(
        &mut self,
        format: Format,
        levels: u16,
    ) -> Result<Option<Opening>, TextFault>
        ensures read { ReadsLine (λ r. r) (by_words (line.part_on format levels)) self.old result self.new }
        ensures level { IfOk result (λ o. line.HasPartLevel levels o) }
    {
        let (mut words, line) = self.next_words()?;
        match part_on(format, levels, &mut words) {
            Ok(opening) => Ok(opening),
            Err(kind) => Err(TextFault { kind, line }),
        }
    }

    /// Reads the codes of a take, or `None` at the mark.
    pub fn take(&mut self, alloc: Global) -> Result<Option<Codes>, TextFault>
        ensures { ReadsLine (λ r. r) (by_words line.take_on) self.old result self.new }
    {
        let (mut words, line) = self.next_words()?;
        match take_on(alloc, &mut words) {
            Ok(codes) => Ok(codes),
            Err(kind) => Err(TextFault { kind, line }),
        }
    }

    /// Reads a line of a bound leaf.
    pub fn allowance(&mut self, alloc: Global) -> Result<Allowance, TextFault>
        ensures { ReadsLine (λ r. r) (by_words line.allowance_on) self.old result self.new }
    {
        let (mut words, line) = self.next_words()?;
        match allowance_on(alloc, &mut words) {
            Ok(allowance) => Ok(allowance),
            Err(kind) => Err(TextFault { kind, line }),
        }
    }

    /// Reads the end.
    pub fn end(&mut self) -> Result<(), TextFault>
        ensures { ReadsLine (λ r. r) (by_words line.end_on) self.old result self.new }
    {
        let (mut words, line) = self.next_words()?;
        match end_on(&mut words) {
            Ok(()) => Ok(()),
            Err(kind) => Err(TextFault { kind, line }),
        }
    }
}

/// Checks that nothing is left at `cursor`.
///
/// # Errors
///
/// Returns `AfterEnd` if bytes are left.
pub fn ended(cursor: &Cursor) -> Result<(), TextFault>
    ensures { EndsUnless cursor.now result }
{
    if cursor.rest().is_empty() {
        Ok(())
    } else {
        Err(TextFault {
            kind: TextKind::AfterEnd,
            line: cursor.number(),
        })
    }
}
