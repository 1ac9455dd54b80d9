//! The lines of a certificate that is pulled from a source, one at a time.

ghost use Rattle.std.specs.Prelude.{◌≡◌, ◌+◌, ◌∷◌, [], reverse, None, OnOk, IfOk, IfErr};
ghost use Rattle.arrayvec.specs.ArrayVec.{array_vec_len};
ghost use Rattle.certificate_lines.specs.Stacks.{HasRoom, IsBounded};
ghost use Rattle.certificate_lines.specs.ItemsLeft.{left_at, left_of_reader, fault_of_reader, nothing_taken, ReadsItem, ReadsEnd, ReadsNext};
ghost use Rattle.certificate_lines.specs.declared.fault.TextKind.TheVariants.{Memory};

use crate::fault::{TextFault, TextKind};
use crate::item::{Item, Wanted};
use crate::items::ItemSource;
use crate::line_items::{Stack, item_at};
use field_lines::{LineFault, RawReader, Source};
use std::alloc::Global;
use std::marker::Model;

/// Returns the `fault` of a reader of lines as a fault at the `line`. A line that is too long gives a fault of the kind
/// `long`.
fn fault_of_reader(fault: LineFault, long: TextKind, line: u64) -> TextFault
    ensures { result ≡ fault_of_reader fault long line }
{
    let kind = match fault {
        LineFault::LineTooLong(_) => long,
        LineFault::ReadFault(_) => TextKind::ReadFault,
        LineFault::TooManyLines | LineFault::Memory => TextKind::Memory,
    };
    TextFault { kind, line }
}

/// Reads the item of the next line, where `wanted` says what is wanted. What is wanted after it is pushed onto the
/// `stack`.
fn read_item<S: Source>(
    alloc: Global,
    pieces: &mut RawReader,
    stack: &mut Stack,
    wanted: Wanted,
    line: u64,
    from: &mut S,
) -> Result<Item, TextFault>
    requires sound { pieces.old.fault ≡ None }
    requires room { HasRoom (array_vec_len stack.old) wanted }
    requires bounded { IsBounded stack.old.items }
    ensures read { ReadsItem (left_at (wanted
        ∷ reverse stack.old.items) line pieces.old) (S.given from.old) result (left_at (reverse stack.new.items) (line
        + 1) pieces.new) (S.given from.new) }
    ensures sound { OnOk result (pieces.new.fault ≡ None) }
    ensures bounded { IsBounded stack.new.items }
{
    match pieces.next_piece(from) {
        Ok(Some(piece)) => match item_at(alloc, piece.bytes, piece.ended, stack, wanted) {
            Ok(item) => Ok(item),
            Err(kind) => Err(TextFault { kind, line }),
        },
        Ok(None) => Err(TextFault {
            kind: TextKind::CutShort,
            line,
        }),
        Err(fault) => Err(fault_of_reader(fault, TextKind::BadWord, line)),
    }
}

/// Checks that no line is left in `pieces`. Returns `AfterEnd` at `line` if one is left, `ReadFault` if the source
/// could not be read, and `Memory` if memory was refused.
fn read_end<S: Source>(pieces: &mut RawReader, line: u64, from: &mut S) -> Result<(), TextFault>
    requires { pieces.old.fault ≡ None }
    ensures read { ReadsEnd (left_at [] line pieces.old) (S.given from.old) result (left_at [] line pieces.new) (S.given from.new) }
    ensures sound { OnOk result (pieces.new.fault ≡ None) }
{
    match pieces.next_piece(from) {
        Ok(Some(_)) => Err(TextFault {
            kind: TextKind::AfterEnd,
            line,
        }),
        Ok(None) => Ok(()),
        Err(fault) => Err(fault_of_reader(fault, TextKind::AfterEnd, line)),
    }
}

/// Reads the next item and counts its `line`, or returns `None` at the end. The `stack` holds what is wanted in turn,
/// and its top is its last element.
fn next_read<S: Source>(
    alloc: Global,
    pieces: &mut RawReader,
    stack: &mut Stack,
    line: &mut u64,
    from: &mut S,
) -> Result<Option<Item>, TextFault>
    requires sound { pieces.old.fault ≡ None }
    requires bounded { IsBounded stack.old.items }
    ensures next { ReadsNext (left_at (reverse stack.old.items) line.old pieces.old) (S.given from.old) result (left_at (reverse stack.new.items) line.new pieces.new) (S.given from.new) }
    ensures sound { OnOk result (pieces.new.fault ≡ None) }
    ensures bounded { IsBounded stack.new.items }
{
    let number = *line;
    match stack.pop() {
        Some(wanted) => {
            match read_item(alloc, pieces, stack, wanted, number, from) {
                Ok(item) => {
                    let Some(next) = number.checked_add(1) else {
                        return Err(TextFault {
                            kind: TextKind::Memory,
                            line: number,
                        });
                    };
                    *line = next;
                    Ok(Some(item))
                }
                Err(fault) => Err(fault),
            }
        }
        None => {
            read_end(pieces, number, from)?;
            Ok(None)
        }
    }
}

/// The items of a text that is pulled from a source, one at a time. One line is held, and what is wanted after it.
#[derive(Drop)]
pub struct ItemsFrom {
    alloc: Global,
    pieces: RawReader,
    wanted: Stack,
    line: u64,
    fault: Option<TextFault>,
}

impl Model for ItemsFrom {
    ghost use Rattle.std.specs.Prelude.{◌≡◌, None};
    ghost use Rattle.certificate_lines.specs.{ItemsLeft.ItemsHeld, Stacks.IsBounded};

    /// What is wanted, the number of the next line, what the reader of lines has, and the fault that was returned.
    ghost Value = { ItemsHeld };

    ghost view = { λ s. record { wanted = s.wanted.items; number = s.line; held = s.pieces; fault = s.fault } };

    ghost invariant = { λ s. IsBounded s.wanted.items × (s.fault ≡ None → s.pieces.fault ≡ None) };
}

impl ItemsFrom {
    /// Creates the items of a certificate of which nothing was pulled yet.
    ///
    /// # Errors
    ///
    /// Returns `Memory` if memory was refused.
    pub fn of_certificate(alloc: Global) -> Result<Self, TextKind>
        ensures made { IfOk result (λ items. items ≡ nothing_taken) }
        ensures refused { IfErr result (λ kind. kind ≡ Memory) }
    {
        let Ok(pieces) = RawReader::new(alloc) else {
            return Err(TextKind::Memory);
        };
        let mut wanted = Stack::new();
        wanted.push(Wanted::Head);
        Ok(ItemsFrom {
            alloc,
            pieces,
            wanted,
            line: 1,
            fault: None,
        })
    }
}

impl<S: Source> ItemSource<S> for ItemsFrom {
    ghost left = { left_of_reader };

    ghost given = { λ s. S.given s };

    fn next_item(&mut self, from: &mut S) -> Result<Option<Item>, TextFault> {
        if let Some(fault) = self.fault {
            return Err(fault);
        }
        let next = next_read(
            self.alloc,
            &mut self.pieces,
            &mut self.wanted,
            &mut self.line,
            from,
        );
        if let Err(fault) = &next {
            self.fault = Some(*fault);
        }
        next
    }

    fn line(&self) -> &[u8] {
        self.pieces.line()
    }
}
