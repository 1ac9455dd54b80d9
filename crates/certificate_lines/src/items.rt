//! The lines of a certificate or of a tree, one at a time.

ghost use Rattle.std.specs.Prelude.{◌≡◌, ◌≤◌, [], ◌∷◌, None};
ghost use Rattle.field_lines.specs.{RawPieces.raw_lines, Source.{Given, nothing_comes}};
ghost use Rattle.certificate_lines.specs.{Lines.most, Stacks.{HasRoom, IsBounded}};
ghost use Rattle.certificate_lines.specs.ItemReadings.{certificate_reading, tree_reading, reading_from, reading_left, IsNextItemRead};
ghost use Rattle.certificate_lines.specs.ItemsLeft.{ItemsLeft, in_memory, IsNextItemOf};
ghost use Rattle.certificate_lines.specs.declared.item.Wanted.TheVariants as want;

use crate::cursor::{Cursor, ended};
use crate::fault::{TextFault, TextKind};
use crate::item::{Item, Wanted};
use crate::line_items::{Stack, item_at};
use certificate_data::Format;
use std::alloc::Global;
use std::marker::Model;

/// A source of items that come one at a time, from a text in memory or from one that is pulled from elsewhere. The same
/// code reads both.
pub trait ItemSource<F> {
    /// The items to come, as a function of the bytes that come later.
    ghost left: { Self → ItemsLeft };

    /// The bytes that were given so far, and whether more may come.
    ghost given: { F → Given };

    /// Returns the next item, or `None` after the last one and at each later call. The same `from` is lent to each
    /// call.
    ///
    /// # Errors
    ///
    /// Returns the first fault of the text, or `Memory` or `ReadFault` in place of any answer. Each later call returns
    /// the same fault.
    fn next_item(&mut self, from: &mut F) -> Result<Option<Item>, TextFault>
        ensures { IsNextItemOf (left self.old) (given from.old) result (left self.new) (given from.new) };

    /// Returns the bytes of the line at which the source stands, for whoever shows it to a person. A text in memory
    /// gives no bytes, since its caller has the text. No clause speaks of these bytes.
    fn line(&self) -> &[u8];
}

/// Reads the next item from the `cursor`, or `None` at the end. The `stack` holds what is wanted in turn, and its top
/// is its last element.
fn next_at(alloc: Global, cursor: &mut Cursor, stack: &mut Stack) -> Result<Option<Item>, TextFault>
    requires { IsBounded stack.old.items }
    ensures next { IsNextItemRead (reading_left stack.old.items cursor.old None) result (reading_left stack.new.items cursor.new None) }
    ensures bounded { IsBounded stack.new.items }
{
    match stack.pop() {
        Some(wanted) => {
            let line = cursor.number();
            let Some((bytes, ended)) = cursor.next_piece() else {
                return Err(TextFault {
                    kind: TextKind::CutShort,
                    line,
                });
            };
            match item_at(alloc, bytes, ended, stack, wanted) {
                Ok(item) => Ok(Some(item)),
                Err(kind) => Err(TextFault { kind, line }),
            }
        }
        None => {
            ended(cursor)?;
            Ok(None)
        }
    }
}

/// The items of a text in memory, one at a time. They ask for the memory of a line's values and for no other.
#[derive(Drop)]
pub struct Items<'a> {
    alloc: Global,
    cursor: Cursor<'a>,
    wanted: Stack,
    fault: Option<TextFault>,
}

impl<'a> Model for Items<'a> {
    ghost use Rattle.certificate_lines.specs.{ItemReadings.{Unread, reading_left}, Stacks.IsBounded};

    /// The items to come, and the fault that ends them.
    ghost Value = { Unread };

    ghost view = { λ s. reading_left s.wanted.items s.cursor s.fault };

    ghost invariant = { λ s. IsBounded s.wanted.items };
}

impl<'a> Items<'a> {
    /// Creates the items of a certificate's `text`.
    pub fn of_certificate(alloc: Global, text: &'a [u8]) -> Self
        ensures { result ≡ certificate_reading text.now }
    {
        Items::wanting(alloc, text, Wanted::Head)
    }

    /// Creates the items of a tree's `text`, for an order of `counties` counties.
    pub fn of_tree(alloc: Global, text: &'a [u8], format: Format, counties: u16) -> Self
        requires { counties ≤ most }
        ensures { result ≡ tree_reading format counties text.now }
    {
        Items::wanting(alloc, text, Wanted::Tree(format, counties))
    }

    /// Creates the items of a `text`, where `wanted` says what is wanted first.
    fn wanting(alloc: Global, text: &'a [u8], wanted: Wanted) -> Self
        requires { HasRoom 0 wanted }
        ensures { result ≡ reading_from (wanted ∷ []) 1 (raw_lines text.now) }
    {
        let mut stack = Stack::new();
        stack.push(wanted);
        Items {
            alloc,
            cursor: Cursor::new(text),
            wanted: stack,
            fault: None,
        }
    }
}

/// Nothing is pulled, since the text stands in memory.
impl<'a> ItemSource<()> for Items<'a> {
    ghost left = { in_memory };

    ghost given = { λ _. nothing_comes };

    fn next_item(&mut self, _from: &mut ()) -> Result<Option<Item>, TextFault> {
        if let Some(fault) = self.fault {
            return Err(fault);
        }
        let next = next_at(self.alloc, &mut self.cursor, &mut self.wanted);
        if let Err(fault) = &next {
            self.fault = Some(*fault);
        }
        next
    }

    fn line(&self) -> &[u8] {
        b""
    }
}
