//! Events, read from their lines.

ghost use Rattle.std.specs.Prelude.{◌≡◌, ◌<◌, ◌≤◌, ℕ, List, [], ◌++◌, map, length, take, Some, IfOk, IfErr};
ghost use Rattle.field_lines.specs.RawPieces.{raw_lines};
ghost use Rattle.certificate_lines.specs.{Items.{by_words, groups_wanted, items_from}, Lines.most};
ghost use Rattle.certificate_lines.specs.{Reading.IsUnlessMemory, Rest.{IsTextMemory, ReadsLine}};
ghost use Rattle.certificate_lines.specs.{Fitting.AllFit, Spelling.text_of_items, declared.item.Wanted.Wanted};
ghost use Rattle.certificate_lines.specs.declared.item.Item.TheVariants as item;
ghost use Rattle.board_laws.specs.Content.{Event as EventValue};
ghost use Rattle.share_board.specs.Events.{event_of};
ghost use Rattle.board_report.specs.EventLines.{event_on};
ghost use Rattle.board_report.specs.EventSpelling.{wanted_by, text_of_event, HasSpelling, EventsAreSpelled};
ghost use Rattle.board_report.specs.{LaterLines.StandsBehind, EventFaults.{fault_from, events_fault}};

use crate::event_line::EventLine;
use crate::first_lines::event_on;
use certificate_data::Format;
use certificate_lines::{Cursor, TextFault, push_on};
use certificate_text::{front_tree, groups_at};
use county_codes::{Group, Grouping};
use partial_text::front_part;
use share_board::Event;
use std::alloc::Global;
use worker_texts::{lines_in, moved};

/// Reads the first line of an event at `cursor`. A fault is returned with the number of the line.
fn first_line(cursor: &mut Cursor) -> Result<EventLine, TextFault>
    ensures { ReadsLine (λ r. r) (by_words event_on) cursor.old result cursor.new }
{
    let (mut words, line) = cursor.next_words()?;
    match event_on(&mut words) {
        Ok(first) => Ok(first),
        Err(kind) => Err(TextFault { kind, line }),
    }
}

/// Reads the `count` groups with which a `text` begins. Returns them and how many bytes spell them.
fn front_groups(alloc: Global, text: &[u8], count: u16) -> Result<(Vec<Group>, usize), TextFault>
    ensures place { IfOk result (λ r. r.1 ≤ length text.now) }
    ensures number { IfOk result (λ r. length r.0.items ≡ count) }
    ensures fits { IfOk result (λ r. AllFit (groups_wanted count) (map item.Grouped r.0.items)) }
    ensures found { IfOk result (λ r. take r.1 text.now ≡ text_of_items (map item.Grouped r.0.items)) }
    ensures fault { IfErr result (λ f. (IsTextMemory f → ⊥) → (more : List Wanted)
        → items_from (groups_wanted count ++ more) 1 (raw_lines text.now) ≡ Err f) }
{
    let mut cursor = Cursor::new(text);
    let groups = groups_at(alloc, &mut cursor, count)?;
    Ok((groups, text.len() - cursor.rest().len()))
}

/// Reads the event whose first line says `line`, from the `text` behind that line. Returns the event and how many bytes
/// of `text` are its own.
fn event_behind(
    alloc: Global,
    line: EventLine,
    text: &[u8],
    format: Format,
    counties: u16,
) -> Result<(Event, usize), TextFault>
    requires { counties ≤ most }
    ensures place { IfOk result (λ r. r.1 ≤ length text.now) }
    ensures found { IfOk result (λ r. StandsBehind format counties line (take r.1 text.now) (event_of r.0)) }
    ensures fault { IfErr result (λ f. (IsTextMemory f → ⊥) → (more : List Wanted)
        → items_from (wanted_by format counties line ++ more) 1 (raw_lines text.now) ≡ Err f) }
{
    match line {
        EventLine::Hand(from) => Ok((Event::Hand(from), 0)),
        EventLine::Result(round, piece) => {
            let (tree, length) = front_tree(alloc, text, format, counties)?;
            Ok((Event::Result(round, piece, tree), length))
        }
        EventLine::Split(round, piece, county, limit) => {
            Ok((Event::Split(round, piece, county, limit), 0))
        }
        EventLine::Part(round, piece) => {
            let (tree, length) = front_part(alloc, text, format, counties)?;
            Ok((Event::Part(round, piece, tree), length))
        }
        EventLine::Better(round, count) => {
            let (groups, length) = front_groups(alloc, text, count)?;
            Ok((Event::Better(round, Grouping { groups }), length))
        }
        EventLine::Wider(round) => Ok((Event::Wider(round), 0)),
    }
}

/// Reads the event with which a `text` begins. Returns it and how many bytes spell it. Trees are of this `format` and
/// for an order of `counties` counties.
///
/// # Errors
///
/// Returns the first fault of the text, with its line. If memory was refused, it returns `Memory` in place of any
/// answer.
fn front_event(
    alloc: Global,
    text: &[u8],
    format: Format,
    counties: u16,
) -> Result<(Event, usize), TextFault>
    requires few { counties ≤ most }
    requires some { 0 < length text.now }
    ensures place { IfOk result (λ r. (0 < r.1) × (r.1 ≤ length text.now)) }
    ensures found { IfOk result (λ r. take r.1 text.now ≡ text_of_event (event_of r.0)) }
    ensures spelled { IfOk result (λ r. HasSpelling format counties (event_of r.0)) }
    ensures fault { IfErr result (λ f. (IsTextMemory f → ⊥) → events_fault format counties text.now ≡ Some f) }
{
    let mut cursor = Cursor::new(text);
    let line = first_line(&mut cursor)?;
    let rest = cursor.rest();
    match event_behind(alloc, line, rest, format, counties) {
        Ok((event, length)) => Ok((event, text.len() - rest.len() + length)),
        Err(fault) => Err(moved(fault, 1)),
    }
}

/// Reads the events of a `text`, one after the other.
fn events_of(
    alloc: Global,
    text: &[u8],
    format: Format,
    counties: u16,
) -> Result<Vec<Event>, TextFault>
    requires { counties ≤ most }
    ensures found { IfOk result (λ v. EventsAreSpelled format counties text.now (map event_of v.items)) }
    ensures fault { IfErr result (λ f. (IsTextMemory f → ⊥) → events_fault format counties text.now ≡ Some f) }
{
    let mut events = Vec::new(alloc);
    let mut rest = text;
    let mut lines = 0;
    'events: while !rest.is_empty() {
        match front_event(alloc, rest, format, counties) {
            Ok((event, length)) => {
                push_on(&mut events, event, lines)?;
                lines += lines_in(&rest[..length]);
                rest = &rest[length..];
            }
            Err(fault) => return Err(moved(fault, lines)),
        }
    }
    Ok(events)
}

/// Reads the events that a `text` spells, in order. Trees are of this `format` and for an order of `counties`
/// counties. An empty text is the list of no events.
///
/// # Errors
///
/// Returns the first fault of the text, with its line. If memory was refused, it returns `Memory` in place of any
/// answer.
pub fn read_events(
    alloc: Global,
    text: &[u8],
    format: Format,
    counties: u16,
) -> Result<Vec<Event>, TextFault>
    requires { counties ≤ most }
    // The text spells the events that are read, whose numbers are in their ranges.
    ensures found { IfOk result (λ v. EventsAreSpelled format counties text.now (map event_of v.items)) }
    // Events that the text spells are read, unless memory is refused.
    ensures only { (es : List EventValue) → EventsAreSpelled format counties text.now es
        → IsUnlessMemory (λ v. map event_of v.items) result es }
    // Unless memory was refused, the fault is that of the text.
    ensures fault { IfErr result (λ f. (IsTextMemory f → ⊥) → events_fault format counties text.now ≡ Some f) }
{
    events_of(alloc, text, format, counties)
}
