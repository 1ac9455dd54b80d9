//! Events, written as their lines.

ghost use Rattle.std.specs.Prelude.{◌≡◌, ◌≤◌, ℕ, List, [], ◌∷◌, ◌++◌, map, length, IfOk, IfErr};
ghost use Rattle.certificate_data.specs.{declared.format.Format.Format, TreeValue.tree_of};
ghost use Rattle.certificate_lines.specs.{Items.groups_wanted, Lines.most, Writing.Writes};
ghost use Rattle.certificate_lines.specs.declared.fault.WriteFault.TheVariants as write_fault;
ghost use Rattle.certificate_lines.specs.declared.item.Item.TheVariants as item;
ghost use Rattle.board_laws.specs.Content.{hand, result as proof, split_piece, part_piece, better, wider};
ghost use Rattle.partial_trees.specs.PartialValue.{partial_of};
ghost use Rattle.share_board.specs.Events.{event_of};
ghost use Rattle.board_report.specs.{EventSpelling.EventsAreSpelled, EventsWritten.WritesEvent};

use crate::word_numbers::push_words_number;
use certificate_data::{Format, Tree};
use certificate_lines::{
    MOST, WriteFault, push_code_and_number_line, push_group, push_number_line,
};
use certificate_text::write_tree;
use county_codes::{CountyCode, Group};
use partial_text::write_part;
use partial_trees::PartialTree;
use share_board::Event;
use std::alloc::Global;

/// Appends the line `hand FROM`, which asks for a piece, if possible with the number `from` or a greater one.
fn push_hand(out: &mut Vec<u8>, from: u32) -> Result<(), WriteFault>
    ensures { (format : Format) (counties : ℕ)
        → WritesEvent format counties (hand from) out.old.items result out.new.items }
{
    push_number_line(out, b"hand ", from)?;
    Ok(())
}

/// Appends the lines of a `tree` for a `piece`.
fn push_result(
    out: &mut Vec<u8>,
    round: u32,
    piece: u32,
    tree: &Tree,
    format: Format,
    counties: u16,
) -> Result<(), WriteFault>
    requires { counties ≤ most }
    ensures { WritesEvent format counties (proof round piece (tree_of tree.now)) out.old.items result out.new.items }
{
    let lines = write_tree(*out.allocator(), tree, format, counties)?;
    push_words_number(out, b"result ", u64::from(round))?;
    push_number_line(out, b" ", piece)?;
    out.extend_from_slice(&lines)?;
    Ok(())
}

/// Appends the line that asks to split the piece `piece` of the round `round` at `county`, with groups of at most
/// `limit` counties. Returns `NoSpelling` if `limit` isn't from 1 to 256.
fn push_split(
    out: &mut Vec<u8>,
    round: u32,
    piece: u32,
    county: CountyCode,
    limit: u16,
) -> Result<(), WriteFault>
    ensures { (format : Format) (counties : ℕ)
        → WritesEvent format counties (split_piece round piece county limit) out.old.items result out.new.items }
{
    if limit == 0 || u32::from(limit) > MOST {
        return Err(WriteFault::NoSpelling);
    }
    push_words_number(out, b"split ", u64::from(round))?;
    push_words_number(out, b" ", u64::from(piece))?;
    push_code_and_number_line(out, b" ", county, u32::from(limit))?;
    Ok(())
}

/// Appends the lines of a part `tree` for a `piece`.
fn push_part(
    out: &mut Vec<u8>,
    round: u32,
    piece: u32,
    tree: &PartialTree,
    format: Format,
    counties: u16,
) -> Result<(), WriteFault>
    requires { counties ≤ most }
    ensures { WritesEvent format counties (part_piece round piece (partial_of tree.now)) out.old.items result out.new.items }
{
    let lines = write_part(*out.allocator(), tree, format, counties)?;
    push_words_number(out, b"part ", u64::from(round))?;
    push_number_line(out, b" ", piece)?;
    out.extend_from_slice(&lines)?;
    Ok(())
}

/// Appends the lines of the `groups`.
fn push_groups(out: &mut Vec<u8>, groups: &[Group]) -> Result<(), WriteFault>
    ensures { Writes (groups_wanted (length groups.now)) (map item.Grouped groups.now) [] out.old.items result out.new.items }
{
    for group in groups {
        push_group(out, group)?;
    }
    Ok(())
}

/// Appends the lines that give the better target `groups` in the round `round`. Returns `NoSpelling` if there are more
/// than 256 groups, or if no line spells one of them.
fn push_better(out: &mut Vec<u8>, round: u32, groups: &[Group]) -> Result<(), WriteFault>
    ensures { (format : Format) (counties : ℕ)
        → WritesEvent format counties (better round groups.now) out.old.items result out.new.items }
{
    if groups.len() > MOST as usize {
        return Err(WriteFault::NoSpelling);
    }
    push_words_number(out, b"better ", u64::from(round))?;
    push_number_line(out, b" ", groups.len() as u32)?;
    push_groups(out, groups)
}

/// Appends the line `wider ROUND`, which asks for a greater limit than that of the round `round`.
fn push_wider(out: &mut Vec<u8>, round: u32) -> Result<(), WriteFault>
    ensures { (format : Format) (counties : ℕ)
        → WritesEvent format counties (wider round) out.old.items result out.new.items }
{
    push_number_line(out, b"wider ", round)?;
    Ok(())
}

/// Appends the text of an `event`.
fn push_event(
    out: &mut Vec<u8>,
    event: &Event,
    format: Format,
    counties: u16,
) -> Result<(), WriteFault>
    requires { counties ≤ most }
    ensures { WritesEvent format counties (event_of event.now) out.old.items result out.new.items }
{
    match event {
        Event::Hand(from) => push_hand(out, *from),
        Event::Result(round, piece, tree) => {
            push_result(out, *round, *piece, tree, format, counties)
        }
        Event::Split(round, piece, county, limit) => {
            push_split(out, *round, *piece, *county, *limit)
        }
        Event::Part(round, piece, tree) => {
            push_part(out, *round, *piece, tree, format, counties)
        }
        Event::Better(round, grouping) => push_better(out, *round, &grouping.groups),
        Event::Wider(round) => push_wider(out, *round),
    }
}

/// Returns the text that spells an `event`. Trees are of this `format` and for an order of `counties` counties.
///
/// # Errors
///
/// Returns `NoSpelling` exactly if no text spells the event, and `Memory` if memory was refused.
pub fn write_event(
    alloc: Global,
    event: &Event,
    format: Format,
    counties: u16,
) -> Result<Vec<u8>, WriteFault>
    requires { counties ≤ most }
    ensures spelled { IfOk result (λ text. EventsAreSpelled format counties text.items (event_of event.now ∷ [])) }
    ensures none { IfErr result (λ fault. fault ≡ write_fault.NoSpelling → (text : List ℕ)
        → EventsAreSpelled format counties text (event_of event.now ∷ []) → ⊥) }
{
    let mut out = Vec::new(alloc);
    push_event(&mut out, event, format, counties)?;
    Ok(out)
}
