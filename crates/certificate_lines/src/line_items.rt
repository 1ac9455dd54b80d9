//! The item of one line where something is wanted, and what is wanted after it.

ghost use Rattle.std.specs.Prelude.{◌≡◌, ◌-◌, List, [], ◌∷◌, ◌++◌, reverse};
ghost use Rattle.arrayvec.specs.ArrayVec.{array_vec_len};
ghost use Rattle.certificate_lines.specs.{Stacks.HasRoom, Items.{wanted_after, parted}, ItemReadings.{HasItem, IsStacked}};
ghost use Rattle.certificate_lines.specs.declared.item.Item.TheVariants as item;
ghost use Rattle.certificate_lines.specs.declared.item.Wanted.{Wanted as WantedValue};
ghost use Rattle.certificate_lines.specs.declared.item.Wanted.TheVariants as want;

use crate::cursor::head_of;
use crate::fault::TextKind;
use crate::item::{Item, Opening, Version, Wanted};
use crate::lines::{
    allowance_on, end_on, group_on, levels_after, limit_on, opening_on, order_on, part_on, take_on,
    target_on, tolerance_on,
};
use crate::words::Words;
use arrayvec::ArrayVec;
use certificate_data::Format;
use county_codes::MAX_COUNTIES;
use std::alloc::Global;

/// The greatest number of things that may be wanted at once. They are the end, the groups of a branch at each level,
/// and the tree inside them.
const DEPTH: usize = MAX_COUNTIES + 2;

/// What is wanted, as a stack. Its top, which is wanted next, is its last element.
pub(crate) type Stack = ArrayVec<Wanted, DEPTH>;

/// Returns what is wanted after a head of this `format` and `version`: the order for version 1, and the tolerance for
/// version 2.
fn after_head(format: Format, version: Version) -> Wanted
    ensures { result ∷ [] ≡ wanted_after want.Head (item.Head format version) }
{
    match version {
        Version::One => Wanted::Order(format),
        Version::Two => Wanted::Tolerance(format),
    }
}

/// Reads the head, and pushes what is wanted after it onto the `stack`.
fn head_item(bytes: &[u8], ended: bool, stack: &mut Stack) -> Result<Item, TextKind>
    requires room { HasRoom (array_vec_len stack.old) want.Head }
    ensures read { HasItem want.Head bytes.now ended result }
    ensures stacked { IsStacked want.Head result stack.old.items stack.new.items }
{
    let (format, version) = head_of(bytes, ended)?;
    stack.push(after_head(format, version));
    Ok(Item::Head(format, version))
}

/// Reads the line that names the tolerance, and pushes what is wanted after it onto the `stack`.
fn tolerance_item(
    bytes: &[u8],
    ended: bool,
    stack: &mut Stack,
    format: Format,
) -> Result<Item, TextKind>
    requires room { HasRoom (array_vec_len stack.old) (want.Tolerance format) }
    ensures read { HasItem (want.Tolerance format) bytes.now ended result }
    ensures stacked { IsStacked (want.Tolerance format) result stack.old.items stack.new.items }
{
    let mut words = Words::new(bytes, ended)?;
    let tolerance = tolerance_on(&mut words)?;
    stack.push(Wanted::Order(format));
    Ok(Item::Within(tolerance))
}

/// Pushes what is wanted after an order of `counties` counties onto the `stack`.
fn want_after_order(stack: &mut Stack, format: Format, counties: u16)
    requires { HasRoom (array_vec_len stack.old) (want.Order format) }
    ensures { stack.new.items
        ≡ stack.old.items ++ (want.End ∷ want.Tree format counties ∷ want.Target ∷ want.Limit ∷ []) }
{
    stack.push(Wanted::End);
    stack.push(Wanted::Tree(format, counties));
    stack.push(Wanted::Target);
    stack.push(Wanted::Limit);
}

/// Reads the order, and pushes what is wanted after it onto the `stack`.
fn order_item(
    alloc: Global,
    bytes: &[u8],
    ended: bool,
    stack: &mut Stack,
    format: Format,
) -> Result<Item, TextKind>
    requires room { HasRoom (array_vec_len stack.old) (want.Order format) }
    ensures read { HasItem (want.Order format) bytes.now ended result }
    ensures stacked { IsStacked (want.Order format) result stack.old.items stack.new.items }
{
    let mut words = Words::new(bytes, ended)?;
    let order = order_on(alloc, &mut words)?;
    let levels = order.as_slice().len() as u16;
    want_after_order(stack, format, levels);
    Ok(Item::Order(order))
}

/// Reads the line of the target, and pushes what is wanted after it onto the `stack`.
fn target_item(bytes: &[u8], ended: bool, stack: &mut Stack) -> Result<Item, TextKind>
    requires room { HasRoom (array_vec_len stack.old) want.Target }
    ensures read { HasItem want.Target bytes.now ended result }
    ensures stacked { IsStacked want.Target result stack.old.items stack.new.items }
{
    let mut words = Words::new(bytes, ended)?;
    let target = target_on(&mut words)?;
    if let Some(groups) = target
        && groups > 0
    {
        stack.push(Wanted::Groups(groups));
    }
    Ok(Item::Target(target))
}

/// Reads a group of the target where `left` groups are wanted, and pushes what is wanted after it onto the `stack`.
fn group_item(
    alloc: Global,
    bytes: &[u8],
    ended: bool,
    stack: &mut Stack,
    left: u16,
) -> Result<Item, TextKind>
    requires room { HasRoom (array_vec_len stack.old) (want.Groups left) }
    ensures read { HasItem (want.Groups left) bytes.now ended result }
    ensures stacked { IsStacked (want.Groups left) result stack.old.items stack.new.items }
{
    let mut words = Words::new(bytes, ended)?;
    let group = group_on(alloc, &mut words)?;
    if left > 1 {
        stack.push(Wanted::Groups(left - 1));
    }
    Ok(Item::Grouped(group))
}

/// Reads the first line of a tree, and pushes what is wanted after it onto the `stack`. Branches may still open
/// `levels` levels.
fn opening_item(
    bytes: &[u8],
    ended: bool,
    stack: &mut Stack,
    format: Format,
    levels: u16,
) -> Result<Item, TextKind>
    requires room { HasRoom (array_vec_len stack.old) (want.Tree format levels) }
    ensures read { HasItem (want.Tree format levels) bytes.now ended result }
    ensures stacked { IsStacked (want.Tree format levels) result stack.old.items stack.new.items }
{
    let mut words = Words::new(bytes, ended)?;
    let opening = opening_on(format, levels, &mut words)?;
    match opening {
        Opening::Branch { .. } => stack.push(Wanted::Takes(format, levels)),
        Opening::Bound(lines) => {
            if lines > 0 {
                stack.push(Wanted::Allowances(lines));
            }
        }
        Opening::Stuck(_) | Opening::Seats => {}
    }
    Ok(Item::Opens(opening))
}

/// Pushes what is wanted after a group that is taken onto the `stack`.
fn want_after_take(stack: &mut Stack, format: Format, levels: u16)
    requires { HasRoom (array_vec_len stack.old) (want.Takes format levels) }
    ensures { stack.new.items ≡ stack.old.items ++ (want.Takes format levels ∷ want.Tree format (levels - 1) ∷ []) }
{
    stack.push(Wanted::Takes(format, levels));
    stack.push(Wanted::Tree(format, levels.saturating_sub(1)));
}

/// Reads a take or a mark, and pushes what is wanted after it onto the `stack`.
fn take_item(
    alloc: Global,
    bytes: &[u8],
    ended: bool,
    stack: &mut Stack,
    format: Format,
    levels: u16,
) -> Result<Item, TextKind>
    requires room { HasRoom (array_vec_len stack.old) (want.Takes format levels) }
    ensures read { HasItem (want.Takes format levels) bytes.now ended result }
    ensures stacked { IsStacked (want.Takes format levels) result stack.old.items stack.new.items }
{
    let mut words = Words::new(bytes, ended)?;
    match take_on(alloc, &mut words)? {
        Some(codes) => {
            want_after_take(stack, format, levels);
            Ok(Item::Takes(codes))
        }
        None => {
            let after = Wanted::Tree(format, levels_after(format, levels));
            stack.push(after);
            Ok(Item::Mark)
        }
    }
}

/// Pushes what is wanted after the first line of a partial tree onto the `stack`. The line is an `opening`, or `None`
/// at an open leaf.
fn want_after_part(stack: &mut Stack, format: Format, levels: u16, opening: &Option<Opening>)
    requires { HasRoom (array_vec_len stack.old) (want.Part format levels) }
    ensures { reverse stack.new.items
        ≡ wanted_after (want.Part format levels) (parted opening.now) ++ reverse stack.old.items }
{
    match opening {
        Some(Opening::Branch { .. }) => stack.push(Wanted::PartTakes(format, levels)),
        Some(Opening::Bound(lines)) => {
            if *lines > 0 {
                stack.push(Wanted::Allowances(*lines));
            }
        }
        Some(Opening::Stuck(_) | Opening::Seats) | None => {}
    }
}

/// Reads the first line of a partial tree, and pushes what is wanted after it onto the `stack`. Branches may still open
/// `levels` levels.
fn part_item(
    bytes: &[u8],
    ended: bool,
    stack: &mut Stack,
    format: Format,
    levels: u16,
) -> Result<Item, TextKind>
    requires room { HasRoom (array_vec_len stack.old) (want.Part format levels) }
    ensures read { HasItem (want.Part format levels) bytes.now ended result }
    ensures stacked { IsStacked (want.Part format levels) result stack.old.items stack.new.items }
{
    let mut words = Words::new(bytes, ended)?;
    let opening = part_on(format, levels, &mut words)?;
    want_after_part(stack, format, levels, &opening);
    match &opening {
        Some(first) => Ok(Item::Opens(*first)),
        None => Ok(Item::Open),
    }
}

/// Pushes what is wanted after a group that is taken in a partial tree onto the `stack`.
fn want_after_part_take(stack: &mut Stack, format: Format, levels: u16)
    requires { HasRoom (array_vec_len stack.old) (want.PartTakes format levels) }
    ensures { stack.new.items
        ≡ stack.old.items ++ (want.PartTakes format levels ∷ want.Part format (levels - 1) ∷ []) }
{
    stack.push(Wanted::PartTakes(format, levels));
    stack.push(Wanted::Part(format, levels.saturating_sub(1)));
}

/// Reads a take or a mark of a partial tree, and pushes what is wanted after it onto the `stack`.
fn part_take_item(
    alloc: Global,
    bytes: &[u8],
    ended: bool,
    stack: &mut Stack,
    format: Format,
    levels: u16,
) -> Result<Item, TextKind>
    requires room { HasRoom (array_vec_len stack.old) (want.PartTakes format levels) }
    ensures read { HasItem (want.PartTakes format levels) bytes.now ended result }
    ensures stacked { IsStacked (want.PartTakes format levels) result stack.old.items stack.new.items }
{
    let mut words = Words::new(bytes, ended)?;
    match take_on(alloc, &mut words)? {
        Some(codes) => {
            want_after_part_take(stack, format, levels);
            Ok(Item::Takes(codes))
        }
        None => {
            let after = Wanted::Part(format, levels_after(format, levels));
            stack.push(after);
            Ok(Item::Mark)
        }
    }
}

/// Reads a line of a bound leaf where `left` lines are wanted, and pushes what is wanted after it onto the `stack`.
fn allowance_item(
    alloc: Global,
    bytes: &[u8],
    ended: bool,
    stack: &mut Stack,
    left: u16,
) -> Result<Item, TextKind>
    requires room { HasRoom (array_vec_len stack.old) (want.Allowances left) }
    ensures read { HasItem (want.Allowances left) bytes.now ended result }
    ensures stacked { IsStacked (want.Allowances left) result stack.old.items stack.new.items }
{
    let mut words = Words::new(bytes, ended)?;
    let allowance = allowance_on(alloc, &mut words)?;
    if left > 1 {
        stack.push(Wanted::Allowances(left - 1));
    }
    Ok(Item::Allows(allowance))
}

/// Reads the limit from the `bytes` of a line, where it is wanted. `ended` says whether an LF ended the line.
fn limit_item(bytes: &[u8], ended: bool) -> Result<Item, TextKind>
    ensures read { HasItem want.Limit bytes.now ended result }
    ensures stacked { (stack : List WantedValue) → IsStacked want.Limit result stack stack }
{
    let mut words = Words::new(bytes, ended)?;
    Ok(Item::Limit(limit_on(&mut words)?))
}

/// Reads the end from the `bytes` of a line, where it is wanted. `ended` says whether an LF ended the line.
fn end_item(bytes: &[u8], ended: bool) -> Result<Item, TextKind>
    ensures read { HasItem want.End bytes.now ended result }
    ensures stacked { (stack : List WantedValue) → IsStacked want.End result stack stack }
{
    let mut words = Words::new(bytes, ended)?;
    end_on(&mut words)?;
    Ok(Item::End)
}

/// Reads the item on a line, where `wanted` says what is wanted. What is wanted after it is pushed onto the `stack`,
/// whose top is its last element.
pub(crate) fn item_at(
    alloc: Global,
    bytes: &[u8],
    ended: bool,
    stack: &mut Stack,
    wanted: Wanted,
) -> Result<Item, TextKind>
    requires room { HasRoom (array_vec_len stack.old) wanted }
    ensures read { HasItem wanted bytes.now ended result }
    ensures stacked { IsStacked wanted result stack.old.items stack.new.items }
{
    match wanted {
        Wanted::Head => head_item(bytes, ended, stack),
        Wanted::Tolerance(format) => tolerance_item(bytes, ended, stack, format),
        Wanted::Order(format) => order_item(alloc, bytes, ended, stack, format),
        Wanted::Limit => limit_item(bytes, ended),
        Wanted::Target => target_item(bytes, ended, stack),
        Wanted::Groups(left) => group_item(alloc, bytes, ended, stack, left),
        Wanted::Tree(format, levels) => opening_item(bytes, ended, stack, format, levels),
        Wanted::Takes(format, levels) => take_item(alloc, bytes, ended, stack, format, levels),
        Wanted::Part(format, levels) => part_item(bytes, ended, stack, format, levels),
        Wanted::PartTakes(format, levels) => {
            part_take_item(alloc, bytes, ended, stack, format, levels)
        }
        Wanted::Allowances(left) => allowance_item(alloc, bytes, ended, stack, left),
        Wanted::End => end_item(bytes, ended),
    }
}
