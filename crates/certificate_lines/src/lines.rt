//! What each form of line says, by its words.

ghost use Rattle.std.specs.Prelude.{◌≡◌, ℕ, nat_lt, None, Ok, Err, IfOk, if◌then◌else◌};
ghost use Rattle.field_lines.specs.Values.{GivesUnless};
ghost use Rattle.certificate_data.specs.{Levels.after_raise, declared.format.Format.TheVariants.{Plain, Wide}};
ghost use Rattle.certificate_lines.specs.Lines.{head_on, tolerance_on, order_on, limit_on, target_on, group_on, branch_on, stuck_on, bound_on, opening_on, part_on, take_on, weigh_on, allowance_on, end_on, ascend, HasLevel, HasPartLevel};
ghost use Rattle.certificate_lines.specs.declared.fault.TextKind.TheVariants.{Memory, TooDeep};
ghost use Rattle.certificate_lines.specs.declared.item.Opening.TheVariants.{Branch};

use crate::fault::TextKind;
use crate::item::{Opening, Version};
use crate::words::Words;
use certificate_data::{Allowance, Format, Weight};
use county_codes::{Codes, CountyCode, Group, MAX_COUNTIES, Tolerance};
use std::alloc::Global;

/// The greatest number of counties, groups, lines of a bound leaf and levels of branches.
pub const MOST: u32 = MAX_COUNTIES as u32;

/// The first line of a plain certificate of version 1.
pub(crate) const PLAIN_HEAD_ONE: &[u8] = b"county-groups certificate 1";

/// The first line of a wide certificate of version 1.
pub(crate) const WIDE_HEAD_ONE: &[u8] = b"county-groups wide certificate 1";

/// The first line of a plain certificate of version 2.
pub(crate) const PLAIN_HEAD_TWO: &[u8] = b"county-groups certificate 2";

/// The first line of a wide certificate of version 2.
pub(crate) const WIDE_HEAD_TWO: &[u8] = b"county-groups wide certificate 2";

/// Returns the format and the version that `bytes`, the first line, name. Returns `BadHead` if they are no head.
#[tactic(auto, unfolding(crate::specs::Lines::head_on))]
pub(crate) fn head_on(bytes: &[u8]) -> Result<(Format, Version), TextKind>
    ensures { result ≡ head_on bytes.now }
{
    if bytes == PLAIN_HEAD_ONE {
        Ok((Format::Plain, Version::One))
    } else if bytes == WIDE_HEAD_ONE {
        Ok((Format::Wide, Version::One))
    } else if bytes == PLAIN_HEAD_TWO {
        Ok((Format::Plain, Version::Two))
    } else if bytes == WIDE_HEAD_TWO {
        Ok((Format::Wide, Version::Two))
    } else {
        Err(TextKind::BadHead)
    }
}

/// Reads the tolerance that a certificate names from the `words` of its line. It is a fraction of at most a half, with
/// a numerator of at most 500 and a denominator from 1 to 1,000.
#[tactic(auto, unfolding(crate::specs::Lines::tolerance_on))]
pub(crate) fn tolerance_on(words: &mut Words) -> Result<Tolerance, TextKind>
    ensures { result ≡ tolerance_on words.old }
{
    words.named(b"window")?;
    words.counted(2, 2)?;
    let numerator = words.number(0, 500)?;
    let denominator = words.number(1, 1000)?;
    if 2 * numerator <= denominator {
        Ok(Tolerance {
            numerator: numerator as u16,
            denominator: denominator as u16,
        })
    } else {
        Err(TextKind::BadNumber)
    }
}

/// Reads the order, at most 256 codes, from the `words` of its line.
#[tactic(auto, unfolding(crate::specs::Lines::order_on))]
pub(crate) fn order_on(alloc: Global, words: &mut Words) -> Result<Codes, TextKind>
    ensures { GivesUnless (λ k. k ≡ Memory) (λ c. c) result (order_on words.old) }
{
    words.named(b"order")?;
    words.counted(0, MOST as usize)?;
    words.codes_left(alloc)
}

/// Reads the limit, from 0 to 256 counties, from the `words` of its line.
#[tactic(auto, unfolding(crate::specs::Lines::limit_on))]
pub(crate) fn limit_on(words: &mut Words) -> Result<u16, TextKind>
    ensures { result ≡ limit_on words.old }
{
    words.named(b"limit")?;
    words.counted(1, 1)?;
    Ok(words.number(0, MOST)? as u16)
}

/// Reads the number of groups of the target, from 0 to 256, from `words`, or returns `None` if there is no target.
#[tactic(auto, unfolding(crate::specs::Lines::target_on))]
pub(crate) fn target_on(words: &mut Words) -> Result<Option<u16>, TextKind>
    ensures { result ≡ target_on words.old }
{
    words.named(b"target")?;
    words.counted(1, 1)?;
    if words.begins(b"none") {
        Ok(None)
    } else {
        Ok(Some(words.number(0, MOST)? as u16))
    }
}

/// Reads a group of the target from the `words` of its line: its seats, from 0 to 65,535, and the codes of 1 to 256
/// counties.
#[tactic(auto, unfolding(crate::specs::Lines::group_on))]
pub(crate) fn group_on(alloc: Global, words: &mut Words) -> Result<Group, TextKind>
    ensures { GivesUnless (λ k. k ≡ Memory) (λ g. g) result (group_on words.old) }
{
    words.named(b"group")?;
    words.counted(2, 1 + MOST as usize)?;
    let seats = words.number(0, 65_535)? as u16;
    let codes = words.codes_left(alloc)?;
    Ok(Group { seats, codes })
}

/// Creates a branch at the `county`, if there is a level for it.
fn branch_with(levels: u16, county: CountyCode, limit: Option<u16>) -> Result<Opening, TextKind>
    ensures value { result ≡ (if nat_lt 0 levels then Ok (Branch county limit) else Err TooDeep) }
    ensures level { IfOk result (λ o. HasLevel levels o) }
{
    if levels > 0 {
        Ok(Opening::Branch { county, limit })
    } else {
        Err(TextKind::TooDeep)
    }
}

/// Reads a branch of a plain certificate from the `words` after the first.
#[tactic(auto, unfolding(crate::specs::Lines::branch_on))]
fn plain_branch_on(levels: u16, words: &mut Words) -> Result<Opening, TextKind>
    ensures value { result ≡ branch_on Plain levels words.old }
    ensures level { IfOk result (λ o. HasLevel levels o) }
{
    words.counted(1, 1)?;
    branch_with(levels, words.code()?, None)
}

/// Reads a branch of a wide certificate from the `words` after the first.
#[tactic(auto, unfolding(crate::specs::Lines::branch_on))]
fn wide_branch_on(levels: u16, words: &mut Words) -> Result<Opening, TextKind>
    ensures value { result ≡ branch_on Wide levels words.old }
    ensures level { IfOk result (λ o. HasLevel levels o) }
{
    words.counted(2, 2)?;
    let county = words.code()?;
    let limit = words.number(1, MOST)? as u16;
    branch_with(levels, county, Some(limit))
}

/// Reads a branch from the `words` after the first.
fn branch_on(format: Format, levels: u16, words: &mut Words) -> Result<Opening, TextKind>
    ensures value { result ≡ branch_on format levels words.old }
    ensures level { IfOk result (λ o. HasLevel levels o) }
{
    match format {
        Format::Plain => plain_branch_on(levels, words),
        Format::Wide => wide_branch_on(levels, words),
    }
}

/// Reads a stuck leaf from the `words` after the first.
#[tactic(auto, unfolding(crate::specs::Lines::stuck_on))]
fn stuck_on(words: &mut Words) -> Result<Opening, TextKind>
    ensures value { result ≡ stuck_on words.old }
    ensures level { IfOk result (λ o. (levels : ℕ) → HasLevel levels o) }
{
    words.counted(1, 1)?;
    Ok(Opening::Stuck(words.code()?))
}

/// Reads the first line of a bound leaf from the `words` after the first.
#[tactic(auto, unfolding(crate::specs::Lines::bound_on))]
fn bound_on(words: &mut Words) -> Result<Opening, TextKind>
    ensures value { result ≡ bound_on words.old }
    ensures level { IfOk result (λ o. (levels : ℕ) → HasLevel levels o) }
{
    words.counted(1, 1)?;
    Ok(Opening::Bound(words.number(0, MOST)? as u16))
}

/// Reads a branch or a leaf, where branches may still open `levels` levels.
#[tactic(auto, unfolding(crate::specs::Lines::opening_on))]
pub(crate) fn opening_on(
    format: Format,
    levels: u16,
    words: &mut Words,
) -> Result<Opening, TextKind>
    ensures value { result ≡ opening_on format levels words.old }
    ensures level { IfOk result (λ o. HasLevel levels o) }
{
    if words.skipped(b"branch") {
        branch_on(format, levels, words)
    } else if words.skipped(b"stuck") {
        stuck_on(words)
    } else if words.skipped(b"seats") {
        words.counted(0, 0)?;
        Ok(Opening::Seats)
    } else if words.skipped(b"bound") {
        bound_on(words)
    } else {
        Err(TextKind::BadWord)
    }
}

/// Reads a branch or a leaf of a partial tree, where branches may still open `levels` levels, or `None` at an open
/// leaf.
#[tactic(auto, unfolding(crate::specs::Lines::part_on))]
pub(crate) fn part_on(
    format: Format,
    levels: u16,
    words: &mut Words,
) -> Result<Option<Opening>, TextKind>
    ensures value { result ≡ part_on format levels words.old }
    ensures level { IfOk result (λ o. HasPartLevel levels o) }
{
    if words.skipped(b"open") {
        words.counted(0, 0)?;
        Ok(None)
    } else {
        Ok(Some(opening_on(format, levels, words)?))
    }
}

/// Reads the codes of a take, from 1 to 256, from the `words` of its line, or returns `None` at the mark. Returns
/// `BadWord` for any other first word.
#[tactic(auto, unfolding(crate::specs::Lines::take_on))]
pub(crate) fn take_on(alloc: Global, words: &mut Words) -> Result<Option<Codes>, TextKind>
    ensures { GivesUnless (λ k. k ≡ Memory) (λ c. c) result (take_on words.old) }
{
    if words.skipped(b"take") {
        words.counted(1, MOST as usize)?;
        Ok(Some(words.codes_left(alloc)?))
    } else if words.skipped(b"mark") {
        words.counted(0, 0)?;
        Ok(None)
    } else {
        Err(TextKind::BadWord)
    }
}

/// Returns whether the codes of the `weights` strictly ascend.
pub fn ascend(weights: &[Weight]) -> bool
    ensures { result ≡ ascend weights.now }
{
    let mut weights = weights;
    while let [first, rest @ ..] = weights {
        if let [second, ..] = rest
            && first.county.get() >= second.county.get()
        {
            return false;
        }
        weights = rest;
    }
    true
}

/// Reads the quota and the weights of a bound leaf's line from the `words` after the first.
#[tactic(auto, unfolding(crate::specs::Lines::weigh_on))]
fn weigh_on(alloc: Global, words: &mut Words) -> Result<Allowance, TextKind>
    ensures { GivesUnless (λ k. k ≡ Memory) (λ a. a) result (weigh_on words.old) }
{
    let quota = words.number(1, 256_000_000)?;
    let weights = words.weights(alloc)?;
    if ascend(weights.as_slice()) {
        Ok(Allowance::Weigh { quota, weights })
    } else {
        Err(TextKind::NotCanonical)
    }
}

/// Reads a line of a bound leaf from `words`. Returns `BadWord` if its first word is neither `room` nor `weigh`.
#[tactic(auto, unfolding(crate::specs::Lines::allowance_on))]
pub(crate) fn allowance_on(alloc: Global, words: &mut Words) -> Result<Allowance, TextKind>
    ensures { GivesUnless (λ k. k ≡ Memory) (λ a. a) result (allowance_on words.old) }
{
    if words.skipped(b"room") {
        words.counted(0, 0)?;
        Ok(Allowance::Room)
    } else if words.skipped(b"weigh") {
        weigh_on(alloc, words)
    } else {
        Err(TextKind::BadWord)
    }
}

/// Reads the end from the `words` of its line, which is `end` alone.
#[tactic(auto, unfolding(crate::specs::Lines::end_on))]
pub(crate) fn end_on(words: &mut Words) -> Result<(), TextKind>
    ensures { result ≡ end_on words.old }
{
    words.named(b"end")?;
    words.counted(0, 0)
}

/// Returns how many levels are left for the tree behind the mark of a branch that was opened with `levels`.
pub fn levels_after(format: Format, levels: u16) -> u16
    ensures { result ≡ after_raise format levels }
{
    match format {
        Format::Plain => levels.saturating_sub(1),
        Format::Wide => levels,
    }
}
