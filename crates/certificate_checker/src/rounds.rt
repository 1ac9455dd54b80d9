//! The round of a certificate, read from the lines in front of its tree.

ghost use Rattle.std.specs.Prelude.{◌≡◌, ◌≤◌, ◌∷◌, [], ◌++◌, List, Option, length, map};
ghost use Rattle.grouping_laws.specs.Grouping.{Grouping as GroupingValue};
ghost use Rattle.county_codes.specs.declared.group.Group.{Group as GroupValue};
ghost use Rattle.county_codes.specs.declared.tolerance.Tolerance.{Tolerance as ToleranceValue};
ghost use Rattle.certificate_data.specs.declared.format.Format.{Format as FormatValue};
ghost use Rattle.certificate_data.specs.{RoundValue.{round_of, target_of}, TreeValue.Certificate};
ghost use Rattle.certificate_lines.specs.declared.item.Item.{Item as ItemValue};
ghost use Rattle.certificate_lines.specs.declared.item.Item.TheVariants as item;
ghost use Rattle.certificate_text.specs.Trees.{items_of_head, items_of_target, items_of_tree, items_of_certificate};
ghost use Rattle.certificate_checker.specs.Feeding.{stream_of, CountsSteps, IsFed, FeedsThrough, ForEach};
ghost use Rattle.certificate_checker.specs.Certificates.{AreTaken, round_items};

use crate::feed::{Feed, Halt};
use crate::forms::{next_group, next_head, next_limit, next_order, next_target, next_tolerance};
use certificate_data::{Format, Round};
use certificate_lines::{ItemSource, Version};
use county_codes::{Group, Grouping, Tolerance};
use std::alloc::Global;

/// Reads `count` groups of a target.
fn read_groups<F, S: ItemSource<F>>(
    alloc: Global,
    feed: &mut Feed<S>,
    from: &mut F,
    count: u16,
) -> Result<Vec<Group>, Halt>
    requires { feed.old.line ≤ feed.old.steps.used }
    ensures counts { CountsSteps feed.old feed.new }
    ensures fed { FeedsThrough (stream_of S.left S.given feed.old from.old) (stream_of S.left S.given feed.new from.new) (λ a b. IsFed a result b) }
    ensures taken { ForEach (stream_of S.left S.given feed.old from.old) (stream_of S.left S.given feed.new from.new) (λ a b. (groups : List GroupValue) (rest : List ItemValue)
        → length groups ≡ count
        → a.reading.items ≡ map item.Grouped groups ++ rest
        → AreTaken (λ v. v.items ≡ groups) (map item.Grouped groups) rest a result b) }
{
    let mut groups = Vec::new(alloc);
    'reading: for done in 0..count {
        match next_group(feed, from) {
            Ok(group) => groups.push(group)?,
            Err(stop) => return Err(stop),
        }
    }
    Ok(groups)
}

/// Reads the target from `feed`, or returns `None` if there is none.
fn read_target<F, S: ItemSource<F>>(
    alloc: Global,
    feed: &mut Feed<S>,
    from: &mut F,
) -> Result<Option<Grouping>, Halt>
    requires { feed.old.line ≤ feed.old.steps.used }
    ensures counts { CountsSteps feed.old feed.new }
    ensures fed { FeedsThrough (stream_of S.left S.given feed.old from.old) (stream_of S.left S.given feed.new from.new) (λ a b. IsFed a result b) }
    ensures taken { ForEach (stream_of S.left S.given feed.old from.old) (stream_of S.left S.given feed.new from.new) (λ a b. (target : Option GroupingValue) (rest : List ItemValue)
        → a.reading.items ≡ items_of_target target ++ rest
        → AreTaken (λ t. target_of t ≡ target) (items_of_target target) rest a result b) }
{
    match next_target(feed, from) {
        Ok(Some(count)) => match read_groups(alloc, feed, from, count) {
            Ok(groups) => Ok(Some(Grouping { groups })),
            Err(stop) => Err(stop),
        },
        Ok(None) => Ok(None),
        Err(stop) => Err(stop),
    }
}

/// Reads the format in the head from `feed`, and the tolerance on the second line if the head is of version 2. Returns
/// no tolerance if it is of version 1.
fn read_head<F, S: ItemSource<F>>(
    feed: &mut Feed<S>,
    from: &mut F,
) -> Result<(Format, Option<Tolerance>), Halt>
    requires { feed.old.line ≤ feed.old.steps.used }
    ensures counts { CountsSteps feed.old feed.new }
    ensures fed { FeedsThrough (stream_of S.left S.given feed.old from.old) (stream_of S.left S.given feed.new from.new) (λ a b. IsFed a result b) }
    ensures taken { ForEach (stream_of S.left S.given feed.old from.old) (stream_of S.left S.given feed.new from.new) (λ a b. (format : FormatValue) (tolerance : Option ToleranceValue) (rest : List ItemValue)
        → a.reading.items ≡ items_of_head format tolerance ++ rest
        → AreTaken (λ r. (r.0 ≡ format) × (r.1 ≡ tolerance)) (items_of_head format tolerance) rest a result b) }
{
    match next_head(feed, from) {
        Ok((format, Version::One)) => Ok((format, None)),
        Ok((format, Version::Two)) => match next_tolerance(feed, from) {
            Ok(tolerance) => Ok((format, Some(tolerance))),
            Err(stop) => Err(stop),
        },
        Err(stop) => Err(stop),
    }
}

/// Reads the round of a certificate from `feed`: its head, its order, its limit and its target.
pub(crate) fn read_round<F, S: ItemSource<F>>(
    alloc: Global,
    feed: &mut Feed<S>,
    from: &mut F,
) -> Result<Round, Halt>
    requires { feed.old.line ≤ feed.old.steps.used }
    ensures counts { CountsSteps feed.old feed.new }
    ensures fed { FeedsThrough (stream_of S.left S.given feed.old from.old) (stream_of S.left S.given feed.new from.new) (λ a b. IsFed a result b) }
    ensures taken { ForEach (stream_of S.left S.given feed.old from.old) (stream_of S.left S.given feed.new from.new) (λ a b. (c : Certificate)
        → a.reading.items ≡ items_of_certificate c
        → AreTaken (λ round. round_of round
        ≡ c.round) (round_items c) (items_of_tree c.tree ++ item.End ∷ []) a result b) }
{
    match read_head(feed, from) {
        Ok((format, tolerance)) => {
            let order = next_order(feed, from)?;
            let limit = next_limit(feed, from)?;
            match read_target(alloc, feed, from) {
                Ok(target) => Ok(Round {
                    order,
                    limit,
                    target,
                    format,
                    tolerance,
                }),
                Err(stop) => Err(stop),
            }
        }
        Err(stop) => Err(stop),
    }
}
