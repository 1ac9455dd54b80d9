//! Each form of line, read where a certificate must have it.

ghost use Rattle.std.specs.Prelude.{◌≤◌};
ghost use Rattle.certificate_lines.specs.Items.{taken};
ghost use Rattle.certificate_lines.specs.declared.item.Item.TheVariants as item;
ghost use Rattle.certificate_checker.specs.Feeding.{stream_of, CountsSteps, TakesStep, IsFed, FeedsThrough, ForEach};
ghost use Rattle.certificate_checker.specs.Judging.{TookForm, IsStopAt, IsJudgedAt};

use crate::feed::{Feed, Halt, next_line};
use certificate_data::{Allowance, Format};
use certificate_lines::{Item, ItemSource, Opening, Version};
use county_codes::{Codes, Group, Tolerance};
use state_judge::LineStop;

/// Reads the next line of `feed`, which has to open a tree. Returns `Unspelled` for any other line.
pub(crate) fn next_opening<F, S: ItemSource<F>>(
    feed: &mut Feed<S>,
    from: &mut F,
) -> Result<Opening, Halt>
    requires { feed.old.line ≤ feed.old.steps.used }
    ensures step { TakesStep feed.old result feed.new }
    ensures counts { CountsSteps feed.old feed.new }
    ensures fed { FeedsThrough (stream_of S.left S.given feed.old from.old) (stream_of S.left S.given feed.new from.new) (λ a b. IsFed a result b) }
    ensures took { ForEach (stream_of S.left S.given feed.old from.old) (stream_of S.left S.given feed.new from.new) (λ a b. TookForm item.Opens (λ o. o) a result b) }
{
    let item = next_line(feed, from)?;
    match &item {
        Item::Opens(opening) => Ok(*opening),
        _ => Err(Halt::Unspelled),
    }
}

/// Reads the next line of `feed`, which has to be a take or the mark. Returns the codes of the take, or `None` for the
/// mark. Returns `Unspelled` for any other line.
pub(crate) fn next_take<F, S: ItemSource<F>>(
    feed: &mut Feed<S>,
    from: &mut F,
) -> Result<Option<Codes>, Halt>
    requires { feed.old.line ≤ feed.old.steps.used }
    ensures step { TakesStep feed.old result feed.new }
    ensures counts { CountsSteps feed.old feed.new }
    ensures fed { FeedsThrough (stream_of S.left S.given feed.old from.old) (stream_of S.left S.given feed.new from.new) (λ a b. IsFed a result b) }
    ensures took { ForEach (stream_of S.left S.given feed.old from.old) (stream_of S.left S.given feed.new from.new) (λ a b. TookForm taken (λ o. o) a result b) }
{
    match next_line(feed, from)? {
        Item::Takes(codes) => Ok(Some(codes)),
        Item::Mark => Ok(None),
        _ => Err(Halt::Unspelled),
    }
}

/// Reads the next line of `feed`, which has to be a line of a bound leaf. Returns `Unspelled` for any other line.
pub(crate) fn next_allowance<F, S: ItemSource<F>>(
    feed: &mut Feed<S>,
    from: &mut F,
) -> Result<Allowance, Halt>
    requires { feed.old.line ≤ feed.old.steps.used }
    ensures counts { CountsSteps feed.old feed.new }
    ensures fed { FeedsThrough (stream_of S.left S.given feed.old from.old) (stream_of S.left S.given feed.new from.new) (λ a b. IsFed a result b) }
    ensures took { ForEach (stream_of S.left S.given feed.old from.old) (stream_of S.left S.given feed.new from.new) (λ a b. TookForm item.Allows (λ a. a) a result b) }
{
    match next_line(feed, from)? {
        Item::Allows(allowance) => Ok(allowance),
        _ => Err(Halt::Unspelled),
    }
}

/// Reads the next line of `feed`, which has to be the head of a certificate. Returns its format and its version, and
/// `Unspelled` for any other line.
pub(crate) fn next_head<F, S: ItemSource<F>>(
    feed: &mut Feed<S>,
    from: &mut F,
) -> Result<(Format, Version), Halt>
    requires { feed.old.line ≤ feed.old.steps.used }
    ensures counts { CountsSteps feed.old feed.new }
    ensures fed { FeedsThrough (stream_of S.left S.given feed.old from.old) (stream_of S.left S.given feed.new from.new) (λ a b. IsFed a result b) }
    ensures took { ForEach (stream_of S.left S.given feed.old from.old) (stream_of S.left S.given feed.new from.new) (λ a b. TookForm (λ h. item.Head h.0 h.1) (λ h. h) a result b) }
{
    match next_line(feed, from)? {
        Item::Head(format, version) => Ok((format, version)),
        _ => Err(Halt::Unspelled),
    }
}

/// Reads the next line of `feed`, which has to be that of the tolerance. Returns `Unspelled` for any other line.
pub(crate) fn next_tolerance<F, S: ItemSource<F>>(
    feed: &mut Feed<S>,
    from: &mut F,
) -> Result<Tolerance, Halt>
    requires { feed.old.line ≤ feed.old.steps.used }
    ensures counts { CountsSteps feed.old feed.new }
    ensures fed { FeedsThrough (stream_of S.left S.given feed.old from.old) (stream_of S.left S.given feed.new from.new) (λ a b. IsFed a result b) }
    ensures took { ForEach (stream_of S.left S.given feed.old from.old) (stream_of S.left S.given feed.new from.new) (λ a b. TookForm item.Within (λ w. w) a result b) }
{
    match next_line(feed, from)? {
        Item::Within(tolerance) => Ok(tolerance),
        _ => Err(Halt::Unspelled),
    }
}

/// Reads the next line of `feed`, which has to be the order. Returns its codes, and `Unspelled` for any other line.
pub(crate) fn next_order<F, S: ItemSource<F>>(
    feed: &mut Feed<S>,
    from: &mut F,
) -> Result<Codes, Halt>
    requires { feed.old.line ≤ feed.old.steps.used }
    ensures counts { CountsSteps feed.old feed.new }
    ensures fed { FeedsThrough (stream_of S.left S.given feed.old from.old) (stream_of S.left S.given feed.new from.new) (λ a b. IsFed a result b) }
    ensures took { ForEach (stream_of S.left S.given feed.old from.old) (stream_of S.left S.given feed.new from.new) (λ a b. TookForm item.Order (λ o. o) a result b) }
{
    match next_line(feed, from)? {
        Item::Order(order) => Ok(order),
        _ => Err(Halt::Unspelled),
    }
}

/// Reads the next line of `feed`, which has to be the limit, in counties. Returns `Unspelled` for any other line.
pub(crate) fn next_limit<F, S: ItemSource<F>>(feed: &mut Feed<S>, from: &mut F) -> Result<u16, Halt>
    requires { feed.old.line ≤ feed.old.steps.used }
    ensures counts { CountsSteps feed.old feed.new }
    ensures fed { FeedsThrough (stream_of S.left S.given feed.old from.old) (stream_of S.left S.given feed.new from.new) (λ a b. IsFed a result b) }
    ensures took { ForEach (stream_of S.left S.given feed.old from.old) (stream_of S.left S.given feed.new from.new) (λ a b. TookForm item.Limit (λ n. n) a result b) }
{
    match next_line(feed, from)? {
        Item::Limit(limit) => Ok(limit),
        _ => Err(Halt::Unspelled),
    }
}

/// Reads the next line of `feed`, which has to be that of the target. Returns the number of its groups, or `None` if
/// there is no target. Returns `Unspelled` for any other line.
pub(crate) fn next_target<F, S: ItemSource<F>>(
    feed: &mut Feed<S>,
    from: &mut F,
) -> Result<Option<u16>, Halt>
    requires { feed.old.line ≤ feed.old.steps.used }
    ensures counts { CountsSteps feed.old feed.new }
    ensures fed { FeedsThrough (stream_of S.left S.given feed.old from.old) (stream_of S.left S.given feed.new from.new) (λ a b. IsFed a result b) }
    ensures took { ForEach (stream_of S.left S.given feed.old from.old) (stream_of S.left S.given feed.new from.new) (λ a b. TookForm item.Target (λ n. n) a result b) }
{
    match next_line(feed, from)? {
        Item::Target(count) => Ok(count),
        _ => Err(Halt::Unspelled),
    }
}

/// Reads the next line of `feed`, which has to be a group of the target. Returns `Unspelled` for any other line.
pub(crate) fn next_group<F, S: ItemSource<F>>(
    feed: &mut Feed<S>,
    from: &mut F,
) -> Result<Group, Halt>
    requires { feed.old.line ≤ feed.old.steps.used }
    ensures counts { CountsSteps feed.old feed.new }
    ensures fed { FeedsThrough (stream_of S.left S.given feed.old from.old) (stream_of S.left S.given feed.new from.new) (λ a b. IsFed a result b) }
    ensures took { ForEach (stream_of S.left S.given feed.old from.old) (stream_of S.left S.given feed.new from.new) (λ a b. TookForm item.Grouped (λ g. g) a result b) }
{
    match next_line(feed, from)? {
        Item::Grouped(group) => Ok(group),
        _ => Err(Halt::Unspelled),
    }
}

/// Reads the next line of `feed`, which has to be the end. Returns `Unspelled` for any other line.
pub(crate) fn next_end<F, S: ItemSource<F>>(feed: &mut Feed<S>, from: &mut F) -> Result<(), Halt>
    requires { feed.old.line ≤ feed.old.steps.used }
    ensures counts { CountsSteps feed.old feed.new }
    ensures fed { FeedsThrough (stream_of S.left S.given feed.old from.old) (stream_of S.left S.given feed.new from.new) (λ a b. IsFed a result b) }
    ensures took { ForEach (stream_of S.left S.given feed.old from.old) (stream_of S.left S.given feed.new from.new) (λ a b. TookForm (λ _. item.End) (λ u. u) a result b) }
{
    match next_line(feed, from)? {
        Item::End => Ok(()),
        _ => Err(Halt::Unspelled),
    }
}

/// Returns the stop of a line's judging as a stop of the reading at `line`.
fn stop_at(stop: LineStop, line: u64) -> Halt
    ensures { IsStopAt line stop result }
{
    match stop {
        LineStop::Fault(fault) => Halt::Fault(fault, line),
        LineStop::Unspelled => Halt::Unspelled,
        LineStop::StepLimit => Halt::Budget,
        LineStop::Memory => Halt::Refused,
    }
}

/// Returns what the judging of a line gave, with its stop as a stop of the reading at `line`.
pub(crate) fn judged_at<T>(judged: Result<T, LineStop>, line: u64) -> Result<T, Halt>
    ensures { IsJudgedAt line judged result }
{
    match judged {
        Ok(found) => Ok(found),
        Err(stop) => Err(stop_at(stop, line)),
    }
}
