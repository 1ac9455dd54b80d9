//! The lines that a check reads, counted against its budget of steps.

ghost use Rattle.std.specs.Prelude.{◌≡◌, ◌≤◌, IfOk};
ghost use Rattle.certificate_lines.specs.ItemsLeft.{Through as ItemsThrough};
ghost use Rattle.certificate_checker.specs.Feeding.{stream_of, FeedsThrough, ForEach, CountsSteps, TakesStep, IsFed, TookLine, StopsAtText, Passes, IsRestRead};
ghost use Rattle.certificate_checker.specs.declared.feed.Halt.TheVariants.{Refused};

use certificate_lines::{Item, ItemSource, Items, TextFault, TextKind};
use county_problem::Steps;
use state_judge::CheckFault;
use std::alloc::{AllocError, AllocFailed};

/// The lines of a certificate or of a tree, the number of lines read, and the steps that may be taken. Each line counts
/// one step, and so does each set that is split.
#[derive(Drop)]
pub(crate) struct Feed<S> {
    pub(crate) source: S,
    pub(crate) line: u64,
    pub(crate) steps: Steps,
    /// The steps that may be taken to keep what is known. They count for nothing.
    pub(crate) spare: Steps,
}

/// Why the judging of a certificate or of a tree stopped.
#[derive(Clone, Copy, Debug, PartialEq, Eq)]
pub(crate) enum Halt {
    /// A line is at fault.
    Fault(CheckFault, u64),
    /// The text is at fault.
    Text(TextFault),
    /// No text spells the line, or it may not stand there.
    Unspelled,
    /// The limit of steps was reached.
    Budget,
    /// Memory was refused, or the source could not be read.
    Refused,
}

impl From<AllocError> for Halt {
    ghost from_gives = { λ _ e. e ≡ Refused };

    fn from(_e: AllocError) -> Halt {
        Halt::Refused
    }
}

impl<T: Drop> From<AllocFailed<T>> for Halt {
    ghost from_gives = { λ _ e. e ≡ Refused };

    fn from(_e: AllocFailed<T>) -> Halt {
        Halt::Refused
    }
}

/// Returns the stop for a `fault` of the source.
fn of_source(fault: TextFault) -> Halt
    ensures { StopsAtText fault result }
{
    match fault.kind {
        TextKind::Memory | TextKind::ReadFault => Halt::Refused,
        _ => Halt::Text(fault),
    }
}

/// Reads the next line of `feed`, which counts one step. Returns `Budget` if no step is left, `Unspelled` if no line is
/// left, and `Text` for a fault of the text. Returns `Refused` if memory was refused, or if the source could not be
/// read.
pub(crate) fn next_line<F, S: ItemSource<F>>(feed: &mut Feed<S>, from: &mut F) -> Result<Item, Halt>
    requires { feed.old.line ≤ feed.old.steps.used }
    ensures step { TakesStep feed.old result feed.new }
    ensures counts { CountsSteps feed.old feed.new }
    ensures fed { FeedsThrough (stream_of S.left S.given feed.old from.old) (stream_of S.left S.given feed.new from.new) (λ a b. IsFed a result b) }
    ensures took { ForEach (stream_of S.left S.given feed.old from.old) (stream_of S.left S.given feed.new from.new) (λ a b. TookLine a result b) }
{
    let _limit = feed.steps.limit();
    if !feed.steps.tick() {
        return Err(Halt::Budget);
    }
    match feed.source.next_item(from) {
        Ok(Some(item)) => {
            feed.line += 1;
            Ok(item)
        }
        Ok(None) => Err(Halt::Unspelled),
        Err(fault) => Err(of_source(fault)),
    }
}

/// Passes over the next item of `source`, and returns whether there was one.
fn pass_item<F, S: ItemSource<F>>(source: &mut S, from: &mut F) -> Result<bool, TextFault>
    ensures { ItemsThrough (S.left source.old) (S.given from.old) (S.left source.new) (S.given from.new) (λ a b. Passes a result b) }
{
    match source.next_item(from) {
        Ok(Some(_)) => Ok(true),
        Ok(None) => Ok(false),
        Err(fault) => Err(fault),
    }
}

/// Reads the lines that are left in `feed`, up to as many lines in all as there may be steps. Returns `Budget` once
/// that number is reached, and otherwise the stop of the first fault met.
pub(crate) fn read_rest<F, S: ItemSource<F>>(feed: &mut Feed<S>, from: &mut F) -> Result<(), Halt>
    ensures { FeedsThrough (stream_of S.left S.given feed.old from.old) (stream_of S.left S.given feed.new from.new) (λ a _. IsRestRead a result) }
{
    let limit = feed.steps.limit();
    loop {
        if feed.line >= limit {
            return Err(Halt::Budget);
        }
        match pass_item(&mut feed.source, from) {
            Ok(true) => feed.line += 1,
            Ok(false) => return Ok(()),
            Err(fault) => return Err(of_source(fault)),
        }
    }
}

/// Returns the fault that ends the `items` to come, or `None` if there is none. Returns `AllocError` if memory was
/// refused.
pub(crate) fn first_fault(items: &mut Items) -> Result<Option<TextFault>, AllocError>
    ensures { IfOk result (λ fault. fault ≡ items.old.fault) }
{
    loop {
        match pass_item(items, &mut ()) {
            Ok(true) => {}
            Ok(false) => return Ok(None),
            Err(fault) => {
                return match fault.kind {
                    TextKind::Memory | TextKind::ReadFault => Err(AllocError),
                    _ => Ok(Some(fault)),
                };
            }
        }
    }
}
