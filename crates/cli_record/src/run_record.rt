//! The record of a run, made from what its file store has done since the run began.

ghost use Rattle.std.specs.Prelude.{◌≡◌, ◌+◌, ◌-◌, ◌^◌, ◌<◌, IfSome, length, map, min};
ghost use Rattle.cli_file_stores.specs.{History.History, Sums.sum_value};
ghost use Rattle.cli_record.specs.RunRecord.{IsRecord, sums_between};

use crate::report::record_of_run;
use cli_file_stores::{EventSum, FileStore};
use cli_words::CommandWords;
use std::alloc::{AllocError, Global};

/// Returns `sums` if they are those of all events of a file store after its first `first` ones. The file store has had
/// `last` events. Returns `None` if they aren't, or if `last` is 2^64 - 1, where the count stays.
fn if_complete(sums: &[EventSum], first: u64, last: u64) -> Option<&[EventSum]>
    ensures all { IfSome result (λ s. first + length sums.now ≡ last) }
    ensures low { IfSome result (λ s. last < 2 ^ 64 - 1) }
    ensures same { IfSome result (λ s. s.now ≡ sums.now) }
{
    match first.checked_add(sums.len() as u64) {
        Some(all) if all == last && last < u64::MAX => Some(sums),
        _ => None,
    }
}

/// Returns the sums of the events that the file store has had after its first `first` ones. Returns `None` if it
/// doesn't have the sum of each.
fn sums_since<H: FileStore>(file_store: &H, first: u64) -> Option<&[EventSum]>
    ensures { IfSome result (λ sums. (before : History) → first ≡ min (length before.events) (2 ^ 64 - 1)
        → map sum_value sums.now ≡ sums_between before (H.history file_store.now)) }
{
    match file_store.sums() {
        Some(sums) => if_complete(sums, first, file_store.events()),
        None => None,
    }
}

/// Returns the record of a run that ends with this `status` and this `text`. The file store had `first` events before
/// the first one of the run, and has kept the sums of its events since then. Returns `None` if a growth was refused, or
/// if the file store doesn't have a sum of each event. It is also `None` if the count of events is at its last value,
/// 2^64 - 1.
pub fn record_since<H: FileStore>(
    alloc: Global,
    words: &[&str],
    command: &CommandWords<'_>,
    file_store: &H,
    first: u64,
    status: u8,
    text: &[u8],
) -> Option<Vec<u8>>
    ensures { IfSome result (λ v. (before : History) → first ≡ min (length before.events) (2 ^ 64 - 1)
        → IsRecord (map (λ w. w.now) words.now) command.now (sums_between before (H.history file_store.now)) status text.now v.items) }
{
    match sums_since(file_store, first) {
        Some(sums) => match record_of_run(alloc, words, command, sums, status, text) {
            Ok(bytes) => Some(bytes),
            Err(AllocError) => None,
        },
        None => None,
    }
}
