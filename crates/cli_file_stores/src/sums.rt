//! The sums of what a file store gave and took, kept if they are asked for.

ghost use Rattle.std.specs.Prelude.{◌≡◌, ℕ, ◌-◌, ◌^◌, ◌++◌, ◌∷◌, [], List, IfSome, length, map, min};
ghost use Rattle.std.specs.Option.{IsSomeAnd};
ghost use Rattle.cli_file_stores.specs.ByteSums.{sum_of as sum_of_bytes};
ghost use Rattle.cli_file_stores.specs.History.{FileStoreEvent, with_load, with_read, with_store, bytes_of_answer, is_taken};
ghost use Rattle.cli_file_stores.specs.History.FileStoreEvent.{Loaded, Read, Stored};
ghost use Rattle.cli_file_stores.specs.Sums.{AreOfLast, SumOfEvent, sum_of_event, sum_value};

use crate::byte_sums::{ByteSum, sum_of};
use crate::file_store::{FileStoreFault, ReadEnd};
use crate::given_bytes::GivenBytes;
use crate::log::EventLog;
use std::alloc::Global;
use std::marker::Model;

/// How a call of a file store went.
#[derive(Clone, Copy, Debug, PartialEq, Eq)]
pub enum EventKind {
    /// All bytes of a file were given.
    Whole,
    /// A reader was given back before the end of its file.
    Part,
    /// A file was stored.
    Taken,
    /// A file was not given, not read as far as was asked, or not stored.
    Failed,
}

/// What is kept of a call of a file store.
#[derive(Debug, Drop)]
pub struct EventSum {
    /// How the call went.
    pub kind: EventKind,
    /// The name of the file.
    pub name: String,
    /// The sum of the bytes that the file store gave or was given.
    pub sum: ByteSum,
}

/// The events of a file store, how many they are, and the sums of the last of them if sums are kept.
#[derive(Drop)]
pub struct EventSums {
    log: EventLog,
    count: u64,
    sums: Option<Vec<EventSum>>,
}

impl Model for EventSums {
    ghost use Rattle.std.specs.Prelude.{◌≡◌, ◌-◌, ◌^◌, List, IfSome, length, min};
    ghost use Rattle.cli_file_stores.specs.{History.FileStoreEvent, Sums.AreOfLast};

    /// The events so far.
    ghost Value = { List FileStoreEvent };

    ghost view = { λ s. s.log.events };

    ghost invariant = { λ s. (s.count ≡ min (length s.log.events) (2 ^ 64 - 1)) × IfSome s.sums (λ v. AreOfLast s.log.events v.items) };
}

/// Returns how a load with this `answer` went, and the sum of what it gave. A load that failed gave no bytes.
fn sum_of_load(answer: &Result<Vec<u8>, FileStoreFault>) -> (EventKind, ByteSum)
    ensures { (name : List ℕ)
        → ◌≡◌ {A = SumOfEvent} (record { kind = result.0; name = name; sum = result.1 }) (sum_of_event (Loaded name (bytes_of_answer (λ v. v.items) answer.now))) }
{
    match answer {
        Ok(bytes) => (EventKind::Whole, sum_of(bytes)),
        Err(_) => (EventKind::Failed, sum_of(&[])),
    }
}

/// Returns how a reading with this `answer` went.
fn kind_of_read(answer: &Result<ReadEnd, FileStoreFault>) -> EventKind
    ensures { (name bytes : List ℕ)
        → ◌≡◌ {A = SumOfEvent} (record { kind = result; name = name; sum = sum_of_bytes bytes }) (sum_of_event (Read name bytes answer.now)) }
{
    match answer {
        Ok(ReadEnd::Whole) => EventKind::Whole,
        Ok(ReadEnd::Part) => EventKind::Part,
        Err(_) => EventKind::Failed,
    }
}

/// Returns how a store with this `answer` went.
fn kind_of_store(answer: &Result<(), FileStoreFault>) -> EventKind
    ensures { (name bytes : List ℕ)
        → ◌≡◌ {A = SumOfEvent} (record { kind = result; name = name; sum = sum_of_bytes bytes }) (sum_of_event (Stored name bytes (is_taken answer.now))) }
{
    match answer {
        Ok(()) => EventKind::Taken,
        Err(_) => EventKind::Failed,
    }
}

/// Returns `sums` with one more at the end, made of `kind`, `name` and `sum`. Returns `None` if memory was refused.
fn with_sum(
    mut sums: Vec<EventSum>,
    kind: EventKind,
    name: &str,
    sum: ByteSum,
) -> Option<Vec<EventSum>>
    ensures { IfSome result (λ v. map sum_value v.items
        ≡ map sum_value sums.items ++ record { kind = kind; name = name.now; sum = sum } ∷ []) }
{
    let alloc = *sums.allocator();
    let Ok(name) = String::from_str(alloc, name) else {
        return None;
    };
    match sums.push(EventSum { kind, name, sum }) {
        Ok(()) => Some(sums),
        Err(_) => None,
    }
}

/// Returns `sums` with one more at the end, if sums are kept. Returns `None` if they aren't, or if memory was refused.
fn with_sum_if_kept(
    sums: Option<Vec<EventSum>>,
    kind: EventKind,
    name: &str,
    sum: ByteSum,
) -> Option<Vec<EventSum>>
    ensures { IfSome result (λ v. IsSomeAnd sums (λ before. map sum_value v.items
        ≡ map sum_value before.items ++ record { kind = kind; name = name.now; sum = sum } ∷ [])) }
{
    match sums {
        Some(sums) => with_sum(sums, kind, name, sum),
        None => None,
    }
}

impl EventSums {
    /// Creates a list without events that keeps no sums.
    pub(crate) fn new() -> Self
        ensures { result ≡ [] }
    {
        EventSums {
            log: EventLog::new(),
            count: 0,
            sums: None,
        }
    }

    /// Starts to keep the sums of the events from now on. Drops the sums that were kept before.
    pub(crate) fn keep(&mut self, alloc: Global)
        ensures { self.new ≡ self.old }
    {
        self.sums = Some(Vec::new(alloc));
    }

    /// Returns whether sums are kept.
    pub(crate) fn are_kept(&self) -> bool {
        self.sums.is_some()
    }

    /// Returns how many events there are, or 2^64 - 1 if there are more.
    pub(crate) fn count(&self) -> u64
        ensures { result ≡ min (length self.now) (2 ^ 64 - 1) }
    {
        self.count
    }

    /// Returns the sums of the last events, one for each event since sums are kept. Returns `None` if no sums are kept,
    /// or if memory was refused for one of them.
    pub(crate) fn sums(&self) -> Option<&[EventSum]>
        ensures { IfSome result (λ sums. AreOfLast self.now sums.now) }
    {
        match &self.sums {
            Some(sums) => Some(sums.as_slice()),
            None => None,
        }
    }

    /// Appends a load: the file's `name`, and what the load answered.
    pub(crate) fn note_load(&mut self, name: &str, answer: &Result<Vec<u8>, FileStoreFault>)
        ensures { self.new ≡ with_load (λ v. v.items) self.old name.now answer.now }
    {
        self.log.note_load(name.as_bytes(), answer);
        self.count = self.count.saturating_add(1);
        if self.sums.is_some() {
            let (kind, sum) = sum_of_load(answer);
            self.sums = with_sum_if_kept(self.sums.take(), kind, name, sum);
        }
    }

    /// Appends a reader that was given back: the file's `name`, what the reader gave (`given`) with its `sum`, and what
    /// the call answered. If sums are kept and `sum` is missing, they are kept no more.
    pub(crate) fn note_read(
        &mut self,
        name: &str,
        given: &GivenBytes,
        sum: Option<ByteSum>,
        answer: &Result<ReadEnd, FileStoreFault>,
    )
        requires { IfSome sum (λ s. s ≡ sum_of_bytes given.now.bytes) }
        ensures { self.new ≡ with_read self.old name.now given.now.bytes answer.now }
    {
        self.log.note_read(name.as_bytes(), given, answer);
        self.count = self.count.saturating_add(1);
        let sums = self.sums.take();
        if let Some(sum) = sum {
            self.sums = with_sum_if_kept(sums, kind_of_read(answer), name, sum);
        }
    }

    /// Appends a file that was handed over: its `name`, its `bytes`, and what the call answered.
    pub(crate) fn note_store(
        &mut self,
        name: &str,
        bytes: &[u8],
        answer: &Result<(), FileStoreFault>,
    )
        ensures { self.new ≡ with_store self.old name.now bytes.now answer.now }
    {
        self.log.note_store(name.as_bytes(), bytes, answer);
        self.count = self.count.saturating_add(1);
        if self.sums.is_some() {
            let sum = sum_of(bytes);
            self.sums = with_sum_if_kept(self.sums.take(), kind_of_store(answer), name, sum);
        }
    }
}
