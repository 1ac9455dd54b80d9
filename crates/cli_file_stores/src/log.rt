//! What a file store did, for proofs alone.

ghost use Rattle.std.specs.{Prelude.{◌≡◌, ◌++◌, ◌∷◌, List, []}, Borrow.ftrue};
ghost use Rattle.cli_file_stores.specs.{History.{FileStoreEvent, with_load, with_read, with_store}, Outcomes.event_of};

use crate::file_store::{FileStoreFault, ReadEnd};
use crate::given_bytes::GivenBytes;
use crate::outcome::Outcome;
use std::marker::Model;

/// The events of a file store so far, which only proofs read. The log takes no memory, and its calls do nothing. A file
/// store that keeps one notes each event in it, and tells the events in its history.
#[derive(Drop)]
pub struct EventLog {
    pub ghost events: { List FileStoreEvent },
}

impl Model for EventLog {
    ghost also_owns = { λ _. ftrue };
}

impl EventLog {
    /// Creates a log without events.
    pub fn new() -> Self
        ensures { result.events ≡ [] }
    {
        EventLog {}
    }

    /// Appends the event of a call: the bytes of the file's name (`_name`), the bytes that were given or handed over
    /// (`_bytes`), and how the call ended (`_outcome`).
    fn note(&mut self, _name: &[u8], _bytes: &GivenBytes, _outcome: &Outcome)
        ensures { self.new.events ≡ self.old.events ++ event_of _name.now _bytes.now.bytes _outcome.now ∷ [] }
    {}

    /// Appends a load: the bytes of the file's `name`, and what the load answered.
    pub fn note_load(&mut self, name: &[u8], answer: &Result<Vec<u8>, FileStoreFault>)
        ensures { self.new.events ≡ with_load (λ v. v.items) self.old.events name.now answer.now }
    {
        match answer {
            Ok(bytes) => self.note(name, &GivenBytes::of(bytes.as_slice()), &Outcome::Loaded),
            Err(fault) => self.note(name, &GivenBytes::new(), &Outcome::NotLoaded(*fault)),
        }
    }

    /// Appends a reader that was given back: the bytes of the file's `name`, what the reader gave (`given`), and what
    /// the call answered.
    pub fn note_read(
        &mut self,
        name: &[u8],
        given: &GivenBytes,
        answer: &Result<ReadEnd, FileStoreFault>,
    )
        ensures { self.new.events ≡ with_read self.old.events name.now given.now.bytes answer.now }
    {
        self.note(name, given, &Outcome::Read(*answer));
    }

    /// Appends a file that was handed over: the bytes of its `name`, its `bytes`, and whether `answer` says that it was
    /// taken.
    pub fn note_store(&mut self, name: &[u8], bytes: &[u8], answer: &Result<(), FileStoreFault>)
        ensures { self.new.events ≡ with_store self.old.events name.now bytes.now answer.now }
    {
        let bytes = GivenBytes::of(bytes);
        match answer {
            Ok(()) => self.note(name, &bytes, &Outcome::Stored),
            Err(_) => self.note(name, &bytes, &Outcome::NotStored),
        }
    }
}
