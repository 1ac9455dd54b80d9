//! What a reader gave, for proofs alone.

ghost use Rattle.std.specs.{Prelude.{◌≡◌, ℕ, List, [], ◌++◌}, Borrow.ftrue};

use std::marker::Model;

/// The bytes that a reader gave so far, which only proofs read. The log takes no memory, and its calls do nothing. A
/// reader notes each pull in it.
#[derive(Drop)]
pub struct GivenBytes {
    pub ghost bytes: { List ℕ },
}

impl Model for GivenBytes {
    ghost also_owns = { λ _. ftrue };
}

impl GivenBytes {
    /// Creates a log without bytes.
    pub fn new() -> Self
        ensures { result.bytes ≡ [] }
    {
        GivenBytes {}
    }

    /// Creates a log of these `bytes`.
    pub(crate) fn of(bytes: &[u8]) -> Self
        ensures { result.bytes ≡ bytes.now }
    {
        let mut log = GivenBytes::new();
        log.note(bytes);
        log
    }

    /// Appends the bytes of `_bytes`.
    pub fn note(&mut self, _bytes: &[u8])
        ensures { self.new.bytes ≡ self.old.bytes ++ _bytes.now }
    {}
}
