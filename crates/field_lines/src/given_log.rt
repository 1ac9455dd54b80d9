//! What a source gave, for proofs alone.

ghost use Rattle.std.specs.{Prelude.{◌≡◌, ℕ, List, [], ◌++◌}, Borrow.ftrue};

use std::marker::Model;

/// The bytes that a source gave so far. Only proofs read them: a log takes no memory, and its calls do nothing. A
/// source that keeps a log notes each pull in it.
#[derive(Drop)]
pub struct GivenLog {
    pub ghost bytes: { List ℕ },
}

impl Model for GivenLog {
    ghost also_owns = { λ _. ftrue };
}

impl GivenLog {
    /// Creates a log without bytes.
    pub fn new() -> Self
        ensures { result.bytes ≡ [] }
    {
        GivenLog {}
    }

    /// Appends `_bytes` to the log.
    pub fn note(&mut self, _bytes: &[u8])
        ensures { self.new.bytes ≡ self.old.bytes ++ _bytes.now }
    {}
}
