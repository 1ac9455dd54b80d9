//! A source that keeps the first bytes that it gives.

ghost use Rattle.std.specs.Prelude.{◌≡◌};

use field_lines::{Source, SourceFault};
use std::alloc::Global;

/// How many bytes are kept at most, for whoever explains a fault of the file.
const MAX_HEAD: usize = 65_536;

/// A source whose first bytes are kept. No clause speaks of them.
#[derive(Drop)]
pub(crate) struct HeadReader<S> {
    source: S,
    head: Vec<u8>,
}

/// Appends to `head` the first of `bytes`, as many as there is room for. Appends none if memory was refused.
fn keep(head: &mut Vec<u8>, bytes: &[u8]) {
    let room = MAX_HEAD.saturating_sub(head.len());
    let count = room.min(bytes.len());
    if head.extend_from_slice(&bytes[..count]).is_err() {
        return;
    }
}

impl<S: Source + Drop> HeadReader<S> {
    /// Creates a reader of `source` that has kept nothing yet.
    pub(crate) fn new(alloc: Global, source: S) -> Self
        ensures given { ⟦<HeadReader<S> as Source>⟧.given result ≡ S.given source }
        ensures failed { ⟦<HeadReader<S> as Source>⟧.is_failed result ≡ S.is_failed source }
    {
        HeadReader {
            source,
            head: Vec::new(alloc),
        }
    }

    /// Returns the source itself, and the bytes that were kept.
    pub(crate) fn into_parts(self) -> (S, Vec<u8>)
        ensures given { S.given result.0 ≡ ⟦<HeadReader<S> as Source>⟧.given self }
        ensures failed { S.is_failed result.0 ≡ ⟦<HeadReader<S> as Source>⟧.is_failed self }
    {
        let HeadReader { source, head } = self;
        (source, head)
    }
}

impl<S: Source> Source for HeadReader<S> {
    ghost content = { λ r. S.content r.source };

    ghost given = { λ r. S.given r.source };

    ghost is_failed = { λ r. S.is_failed r.source };

    fn pull(&mut self, buffer: &mut [u8]) -> Result<usize, SourceFault> {
        match self.source.pull(buffer) {
            Ok(count) => {
                keep(&mut self.head, &buffer[..count]);
                Ok(count)
            }
            Err(fault) => Err(fault),
        }
    }

    fn ended(&self) -> bool {
        self.source.ended()
    }

    fn failed(&self) -> bool {
        self.source.failed()
    }
}
