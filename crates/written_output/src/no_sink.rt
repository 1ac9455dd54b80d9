//! A sink of nothing.

ghost use Rattle.std.specs.Prelude.{false, None};

use cli_file_stores::{Sink, SinkFault};

/// A sink that drops what is written to it. It tells no bytes, and no write fails.
#[derive(Clone, Copy, Debug)]
pub struct NoSink;

impl Sink for NoSink {
    ghost contents = { λ _. None };

    ghost is_failed = { λ _. false };

    fn put(&mut self, _bytes: &[u8]) -> Result<(), SinkFault> {
        Ok(())
    }

    fn failed(&self) -> bool {
        false
    }
}
