//! Sinks, to which bytes are written, and writers of std as sinks.

ghost use Rattle.std.specs.{Prelude.{◌≡◌, ℕ, Bool, true, false, List, Option, OnOk}, Io.KnownBytes.Appends};
ghost use Rattle.std.specs.Result.{is_err};

use std::io;
use std::io::Write;
use thiserror::Error;

/// Bytes could not be written.
#[derive(Clone, Copy, Debug, PartialEq, Eq, Error)]
#[error("the output could not be written")]
pub struct SinkFault;

/// What bytes are written to, such as standard output.
pub trait Sink {
    /// The bytes that the sink holds, where it tells them.
    ghost contents: { Self → Option (List ℕ) };

    /// Whether the last write returned an error.
    ghost is_failed: { Self → Bool };

    /// Writes all `bytes`, and keeps none back.
    ///
    /// # Errors
    ///
    /// Returns `SinkFault` if they could not be written. How many of them went out isn't told.
    fn put(&mut self, bytes: &[u8]) -> Result<(), SinkFault>
        ensures bytes { OnOk result (Appends (contents self.old) (contents self.new) bytes.now) }
        ensures failed { is_failed self.new ≡ is_err result };

    /// Returns whether the last write returned an error.
    fn failed(&self) -> bool
        ensures { result ≡ is_failed self.now };
}

/// A writer of std as a sink. Each `put` flushes it, so that bytes which it held back and can't pass on are a fault
/// too.
#[derive(Drop)]
pub struct Writing<W> {
    writer: W,
    failed: bool,
}

impl<W: Write> Writing<W> {
    /// Creates a sink that has not failed, and that holds what `writer` holds.
    pub fn new(writer: W) -> Self
        ensures contents { ⟦<Writing<W> as Sink>⟧.contents result ≡ W.contents writer }
        ensures failed { ⟦<Writing<W> as Sink>⟧.is_failed result ≡ false }
    {
        Writing {
            writer,
            failed: false,
        }
    }
}

/// Writes all `bytes` to `writer`, and flushes it.
fn write_through<W: Write>(writer: &mut W, bytes: &[u8]) -> io::Result<()>
    ensures { OnOk result (Appends (W.contents writer.old) (W.contents writer.new) bytes.now) }
{
    writer.write_all(bytes)?;
    writer.flush()
}

impl<W: Write> Sink for Writing<W> {
    ghost contents = { λ s. W.contents s.writer };

    ghost is_failed = { λ s. s.failed };

    fn put(&mut self, bytes: &[u8]) -> Result<(), SinkFault> {
        match write_through(&mut self.writer, bytes) {
            Ok(()) => {
                self.failed = false;
                Ok(())
            }
            Err(_) => {
                self.failed = true;
                Err(SinkFault)
            }
        }
    }

    fn failed(&self) -> bool {
        self.failed
    }
}
