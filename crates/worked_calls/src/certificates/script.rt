//! Readers that give a text a few bytes at a time, one of whose reads may fail.

ghost use Rattle.std.specs.Prelude.{◌≡◌, false};

use field_lines::{Reading, Source};
use std::io;
use std::io::{ErrorKind, Read};

/// A reader that gives a text a few bytes at a time. The read with the number `failing`, counted from 1, fails and
/// loses no byte. At 0 none fails.
#[derive(Drop)]
pub(crate) struct Script<'a> {
    left: &'a [u8],
    at_a_time: usize,
    failing: u32,
    reads: u32,
}

impl Read for Script<'_> {
    fn read(&mut self, buffer: &mut [u8]) -> io::Result<usize> {
        self.reads = self.reads.saturating_add(1);
        if self.reads == self.failing {
            return Err(io::Error::from(ErrorKind::TimedOut));
        }
        let count = self.at_a_time.min(self.left.len()).min(buffer.len());
        buffer[..count].copy_from_slice(&self.left[..count]);
        self.left = &self.left[count..];
        Ok(count)
    }
}

/// Creates a source of a `text`, which gives at most `at_a_time` bytes a pull. Each pull is one read, and the one with
/// the number `failing` fails.
pub(crate) fn source_of<'a>(text: &'a [u8], at_a_time: usize, failing: u32) -> Reading<Script<'a>>
    ensures { ⟦<Reading<Script<'a>> as Source>⟧.is_failed result ≡ false }
{
    Reading::new(Script {
        left: text,
        at_a_time,
        failing,
        reads: 0,
    })
}
