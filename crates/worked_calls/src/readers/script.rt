//! Readers that give a text a few bytes at a time, one of whose reads may fail.

ghost use Rattle.std.specs.Prelude.{◌≡◌, false};

use field_lines::{Reading, Source};
use std::io;
use std::io::{ErrorKind, Read};

/// How a reader gives its text.
#[derive(Clone, Copy)]
pub(crate) struct Manner {
    /// The most bytes that a read gives.
    pub(crate) at_a_time: usize,
    /// Which read fails, from 1. At 0 none does.
    pub(crate) failing: u32,
}

impl Manner {
    /// Creates the manner of at most `at_a_time` bytes a read, in which no read fails.
    pub(crate) fn sound(at_a_time: usize) -> Self {
        Manner {
            at_a_time,
            failing: 0,
        }
    }
}

/// A reader that gives a text a few bytes at a time. A read that fails loses no byte, and the reads after it give the
/// rest. So a call that reads on after the failure would give another answer.
#[derive(Drop)]
pub(crate) struct Script<'a> {
    left: &'a [u8],
    manner: Manner,
    reads: u32,
}

impl Read for Script<'_> {
    fn read(&mut self, buffer: &mut [u8]) -> io::Result<usize> {
        self.reads = self.reads.saturating_add(1);
        if self.reads == self.manner.failing {
            return Err(io::Error::from(ErrorKind::TimedOut));
        }
        let count = self.manner.at_a_time.min(self.left.len()).min(buffer.len());
        buffer[..count].copy_from_slice(&self.left[..count]);
        self.left = &self.left[count..];
        Ok(count)
    }
}

/// Creates a source of a `text` that comes in this `manner`. Each pull is one read.
pub(crate) fn source_of<'a>(text: &'a [u8], manner: Manner) -> Reading<Script<'a>>
    ensures { ⟦<Reading<Script<'a>> as Source>⟧.is_failed result ≡ false }
{
    Reading::new(Script {
        left: text,
        manner,
        reads: 0,
    })
}
