//! A file in memory, read as it comes.

ghost use Rattle.std.specs.Prelude.{◌≡◌, ◌<◌, ◌≤◌, [], Some, IfSome, false, length, take, drop};
ghost use Rattle.cli_file_stores.specs.ByteSums.{sum_of as sum_of_bytes};

use crate::byte_sums::{ByteSum, sum_of};
use crate::given_bytes::GivenBytes;
use field_lines::{Source, SourceFault};
use std::io::Read;
use std::marker::Model;

/// A copy of a file in memory that is read from its beginning on. No pull fails.
#[derive(Drop)]
pub struct MemoryReader {
    bytes: Vec<u8>,
    at: usize,
    ended: bool,
    log: GivenBytes,
}

impl Model for MemoryReader {
    ghost use Rattle.std.specs.Prelude.{◌≡◌, ◌≤◌, vec_len, take};
    ghost use Rattle.cli_file_stores.specs.Memory.{ReaderValue};

    /// The bytes of the file, those that were given, how many these are, and whether the last pull gave none.
    ghost Value = { ReaderValue };

    ghost view = { λ r. record { bytes = r.bytes.items; given = r.log.bytes; at = r.at; ended = r.ended } };

    ghost invariant = { λ r. (r.at ≤ vec_len r.bytes) × (r.log.bytes ≡ take r.at r.bytes.items) };
}

/// Copies the front of `bytes` to the front of `buffer`, as many bytes as there are and fit. Returns how many.
fn copy_front(bytes: &[u8], buffer: &mut [u8]) -> usize
    ensures few { result ≤ length bytes.now }
    ensures bound { result ≤ length buffer.new }
    ensures copied { take result buffer.new ≡ take result bytes.now }
    ensures all { result ≡ 0 → 0 < length buffer.new → bytes.now ≡ [] }
{
    let count = bytes.len().min(buffer.len());
    buffer[..count].copy_from_slice(&bytes[..count]);
    count
}

impl MemoryReader {
    /// Creates a reader of these `bytes` that has given none.
    pub(crate) fn new(bytes: Vec<u8>) -> Self
        ensures bytes { result.bytes ≡ bytes.items }
        ensures given { result.given ≡ [] }
        ensures open { result.ended ≡ false }
    {
        MemoryReader {
            bytes,
            at: 0,
            ended: false,
            log: GivenBytes::new(),
        }
    }

    /// Returns the bytes that were given.
    pub(crate) fn given(&self) -> &[u8]
        ensures { result.now ≡ self.now.given }
    {
        &self.bytes[..self.at]
    }

    /// Returns the sum of the bytes that were given, or `None` if it isn't `asked` for.
    pub(crate) fn sum_if(&self, asked: bool) -> Option<ByteSum>
        ensures { IfSome result (λ sum. sum ≡ sum_of_bytes self.now.given) }
    {
        if asked {
            Some(sum_of(self.given()))
        } else {
            None
        }
    }

    /// Returns whether the last pull gave no byte.
    pub(crate) fn has_ended(&self) -> bool
        ensures { result ≡ self.now.ended }
    {
        self.ended
    }

    /// Returns the bytes that were given, as the log has them.
    pub(crate) fn log(&self) -> &GivenBytes
        ensures { result.now.bytes ≡ self.now.given }
    {
        &self.log
    }
}

impl Source for MemoryReader {
    ghost content = { λ r. Some (drop r.at r.bytes) };

    ghost given = { λ r. record { bytes = r.given; ended = r.ended } };

    ghost is_failed = { λ _. false };

    fn pull(&mut self, buffer: &mut [u8]) -> Result<usize, SourceFault> {
        let (_, rest) = self.bytes.split_at(self.at);
        let count = copy_front(rest, buffer);
        self.log.note(&buffer[..count]);
        self.at += count;
        self.ended = count == 0;
        Ok(count)
    }

    fn ended(&self) -> bool {
        self.ended
    }

    fn failed(&self) -> bool {
        false
    }
}
