//! A file of the machine, read as it comes.

ghost use Rattle.std.specs.{Prelude.{◌≡◌, IfSome, false}, Option.is_some};
ghost use Rattle.cli_file_stores.specs.ByteSums.{sum_of as sum_of_bytes};
ghost use Rattle.field_lines.specs.Source.{nothing_given};
ghost use Rattle.cli_file_stores.specs.FileStore.{read_end};

use crate::byte_sums::ByteSum;
use crate::file_store::ReadEnd;
use crate::given_bytes::GivenBytes;
use crate::given_sum::GivenSum;
use field_lines::{Source, SourceFault};
use std::io::{ErrorKind, Read};

/// How often a read is tried before it counts as failed, if it was interrupted each time.
const MAX_TRIES: u32 = 1_000;

/// A file of the machine that is read from its beginning on. A read that was interrupted is tried again, up to 1,000
/// times in all. If all tries were interrupted, the read has failed. Any other error makes it fail at once.
#[derive(Drop)]
pub struct FileReader<F> {
    file: F,
    ended: bool,
    reason: Option<ErrorKind>,
    log: GivenSum,
}

impl<F: Read> FileReader<F> {
    /// Creates a reader of what is left in `file`. It has given nothing, and hasn't failed. It sums what it gives if
    /// `is_summed` is true.
    pub(crate) fn new(file: F, is_summed: bool) -> Self
        ensures given { ⟦<FileReader<F> as Source>⟧.given result ≡ nothing_given }
        ensures failed { ⟦<FileReader<F> as Source>⟧.is_failed result ≡ false }
    {
        FileReader {
            file,
            ended: false,
            reason: None,
            log: GivenSum::new(is_summed),
        }
    }

    /// Returns where the reader stands. It is at the end of its file if its last pull that didn't fail gave no byte.
    pub(crate) fn end(&self) -> ReadEnd
        ensures { result ≡ read_end (⟦<FileReader<F> as Source>⟧.given self.now).ended }
    {
        if self.ended {
            ReadEnd::Whole
        } else {
            ReadEnd::Part
        }
    }

    /// Returns the kind of error that the last pull met, or `None` if it didn't fail.
    pub(crate) fn reason(&self) -> Option<ErrorKind>
        ensures { is_some result ≡ ⟦<FileReader<F> as Source>⟧.is_failed self.now }
    {
        self.reason
    }
}

impl<F: Read + Drop> FileReader<F> {
    /// Returns the bytes that were given, as the log has them, and their sum if it was asked for.
    pub(crate) fn into_given(self) -> (GivenBytes, Option<ByteSum>)
        ensures given { result.0.bytes ≡ (⟦<FileReader<F> as Source>⟧.given self).bytes }
        ensures sum { IfSome result.1 (λ sum. sum ≡ sum_of_bytes (⟦<FileReader<F> as Source>⟧.given self).bytes) }
    {
        self.log.finish()
    }
}

impl<F: Read> Source for FileReader<F> {
    ghost content = { λ r. F.remaining r.file };

    ghost given = { λ r. record { bytes = r.log; ended = r.ended } };

    ghost is_failed = { λ r. is_some r.reason };

    fn pull(&mut self, buffer: &mut [u8]) -> Result<usize, SourceFault> {
        let mut reason = ErrorKind::Interrupted;
        for _ in 0..MAX_TRIES {
            match self.file.read(buffer) {
                Ok(count) => {
                    self.log.note(&buffer[..count]);
                    self.reason = None;
                    self.ended = count == 0;
                    return Ok(count);
                }
                Err(error) => {
                    reason = error.kind();
                    if reason != ErrorKind::Interrupted {
                        break;
                    }
                }
            }
        }
        self.reason = Some(reason);
        Err(SourceFault)
    }

    fn ended(&self) -> bool {
        self.ended
    }

    fn failed(&self) -> bool {
        self.reason.is_some()
    }
}
