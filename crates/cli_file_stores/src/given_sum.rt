//! What a reader gave, and its sum if it is asked for.

ghost use Rattle.std.specs.Prelude.{◌≡◌, ◌++◌, [], IfSome};
ghost use Rattle.cli_file_stores.specs.ByteSums.{sum_of as sum_of_bytes};

use crate::byte_sums::{ByteSum, RunningSum};
use crate::given_bytes::GivenBytes;
use std::marker::Model;

/// The bytes that a reader gave so far, which only proofs read, and their running sum if it is asked for.
#[derive(Drop)]
pub struct GivenSum {
    log: GivenBytes,
    sum: Option<RunningSum>,
}

impl Model for GivenSum {
    ghost use Rattle.std.specs.Prelude.{ℕ, List, IfSome};
    ghost use Rattle.cli_file_stores.specs.Running.{WasGiven};

    /// The bytes that were given.
    ghost Value = { List ℕ };

    ghost view = { λ s. s.log.bytes };

    ghost invariant = { λ s. IfSome s.sum (λ sum. WasGiven sum s.log.bytes) };
}

impl GivenSum {
    /// Creates a log without bytes. It keeps their sum if `is_summed` is true.
    pub(crate) fn new(is_summed: bool) -> Self
        ensures { result ≡ [] }
    {
        let sum = if is_summed {
            Some(RunningSum::new())
        } else {
            None
        };
        GivenSum {
            log: GivenBytes::new(),
            sum,
        }
    }

    /// Appends the bytes of `piece`.
    pub(crate) fn note(&mut self, piece: &[u8])
        ensures { self.new ≡ self.old ++ piece.now }
    {
        self.log.note(piece);
        if let Some(sum) = &mut self.sum {
            sum.update(piece);
        }
    }

    /// Returns the bytes that were given, as proofs read them, and their sum if it was asked for.
    pub(crate) fn finish(self) -> (GivenBytes, Option<ByteSum>)
        ensures given { result.0.bytes ≡ self }
        ensures sum { IfSome result.1 (λ sum. sum ≡ sum_of_bytes self) }
    {
        let GivenSum { log, sum } = self;
        match sum {
            Some(sum) => (log, Some(sum.finish())),
            None => (log, None),
        }
    }
}
