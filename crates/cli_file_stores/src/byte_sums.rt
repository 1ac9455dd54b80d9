//! The sums of bytes: their number, and their SHA-256 digest.

ghost use Rattle.std.specs.Prelude.{◌≡◌, ℕ, List, [], ◌++◌};
ghost use Rattle.hex.specs.Hex.{encode_lower};
ghost use Rattle.cli_file_stores.specs.ByteSums.{digest_of, sum_of as sum_of_bytes};
ghost use Rattle.cli_file_stores.specs.Running.{WasGiven};

use sha2::{Digest, Sha256};
use std::marker::Model;

/// How many bytes there are, and the digits of their SHA-256 digest.
#[derive(Debug, Drop)]
pub struct ByteSum {
    bytes: u64,
    digest: [u8; 64],
}

impl Model for ByteSum {
    ghost use Rattle.cli_file_stores.specs.ByteSums.{SumValue};

    ghost Value = { SumValue };

    ghost view = { λ s. record { bytes = s.bytes; digest = s.digest } };
}

impl ByteSum {
    /// Returns how many bytes there are.
    pub fn bytes(&self) -> u64
        ensures { result ≡ self.now.bytes }
    {
        self.bytes
    }

    /// Returns an equal sum.
    pub fn copy(&self) -> Self
        ensures { result ≡ self.now }
    {
        ByteSum {
            bytes: self.bytes,
            digest: self.digest,
        }
    }

    /// Returns the 64 hexadecimal digits of the digest, with letters in lower case.
    pub fn digest(&self) -> &[u8]
        ensures { result.now ≡ self.now.digest }
    {
        self.digest.as_slice()
    }
}

/// Returns the 64 hexadecimal digits of `bytes`, with letters in lower case.
fn hex_digits(bytes: &[u8; 32]) -> [u8; 64]
    ensures { result ≡ encode_lower bytes.now }
{
    let mut digits = [0; 64];
    hex::encode_to_slice(bytes.as_slice(), &mut digits).unwrap();
    digits
}

/// Returns the 64 hexadecimal digits of the SHA-256 digest of `bytes`, with letters in lower case.
#[tactic(auto, unfolding(crate::specs::ByteSums::digest_of))]
pub fn hex_digest(bytes: &[u8]) -> [u8; 64]
    ensures { result ≡ digest_of bytes.now }
{
    hex_digits(&Sha256::digest(bytes))
}

/// Returns the sum of `bytes`.
pub fn sum_of(bytes: &[u8]) -> ByteSum
    ensures { result ≡ sum_of_bytes bytes.now }
{
    ByteSum {
        bytes: bytes.len() as u64,
        digest: hex_digest(bytes),
    }
}

/// The sum of bytes that come in pieces. The count stays at its last value if there are more bytes than a `u64` counts.
#[derive(Drop)]
pub struct RunningSum {
    bytes: u64,
    hasher: Sha256,
}

impl RunningSum {
    /// Creates the sum of no bytes.
    pub fn new() -> Self
        ensures { WasGiven result [] }
    {
        RunningSum {
            bytes: 0,
            hasher: Sha256::new(),
        }
    }

    /// Takes in the next `piece` of the bytes.
    pub fn update(&mut self, piece: &[u8])
        ensures { (bytes : List ℕ) → WasGiven self.old bytes → WasGiven self.new (bytes ++ piece.now) }
    {
        self.bytes = self.bytes.saturating_add(piece.len() as u64);
        self.hasher.update(piece);
    }

    /// Returns the sum of all bytes that were given.
    #[tactic(auto, unfolding(crate::specs::ByteSums::digest_of))]
    pub fn finish(self) -> ByteSum
        ensures { (bytes : List ℕ) → WasGiven self bytes → result ≡ sum_of_bytes bytes }
    {
        ByteSum {
            bytes: self.bytes,
            digest: hex_digits(&self.hasher.finalize()),
        }
    }
}
