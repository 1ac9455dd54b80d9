//! A source read whole, up to a limit.

ghost use Rattle.std.specs.Prelude.{◌≡◌, ◌<◌, ◌≤◌, ◌↔◌, true, false, length, IfOk, OnOk, IfSome, IsErrOf, vec_len};
ghost use Rattle.std.specs.Io.KnownBytes.{IsAtEnd};

use field_lines::Source;
use std::alloc::Global;
use thiserror::Error;

/// Why a source was not read whole.
#[derive(Clone, Copy, Debug, PartialEq, Eq, Error)]
pub enum WholeFault {
    /// The source has more bytes than the limit.
    #[error("the source has too many bytes")]
    TooLarge,
    /// A pull returned an error.
    #[error("the source could not be read")]
    Failed,
    /// Memory was refused.
    #[error("out of memory")]
    Memory,
}

/// Returns all bytes that are left in `source`, if they are at most `limit`.
///
/// # Errors
///
/// Returns `Failed` exactly if a pull failed, as `source` then tells. Returns `TooLarge` if more than `limit` bytes are
/// left, and `Memory` if memory was refused. What was pulled before is lost.
pub fn read_whole<S: Source>(
    alloc: Global,
    source: &mut S,
    limit: usize,
) -> Result<Vec<u8>, WholeFault>
    requires { S.is_failed source.old ≡ false }
    ensures whole { IfOk result (λ v. IfSome (S.content source.old) (λ xs. v.items ≡ xs)) }
    ensures end { OnOk result (IsAtEnd (S.content source.new)) }
    ensures small { IfOk result (λ v. vec_len v ≤ limit) }
    ensures large { IsErrOf result WholeFault.TooLarge → IfSome (S.content source.old) (λ xs. limit < length xs) }
    ensures failed { IsErrOf result WholeFault.Failed ↔ (S.is_failed source.new ≡ true) }
{
    let mut bytes = Vec::new(alloc);
    let mut buffer = [0u8; 4096];
    loop {
        let Ok(count) = source.pull(&mut buffer) else {
            return Err(WholeFault::Failed);
        };
        if count == 0 {
            return Ok(bytes);
        }
        if count > limit - bytes.len() {
            return Err(WholeFault::TooLarge);
        }
        if bytes.extend_from_slice(&buffer[..count]).is_err() {
            return Err(WholeFault::Memory);
        }
    }
}
