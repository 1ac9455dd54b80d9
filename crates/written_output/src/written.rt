//! Texts that are written one after the other.

ghost use Rattle.std.specs.{Prelude.{◌≡◌, ◌++◌, ℕ, List, [], Some, false, OnOk, OnErr}, Option.option_map};
ghost use Rattle.written_output.specs.Writing.{HasWritten, IsFresh, kept_of};

use cli_file_stores::Sink;
use std::alloc::{AllocError, Global};

/// What a run has written so far.
#[derive(Drop)]
pub struct Written {
    /// The text that was written, if it is kept.
    pub kept: Option<Vec<u8>>,
    /// Whether a write failed. Nothing is written behind it.
    pub is_cut: bool,
}

impl Written {
    /// Creates the record of a run that has written nothing. What it writes is kept behind `kept`, if that is given.
    pub fn new(kept: Option<Vec<u8>>) -> Self
        ensures kept { result.kept ≡ kept }
        ensures whole { result.is_cut ≡ false }
    {
        Written {
            kept,
            is_cut: false,
        }
    }

    /// Keeps what is written from now on, if nothing was written yet.
    pub fn keep_all(&mut self, alloc: Global)
        requires { IsFresh self.old }
        ensures kept { kept_of self.new ≡ Some [] }
        ensures uncut { self.new.is_cut ≡ false }
    {
        self.kept = Some(Vec::new(alloc));
    }
}

/// Appends a `text` to what is kept, if anything is.
fn keep(kept: &mut Option<Vec<u8>>, text: &[u8]) -> Result<(), AllocError>
    ensures kept { OnOk result ((old : List ℕ) → option_map (λ v. v.items) kept.old ≡ Some old
        → option_map (λ v. v.items) kept.new ≡ Some (old ++ text.now)) }
    ensures same { OnErr result (option_map (λ v. v.items) kept.new ≡ option_map (λ v. v.items) kept.old) }
{
    if let Some(kept) = kept {
        kept.extend_from_slice(text)?;
    }
    Ok(())
}

/// Writes a `text` to `out`, unless an earlier write failed. The text is kept if `written` keeps what was written.
///
/// # Errors
///
/// Returns an error if memory for what is kept was refused. Nothing is then written.
pub fn write_next<W: Sink>(
    out: &mut W,
    written: &mut Written,
    text: &[u8],
) -> Result<(), AllocError>
    ensures written { OnOk result (HasWritten W.contents W.is_failed out.old written.old out.new written.new text.now) }
    ensures none { OnErr result (HasWritten W.contents W.is_failed out.old written.old out.new written.new []) }
{
    keep(&mut written.kept, text)?;
    if !written.is_cut {
        written.is_cut = out.put(text).is_err();
    }
    Ok(())
}
