//! Certificates and trees, written in their spelling where they have one.

ghost use Rattle.std.specs.Prelude.{◌≡◌, ◌≤◌, ℕ, List, IfOk, IfErr};
ghost use Rattle.certificate_text.specs.Spelling.{IsSpelling, IsTreeSpelling};
ghost use Rattle.certificate_lines.specs.Lines.{most};
ghost use Rattle.certificate_data.specs.TreeValue.{tree_of, certificate_of};
ghost use Rattle.certificate_lines.specs.declared.fault.WriteFault.TheVariants as write_fault;

use crate::fitting::{has_text, has_tree_text};
use crate::lines::{lines_of, tree_lines};
use certificate_data::{Certificate, Format, Tree};
use certificate_lines::WriteFault;
use std::alloc::Global;

/// Returns the text that spells a `tree`, for an order of `counties` counties.
///
/// # Errors
///
/// Returns `NoSpelling` exactly if no text spells the tree, and `Memory` if memory was refused.
pub fn write_tree(
    alloc: Global,
    tree: &Tree,
    format: Format,
    counties: u16,
) -> Result<Vec<u8>, WriteFault>
    requires { counties ≤ most }
    ensures spelled { IfOk result (λ text. IsTreeSpelling format counties text.items (tree_of tree.now)) }
    ensures none { IfErr result (λ fault. fault ≡ write_fault.NoSpelling → (text : List ℕ)
        → IsTreeSpelling format counties text (tree_of tree.now) → ⊥) }
{
    if !has_tree_text(tree, format, counties) {
        return Err(WriteFault::NoSpelling);
    }
    let text = tree_lines(alloc, tree)?;
    Ok(text)
}

/// Returns the text that spells a `certificate`.
///
/// # Errors
///
/// Returns `NoSpelling` exactly if no text spells the certificate, and `Memory` if memory was refused.
pub fn write(alloc: Global, certificate: &Certificate) -> Result<Vec<u8>, WriteFault>
    ensures spelled { IfOk result (λ text. IsSpelling text.items (certificate_of certificate.now)) }
    ensures none { IfErr result (λ fault. fault ≡ write_fault.NoSpelling → (text : List ℕ)
        → IsSpelling text (certificate_of certificate.now) → ⊥) }
{
    if !has_text(certificate) {
        return Err(WriteFault::NoSpelling);
    }
    let text = lines_of(alloc, certificate)?;
    Ok(text)
}
