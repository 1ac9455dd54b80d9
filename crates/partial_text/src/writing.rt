//! Partial trees, written in their spelling where they have one.

ghost use Rattle.std.specs.Prelude.{◌≡◌, ◌≤◌, ◌↔◌, ℕ, List, IsTrue, IfOk, IfErr};
ghost use Rattle.certificate_lines.specs.Lines.{most};
ghost use Rattle.certificate_lines.specs.declared.fault.WriteFault.TheVariants as write_fault;
ghost use Rattle.partial_trees.specs.PartialValue.{partial_of};
ghost use Rattle.partial_text.specs.Spelling.{IsPartSpelling};

use crate::fitting::part_fits;
use crate::lines::part_lines;
use crate::opened::branches_are_open;
use certificate_data::Format;
use certificate_lines::WriteFault;
use partial_trees::PartialTree;
use std::alloc::Global;

/// Returns whether a text spells the `part`, for an order of `counties` counties.
fn has_part_text(part: &PartialTree, format: Format, counties: u16) -> bool
    ensures { IsTrue result ↔ ((text : List ℕ) × IsPartSpelling format counties text (partial_of part.now)) }
{
    if !branches_are_open(part) {
        return false;
    }
    part_fits(part, format, counties)
}

/// Returns the text that spells a partial tree, for an order of `counties` counties.
///
/// # Errors
///
/// Returns `NoSpelling` exactly if no text spells the `part`: its lines don't fit, or a branch of it has no open leaf.
/// Returns `Memory` if memory was refused.
pub fn write_part(
    alloc: Global,
    part: &PartialTree,
    format: Format,
    counties: u16,
) -> Result<Vec<u8>, WriteFault>
    requires { counties ≤ most }
    ensures spelled { IfOk result (λ text. IsPartSpelling format counties text.items (partial_of part.now)) }
    ensures none { IfErr result (λ fault. fault ≡ write_fault.NoSpelling → (text : List ℕ)
        → IsPartSpelling format counties text (partial_of part.now) → ⊥) }
{
    if !has_part_text(part, format, counties) {
        return Err(WriteFault::NoSpelling);
    }
    let text = part_lines(alloc, part)?;
    Ok(text)
}
