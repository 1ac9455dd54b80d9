//! Withdrawn sets: counties that were taken out beforehand, with their seats.

ghost use Rattle.std.specs.Prelude.{◌≡◌, IfOk};

use crate::codes::Codes;
use std::alloc::{AllocError, Global};

/// A set of counties that was taken out beforehand, with its seats. By *Stephenson v. Bartlett*, the districts that the
/// Voting Rights Act requires are formed first.
#[derive(Debug, PartialEq, Eq, Drop)]
pub struct Withdrawn {
    /// The seats of the set, at least 1 in a problem.
    pub seats: u16,
    /// The codes of its counties.
    pub codes: Codes,
}

impl Withdrawn {
    /// Returns an equal set, or an error if memory was refused.
    pub fn copy(&self) -> Result<Withdrawn, AllocError>
        ensures { IfOk result (λ set. set ≡ self.now) }
    {
        Ok(Withdrawn {
            seats: self.seats,
            codes: self.codes.copy()?,
        })
    }
}

/// Returns copies of `sets`, in the same order. Returns `AllocError` if memory was refused.
pub fn copy_sets(alloc: Global, sets: &[Withdrawn]) -> Result<Vec<Withdrawn>, AllocError>
    ensures { IfOk result (λ v. v.items ≡ sets.now) }
{
    let mut copies = Vec::new(alloc);
    for set in sets {
        copies.push(set.copy()?)?;
    }
    Ok(copies)
}
