//! Why a text from a source may have no verdict.

use thiserror::Error;

/// Why a text that is pulled from a source has no verdict.
#[derive(Clone, Copy, Debug, PartialEq, Eq, Error)]
pub enum CheckStop {
    /// The source could not be read.
    #[error("the source could not be read")]
    ReadFault,
    /// Memory was refused.
    #[error("out of memory")]
    Memory,
}
