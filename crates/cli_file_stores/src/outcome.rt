//! How the calls of a file store ended, as its log notes them.

use crate::file_store::{FileStoreFault, ReadEnd};

/// How a call of a file store ended.
#[derive(Clone, Copy)]
pub(crate) enum Outcome {
    /// A file was loaded.
    Loaded,
    /// A file was not loaded.
    NotLoaded(FileStoreFault),
    /// A reader was given back, and the call gave this answer.
    Read(Result<ReadEnd, FileStoreFault>),
    /// A file was stored.
    Stored,
    /// A file was not stored.
    NotStored,
}
