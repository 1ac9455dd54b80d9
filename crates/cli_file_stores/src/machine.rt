//! What a store of the machine's files asks of the machine besides its files.

use std::fs::{File, TryLockError};
use std::io;
use std::io::Write;
use std::rt::{Files, LibcRuntime};

/// What came of asking for the advisory lock of a file.
#[derive(Clone, Copy, PartialEq, Eq)]
pub enum Locking {
    /// The lock is held until the file is closed.
    Held,
    /// Somebody else holds the lock.
    InUse,
    /// The system has no such locks, or doesn't answer.
    Unknown,
}

/// A machine with files, their advisory locks and standard output.
pub trait Machine: Files {
    /// Asks for the advisory lock of `file`, and doesn't wait for it.
    fn lock(&self, file: &Self::File) -> Locking;

    /// Writes all `bytes` to standard output, behind what was written there before.
    ///
    /// # Errors
    ///
    /// Returns the error that the system gives. How many bytes went out isn't told.
    fn put_output(&self, bytes: &[u8]) -> io::Result<()>;
}

impl Machine for LibcRuntime {
    fn lock(&self, file: &File) -> Locking {
        match file.try_lock() {
            Ok(()) => Locking::Held,
            Err(TryLockError::WouldBlock) => Locking::InUse,
            Err(TryLockError::Error(_)) => Locking::Unknown,
        }
    }

    fn put_output(&self, bytes: &[u8]) -> io::Result<()> {
        io::writer(self).write_all(bytes)
    }
}

impl<R: Machine> Machine for &R {
    fn lock(&self, file: &R::File) -> Locking {
        (**self).lock(file)
    }

    fn put_output(&self, bytes: &[u8]) -> io::Result<()> {
        (**self).put_output(bytes)
    }
}
