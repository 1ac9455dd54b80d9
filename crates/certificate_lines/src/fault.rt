//! What may be wrong with a line of a certificate, and why a value may have no text.

ghost use Rattle.std.specs.Prelude.{◌≡◌};
ghost use Rattle.certificate_lines.specs.{KindWords.text_kind_word, declared.fault.TextKind.TheVariants.Memory};
ghost use Rattle.certificate_lines.specs.declared.fault.WriteFault.TheVariants as write;

use std::alloc::{AllocError, AllocFailed};
use thiserror::Error;

/// What is wrong with a line of a certificate.
#[derive(Clone, Copy, Debug, PartialEq, Eq, Error)]
pub enum TextKind {
    /// The first line isn't a head.
    #[error("the first line is no head")]
    BadHead,
    /// The line is too long, its first word may not stand there, or the number of words is wrong.
    #[error("the line is too long, or a word may not stand here, or there are too many or too few")]
    BadWord,
    /// A word isn't the number, the code or the pair that it has to be, or is out of range.
    #[error("a word is no number in its range, no code or no pair")]
    BadNumber,
    /// The line isn't in its one spelling. It has no byte at all, a byte that isn't printable, a blank that is first,
    /// last or doubled, a number with a leading zero, or weights whose codes don't ascend.
    #[error("the line is not in the one spelling of what it says")]
    NotCanonical,
    /// No LF ends the line, or there is no line where one must stand.
    #[error("the line is missing, or no LF ends it")]
    CutShort,
    /// Bytes stand after the end.
    #[error("bytes stand after the end")]
    AfterEnd,
    /// A branch stands too deep.
    #[error("a branch stands too deep")]
    TooDeep,
    /// The source could not be read.
    #[error("the source could not be read")]
    ReadFault,
    /// Memory was refused.
    #[error("out of memory")]
    Memory,
}

impl TextKind {
    /// Returns the word of the kind in the lines of the program, such as `BadHead`.
    pub fn word(self) -> &'static [u8]
        ensures { result.now ≡ text_kind_word self }
    {
        match self {
            TextKind::BadHead => b"BadHead",
            TextKind::BadWord => b"BadWord",
            TextKind::BadNumber => b"BadNumber",
            TextKind::NotCanonical => b"NotCanonical",
            TextKind::CutShort => b"CutShort",
            TextKind::AfterEnd => b"AfterEnd",
            TextKind::TooDeep => b"TooDeep",
            TextKind::ReadFault => b"ReadFault",
            TextKind::Memory => b"Memory",
        }
    }
}

/// The first fault of a text, which is why the text isn't a certificate. Lines are counted from 1. The line of a
/// `Memory` fault is left open.
#[derive(Clone, Copy, Debug, PartialEq, Eq, Error)]
#[error("line {line}: {kind}")]
pub struct TextFault {
    /// What is wrong.
    pub kind: TextKind,
    /// The number of the line, from 1.
    pub line: u64,
}

impl From<AllocError> for TextKind {
    ghost from_gives = { λ _ e. e ≡ Memory };

    fn from(_e: AllocError) -> TextKind {
        TextKind::Memory
    }
}

impl<T: Drop> From<AllocFailed<T>> for TextKind {
    ghost from_gives = { λ _ e. e ≡ Memory };

    fn from(_e: AllocFailed<T>) -> TextKind {
        TextKind::Memory
    }
}

/// Why a value has no text.
#[derive(Clone, Copy, Debug, PartialEq, Eq, Error)]
pub enum WriteFault {
    /// No text spells the value.
    #[error("the certificate has no spelling")]
    NoSpelling,
    /// Memory was refused.
    #[error("out of memory")]
    Memory,
}

impl From<AllocError> for WriteFault {
    ghost from_gives = { λ _ e. e ≡ write.Memory };

    fn from(_e: AllocError) -> WriteFault {
        WriteFault::Memory
    }
}
