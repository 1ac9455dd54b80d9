//! What may be wrong with a file whose lines have county codes, and on which line.

use field_lines::LineFault;
use std::alloc::AllocFailed;
use thiserror::Error;

/// What is wrong with a file whose lines have county codes: adjacency, links, withdrawn sets or a grouping. The first
/// four are faults of a line. Of several on one line, the first is told.
#[derive(Clone, Copy, Debug, PartialEq, Eq, Error)]
pub enum CodeLineKind {
    /// The line has fewer fields than its file asks for.
    #[error("the line has too few fields")]
    TooFewFields,
    /// The first field of a link is neither `+` nor `-`.
    #[error("the sign of a link is + or -")]
    BadSign,
    /// The first field of a withdrawn set or of a group isn't a number of seats in the range.
    #[error("the number of seats is out of range")]
    BadSeats,
    /// A county code isn't five digits.
    #[error("a county code has five digits")]
    BadCode,
    /// The text has a line that can't be read. The faults of the lines before it come first.
    #[error("{0}")]
    Lower(LineFault),
    /// Memory was refused.
    #[error("out of memory")]
    Memory,
}

impl<T: Drop> From<AllocFailed<T>> for CodeLineKind {
    ghost use Rattle.std.specs.Prelude.{◌≡◌};
    ghost use Rattle.grouping_reader.specs.declared.fault.CodeLineKind.TheVariants.{Memory};

    ghost from_gives = { λ _ e. e ≡ Memory };

    fn from(_e: AllocFailed<T>) -> CodeLineKind {
        CodeLineKind::Memory
    }
}

/// Why a file whose lines have county codes gives nothing. The line counts from 1, with blank lines counted. For
/// `Lower` it is that of the line fault, and for `Memory` it is left open.
#[derive(Clone, Copy, Debug, PartialEq, Eq, Error)]
#[error("line {line}: {kind}")]
pub struct CodeLineFault {
    /// What is wrong.
    pub kind: CodeLineKind,
    /// The line, from 1.
    pub line: u32,
}

impl CodeLineFault {
    ghost use Rattle.std.specs.Prelude.{◌≡◌, ◌<◌, ◌^◌};
    ghost use Rattle.field_lines.specs.Fault.{line_of_fault};
    ghost use Rattle.grouping_reader.specs.Faults.{code_line_cut_fault};

    /// Creates the fault of a text whose lines end in `fault`.
    pub fn of_cut(fault: LineFault) -> Self
        requires { line_of_fault fault < 2 ^ 32 }
        ensures { result ≡ code_line_cut_fault fault }
    {
        CodeLineFault {
            kind: CodeLineKind::Lower(fault),
            line: fault.line() as u32,
        }
    }
}
