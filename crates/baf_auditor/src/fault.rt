//! What may be wrong with an assignment file, and on which line.

use field_lines::LineFault;
use thiserror::Error;

/// What is wrong with an assignment file. The first four are faults of a line. If a line has several, the first of them
/// is reported.
#[derive(Clone, Copy, Debug, PartialEq, Eq, Error)]
pub enum AssignmentKind {
    /// The line has fewer than two fields.
    #[error("the line has too few fields")]
    TooFewFields,
    /// The first field isn't a block of fifteen digits.
    #[error("a block has fifteen digits")]
    BadCode,
    /// The second field isn't a label: it has more than 32 bytes, or one that is not from 0x20 to 0x7E.
    #[error("a label has at most 32 printable bytes")]
    BadLabel,
    /// The line is the assignment after the 4,000,000th.
    #[error("there are too many assignments")]
    TooMany,
    /// The text has a line that can't be read. This comes after the faults of the lines before it.
    #[error("{0}")]
    Lower(LineFault),
    /// Memory was refused.
    #[error("out of memory")]
    Memory,
}

/// Why an assignment file gives nothing. Lines count from 1, and blank lines are counted. For `Lower` the line is that
/// of the line fault. For `Memory` it is left open.
#[derive(Clone, Copy, Debug, PartialEq, Eq, Error)]
#[error("line {line}: {kind}")]
pub struct AssignmentFault {
    /// What is wrong.
    pub kind: AssignmentKind,
    /// The line, from 1.
    pub line: u32,
}

impl AssignmentFault {
    ghost use Rattle.std.specs.Prelude.{◌≡◌, ◌<◌, ◌^◌};
    ghost use Rattle.field_lines.specs.Fault.{line_of_fault};
    ghost use Rattle.baf_auditor.specs.Assignments.{assignment_cut_fault};

    /// Creates the fault of a text whose lines end in `fault`.
    pub(crate) fn of_cut(fault: LineFault) -> Self
        requires { line_of_fault fault < 2 ^ 32 }
        ensures { result ≡ assignment_cut_fault fault }
    {
        AssignmentFault {
            kind: AssignmentKind::Lower(fault),
            line: fault.line() as u32,
        }
    }
}
