//! What may be wrong with a table of counties, and on which line.

use field_lines::LineFault;
use std::alloc::AllocFailed;
use thiserror::Error;

/// What is wrong with a table of counties. The first four are faults of a line, and so is `DoubleCounty`. Of several on
/// one line, the first is told.
#[derive(Clone, Copy, Debug, PartialEq, Eq, Error)]
pub enum PeopleKind {
    /// The line hasn't two or three fields, or the quotes of a field are wrong.
    #[error("the line has a code, a number of people and perhaps a name")]
    BadLine,
    /// The first field isn't five digits.
    #[error("a county code has five digits")]
    BadCode,
    /// The second field isn't a number up to 4,294,967,295.
    #[error("a number of people is digits alone, and at most 4294967295")]
    BadNumber,
    /// The third field isn't UTF-8.
    #[error("the name of the county isn't UTF-8")]
    BadName,
    /// The code stood on a line before.
    #[error("the county stands on a line before")]
    DoubleCounty,
    /// No line is at fault, and none is for a county of the state.
    #[error("no line is a county of the state")]
    NoCounties,
    /// The text has a line that can't be read. This comes after the faults of the lines before it.
    #[error("{0}")]
    Lower(LineFault),
    /// Memory was refused.
    #[error("out of memory")]
    Memory,
}

impl<T: Drop> From<AllocFailed<T>> for PeopleKind {
    ghost use Rattle.std.specs.Prelude.{◌≡◌};
    ghost use Rattle.people_table.specs.declared.fault.PeopleKind.TheVariants.{Memory};

    ghost from_gives = { λ _ e. e ≡ Memory };

    fn from(_e: AllocFailed<T>) -> PeopleKind {
        PeopleKind::Memory
    }
}

/// Why a table gives no counties. Lines count from 1, and blank lines are counted. The line is 0 for `NoCounties`. For
/// `Memory` it is left open.
#[derive(Clone, Copy, Debug, PartialEq, Eq, Error)]
#[error("line {line}: {kind}")]
pub struct PeopleFault {
    /// What is wrong.
    pub kind: PeopleKind,
    /// The line, from 1.
    pub line: u32,
}

impl PeopleFault {
    ghost use Rattle.std.specs.Prelude.{◌≡◌, ◌<◌, ◌^◌};
    ghost use Rattle.field_lines.specs.Fault.{line_of_fault};
    ghost use Rattle.people_table.specs.TableFaults.{IsPeopleMemory, people_cut_fault};

    /// Creates the fault of a table whose lines end in `fault`.
    pub(crate) fn of_cut(fault: LineFault) -> Self
        requires { line_of_fault fault < 2 ^ 32 }
        ensures { result ≡ people_cut_fault fault }
    {
        PeopleFault {
            kind: PeopleKind::Lower(fault),
            line: fault.line() as u32,
        }
    }

    /// Creates the fault that says that memory was refused.
    pub(crate) fn no_memory() -> Self
        ensures { IsPeopleMemory result }
    {
        PeopleFault {
            kind: PeopleKind::Memory,
            line: 0,
        }
    }
}
