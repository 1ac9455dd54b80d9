//! The files of a run, as its options name them, and why one of them is refused.

use baf_auditor::AssignmentFault;
use certificate_lines::TextFault;
use grouping_reader::CodeLineFault;
use people_table::PeopleFault;
use pl94_counties::Pl94Fault;
use std::fmt;

/// An option that names a file.
#[derive(Clone, Copy, Debug, PartialEq, Eq)]
pub enum FileOption {
    /// The PL 94-171 geographic header.
    Geo,
    /// The PL 94-171 data segment 1.
    Segment,
    /// The table of counties with their people.
    People,
    /// The county adjacency file.
    Adjacency,
    /// Links over the adjacent pairs.
    Links,
    /// The withdrawn sets.
    Withdrawn,
    /// A grouping that is read.
    Grouping,
    /// A grouping whose number is asked for.
    Which,
    /// A certificate that is read.
    Certificate,
    /// A block assignment file.
    Assignments,
    /// The events of a board.
    Events,
    /// Standard input: the rounds and the open pieces that `worker` reads.
    Input,
    /// The certificate that is stored.
    CertificateOut,
    /// The grouping that is stored.
    Out,
    /// The table that is stored.
    Table,
    /// The table of all listed groupings that is stored.
    Groupings,
    /// The table of the districts that is stored.
    Districts,
    /// The events that are stored.
    EventsOut,
    /// The record of the run.
    Record,
}

/// The option as it is written among the words.
impl fmt::Display for FileOption {
    fn fmt<W: fmt::Write>(&self, f: &mut fmt::Formatter<W>) -> fmt::Result {
        f.write_str(match self {
            FileOption::Geo => "--geo",
            FileOption::Segment => "--segment",
            FileOption::People => "--people",
            FileOption::Adjacency => "--adjacency",
            FileOption::Links => "--links",
            FileOption::Withdrawn => "--withdrawn",
            FileOption::Grouping => "--grouping",
            FileOption::Which => "--which",
            FileOption::Certificate | FileOption::CertificateOut => "--certificate",
            FileOption::Assignments => "--assignments",
            FileOption::Events | FileOption::EventsOut => "--events",
            FileOption::Input => "standard input",
            FileOption::Out => "--out",
            FileOption::Table => "--table",
            FileOption::Groupings => "--groupings",
            FileOption::Districts => "--districts",
            FileOption::Record => "--record",
        })
    }
}

/// Why a file is refused: the fault of its reader, with its line.
#[derive(Clone, Copy, Debug, PartialEq, Eq)]
pub enum FileFault {
    /// A fault of the geographic header or of segment 1.
    Census(Pl94Fault),
    /// The NAME of a county on this line of the geographic header isn't UTF-8.
    BadName(u32),
    /// A fault of the table of counties.
    People(PeopleFault),
    /// A fault of a file whose lines have county codes.
    Codes(CodeLineFault),
    /// A fault of a block assignment file.
    Assignments(AssignmentFault),
    /// A fault of the events of a board.
    Events(TextFault),
    /// A fault of the rounds and the open pieces that a board tells.
    Pieces(TextFault),
}

impl FileFault {
    /// Returns the line of the fault, which counts from 1. It is 0 if the whole file is at fault.
    pub fn line(&self) -> u64 {
        match self {
            FileFault::Census(fault) => u64::from(fault.line),
            FileFault::BadName(line) => u64::from(*line),
            FileFault::People(fault) => u64::from(fault.line),
            FileFault::Codes(fault) => u64::from(fault.line),
            FileFault::Assignments(fault) => u64::from(fault.line),
            FileFault::Events(fault) | FileFault::Pieces(fault) => fault.line,
        }
    }
}

/// The fault as its reader tells it, without its line.
impl fmt::Display for FileFault {
    fn fmt<W: fmt::Write>(&self, f: &mut fmt::Formatter<W>) -> fmt::Result {
        match self {
            FileFault::Census(fault) => write!(f, "{}", fault.kind),
            FileFault::BadName(_) => f.write_str("the name of the county isn't UTF-8"),
            FileFault::People(fault) => write!(f, "{}", fault.kind),
            FileFault::Codes(fault) => write!(f, "{}", fault.kind),
            FileFault::Assignments(fault) => write!(f, "{}", fault.kind),
            FileFault::Events(fault) | FileFault::Pieces(fault) => write!(f, "{}", fault.kind),
        }
    }
}
