//! What a run was asked, what it read and stored, and how it ended.

use cli_file_stores::ByteSum;

/// Which file a run read.
#[derive(Clone, Copy, Debug, PartialEq, Eq)]
pub enum ReadFile {
    /// The geographic header.
    Geo,
    /// Segment 1.
    Segment1,
    /// A table of counties with their people.
    People,
    /// The county adjacency file.
    Adjacency,
    /// Links over the adjacent pairs.
    Links,
    /// The withdrawn sets.
    Withdrawn,
    /// A grouping.
    Grouping,
    /// A block assignment file.
    Assignments,
    /// The events of a board.
    Events,
    /// A certificate.
    Certificate,
}

/// The option that names a file to store.
#[derive(Clone, Copy, Debug, PartialEq, Eq)]
pub enum StoreOption {
    /// `--certificate`.
    Certificate,
    /// `--out`.
    Out,
    /// `--table`.
    Table,
    /// `--groupings`.
    Groupings,
    /// `--districts`.
    Districts,
    /// `--events`.
    Events,
}

/// A file that a run read.
#[derive(Debug, Drop)]
pub struct FileRead {
    /// Which file.
    pub file: ReadFile,
    /// The sum of the bytes that were read.
    pub sum: ByteSum,
    /// The name of the file.
    pub name: String,
    /// Whether the reading ended before the end of the file.
    pub left: bool,
}

/// A file that a run stored.
#[derive(Debug, Drop)]
pub struct FileStored {
    /// The option that named the file.
    pub option: StoreOption,
    /// The sum of the bytes that were stored.
    pub sum: ByteSum,
    /// The name of the file.
    pub name: String,
}

/// What a record says of a run.
#[derive(Debug, Drop)]
pub struct Run {
    /// The version of the program.
    pub version: String,
    /// The words, in order.
    pub words: Vec<String>,
    /// The files that were read, in the order in which they were first opened.
    pub reads: Vec<FileRead>,
    /// The files that were stored, in order.
    pub stores: Vec<FileStored>,
    /// The exit status.
    pub status: u8,
    /// The answer, as `answer_of` gives it.
    pub answer: Vec<u8>,
}
