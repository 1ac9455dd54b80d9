//! The files that commands read: each is loaded or read piece by piece, and its first fault is refused.

pub(crate) mod board_files;
pub(crate) mod border_warnings;
pub(crate) mod census_files;
pub(crate) mod counties;
pub(crate) mod files;
pub(crate) mod head_reader;
pub(crate) mod plan_files;
pub(crate) mod problem;
pub(crate) mod readers;
pub(crate) mod withdrawn_warnings;
