//! What the program `countygroups` does with its words, its files and its output.
#![tactic(auto)]

mod case;
mod command;
mod commands;
mod ended_run;
mod input;
mod notes;
mod program;
mod recording;
mod stored_files;
mod storing;
mod warnings;

pub use branch_bound::{NoWatcher, Watcher};
pub use case::{MAX_CASE, run_case, run_case_with_notes};
pub use cli_file_stores::{
    DiskFileStore, EventLog, FileReader, FileStore, FileStoreFault, GivenBytes, MAX_FILE,
    MemoryFile, MemoryFileStore, MemoryReader, ReadEnd, Sink, SinkFault, WholeFault, Writing,
};
pub use command::{run, run_with_notes};
pub use ended_run::EndedRun;
pub use notes::Notes;
pub use program::run_program;
pub use stored_files::StoredFiles;
pub use warnings::Warning;
