//! The record of a run: its words, the files with their sums, the status and the answer. The record is made from the
//! words and from the sums of what the run's file store gave and took.
//!
//! ```
//! let read = FileRead { file: ReadFile::Geo, sum: sum_of(&bytes), name, left: false };
//! let text = record_text(alloc, &run)?;    // the whole record
//! ```
//!
//! The definitions stand in `specs/`: `RunRecord` and `RecordFiles`, and of the text `Record`, `Escapes` and `Answers`.
//! If a command comes to read a further file, name it in `files_to_read` of `specs/RecordFiles.antt` and in
//! `src/reads.rt`. If a further option names a file to store, name it in `options_to_store` there and in
//! `src/stores.rt`.
#![tactic(auto)]

mod answer;
mod escapes;
mod reads;
mod report;
mod run;
mod run_record;
mod stores;
mod text;

pub use answer::answer_of;
pub use report::{record_file, record_of_run};
pub use run::{FileRead, FileStored, ReadFile, Run, StoreOption};
pub use run_record::record_since;
pub use text::record_text;
