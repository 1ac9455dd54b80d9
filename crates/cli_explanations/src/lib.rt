//! What a person is told on standard error, before a run and once it has ended: what is wrong, where it stands, and
//! what helps. The text is no part of an answer. Nothing is promised of it except that it is composed safely and that
//! composing it returns.
#![tactic(auto)]

mod best_not_shown;
mod board;
mod borders;
mod certificate_fault;
mod county_names;
mod device;
mod endings;
mod file_lines;
mod findings;
mod grouping_fault;
mod machine_files;
mod named_groups;
mod options;
mod outputs;
mod refusals;
mod shown_bytes;
mod state_line;
mod usage;
mod warnings;

pub use endings::{Before, Ended, explain, explain_before};
pub use options::Options;
pub use outputs::{Output, outputs_of};
