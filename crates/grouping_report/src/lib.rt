//! The texts of a problem and its groupings: the size table, the report, the grouping text and the findings of an
//! audit. `grouping_reader` reads groupings from their lines.
#![tactic(auto)]

mod faults;
mod findings;
mod first_lines;
mod grouping;
mod outcome;
mod reports;
mod table;

pub use faults::{push_grouping_fault, push_words_number};
pub use findings::{findings_text, push_block};
pub use grouping::grouping_text;
pub use grouping_reader::{CodeLineFault, CodeLineKind, read_grouping};
pub use outcome::Outcome;
pub use reports::{groups_of_size, longest_group, push_answer, push_counts, push_head, report};
pub use table::size_table;
