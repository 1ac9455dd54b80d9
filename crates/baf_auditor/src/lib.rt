//! Block assignment files, which give census blocks to districts by their labels, and the audit of a plan's assignments
//! against a grouping of counties. `districts` lists the districts of a plan: the people of each, and the sets and the
//! counties in which it has blocks.
#![tactic(auto)]

mod assignments;
mod auditing;
mod block_findings;
mod block_kinds;
mod block_list;
mod crossings;
mod district;
mod district_blocks;
mod district_counties;
mod district_list;
mod district_sets;
mod entries;
mod fault;
mod finding;
mod label;
mod line_counts;
mod lines_by_block;
mod numbers;
mod sizes;

pub use assignments::{Assignment, read_assignments};
pub use auditing::audit;
pub use district::District;
pub use district_list::districts;
pub use fault::{AssignmentFault, AssignmentKind};
pub use finding::{Finding, Findings, Set};
pub use label::Label;
