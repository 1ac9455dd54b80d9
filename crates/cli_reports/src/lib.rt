//! What each command says of its values: a report, a line or a table.
//!
//! `specs/Texts.antt` has the values of the code as the definitions of `run_laws` have them.
#![tactic(auto)]

mod audit_report;
mod board_reports;
mod checker_report;
mod forms;
mod judge_report;
mod listing_report;
mod solver_report;
mod table_runs;
mod which_grouping;

pub use audit_report::{Audited, audit_and_report};
pub use board_reports::{format_for, piece_and_report, shape_for, share_events};
pub use checker_report::check_from_and_report;
pub use forms::{line_in, refusal_in, shown, sizes_in};
pub use judge_report::judge_and_report;
pub use listing_report::{Asked, Listed, list_and_report};
pub use solver_report::{Solved, solve_and_report};
pub use table_runs::{Reported, Tabled};
