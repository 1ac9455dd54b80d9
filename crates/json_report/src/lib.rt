//! Answers as JSON (RFC 8259): the object of a report, of a size table, of an audit's findings, and of a line that
//! stands in place of an answer.
//!
//! Each is one object on one line. The definitions stand in `specs/`: `Parts` has the parts that all of them share,
//! `ReportObject`, `SizeObject`, `FindingsObject` and `Message` the objects, each as the list of its tokens.
#![tactic(auto)]

mod findings;
mod message;
mod parts;
mod report;
mod size;

pub use findings::findings_json;
pub use message::message_json;
pub use parts::{push_codes, push_names, push_number, push_run, push_seats, push_text};
pub use report::{begin, finish, greater_json, push_answer, push_counts, push_head, report_json};
pub use size::size_json;
