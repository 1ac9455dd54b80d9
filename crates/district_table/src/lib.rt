//! The table of a plan's districts, with the least and the greatest people that suit one seat.
//!
//! Each district has a line: its label and its people, the least and the greatest people of a district, and the sets
//! and the counties in which it has blocks.
//!
//! ```
//! let text = districts_table(alloc, &problem, &districts)?;
//! ```
//!
//! The definitions stand in `specs/DistrictTable.antt`.
#![tactic(auto)]

mod table;

pub use table::districts_table;
