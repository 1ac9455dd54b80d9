//! The table of a grouping that joins to the shapes of the counties.
//!
//! Each listed county has a line: its code, its name and its people, and the label, the seats and the people of its
//! set.
//!
//! ```
//! let listed = read_named_counties(alloc, geo, segment1, 37)?;
//! let text = county_table(alloc, &listed, problem.withdrawn(), &grouping.groups)?;
//! ```
//!
//! `groupings_table` writes the long table of several groupings, with a line for each county in each of them.
//! `csv_line` writes one line of a comma-separated text.
//!
//! The definitions stand in `specs/`: `Table`, `GroupingsTable`, `LabelledSets`, and `Quoting`.
#![tactic(auto)]

mod csv_lines;
mod groupings;
mod sets;
mod table;

pub use csv_lines::csv_line;
pub use groupings::groupings_table;
pub use table::county_table;
