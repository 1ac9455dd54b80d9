//! Counties with their people from a table of a few columns, in place of the files of the census.
//!
//! A line has the code of a county, its people and perhaps its name, as in a spreadsheet that is saved as CSV.
//!
//! ```
//! let table = b"GEOID,POPULATION,NAME\n37183,1129410,Wake\n37063,324833,\"Durham, N.C.\"\n";
//! let counties = read_people(alloc, table, 37)?;       // Durham's 37063 and then Wake's 37183
//! let named = read_named_people(alloc, table, 37)?;    // the same counties with their names
//! ```
//!
//! The definitions stand in `specs/`: `Listed` for the lists, `CountiesOfTable` for what they are of a table's lines,
//! `CountyLines` for a line, and `QuotedFields` for its fields.
#![tactic(auto)]

mod county_line;
mod fault;
mod fields;
mod found;
mod people;

pub use fault::{PeopleFault, PeopleKind};
pub use people::{read_named_people, read_people};
