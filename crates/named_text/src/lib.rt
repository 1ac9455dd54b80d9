//! The text of an answer with the names of its counties.
//!
//! The line of a group lists its counties by their codes. Here the name of each county stands behind its code, and all
//! other lines stay as they are:
//!
//! ```
//! let text = named_text(alloc, b"group 1 seats 3 people 204576 counties 37133 37049\n", &named)?;
//! // group 1 seats 3 people 204576 counties 37133 Onslow County, 37049 Craven County
//! ```
//!
//! The definitions stand in `specs/NamedText.antt`.
#![tactic(auto)]

mod names;
mod text;

pub use text::named_text;
