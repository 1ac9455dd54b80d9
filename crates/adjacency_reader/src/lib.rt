//! Which counties meet: the pairs of an adjacency file, links that add or cut pairs, and withdrawn sets.
//!
//! ```
//! let pairs = read_pairs(alloc, adjacency, &listed)?;          // the pairs of listed counties
//! let links = read_links(alloc, b"-|37055|37095\n")?;          // one pair is cut
//! let linked = apply_links(alloc, &pairs, &links)?;            // the last link on a pair decides
//! let sets = read_withdrawn(alloc, b"1|37119\n")?;             // one county with one seat
//! ```
#![tactic(auto)]

mod linked_pairs;
mod links;
mod pairs;
mod rows;
mod sets;

pub use grouping_reader::{CodeLineFault, CodeLineKind};
pub use linked_pairs::apply_links;
pub use links::{Link, Sign, read_links};
pub use pairs::read_pairs;
pub use sets::read_withdrawn;
