//! The seats and the county codes of a line, groupings read from such lines, and what may be wrong with a file of
//! codes. A line of seats and codes stands for a withdrawn set or for a group.
//!
//! ```
//! let (seats, codes) = seats_and_codes(alloc, b"2|37183|37063", 1, 1_000)?;    // 2, and two codes
//! let grouping = read_grouping(alloc, b"2|37183|37063\n1|37001\n")?;           // two groups
//! ```
#![tactic(auto)]

mod fault;
mod grouping;
mod seats;

pub use fault::{CodeLineFault, CodeLineKind};
pub use grouping::read_grouping;
pub use seats::{DELIMITER, code_in, seats_and_codes};
