//! All best groupings of a problem, read from a certificate.
//!
//! ```
//! match all_best(alloc, &problem, text, 10_000_000)? {
//!     Listing::All(groupings) => ..,      // all best groupings, in order
//!     Listing::Open(gap, line) => ..,     // the target is best, but the tree isn't complete at this line
//!     Listing::Impossible => ..,          // no grouping is lawful
//!     Listing::No(fault, line) => ..,     // the text is no certificate of the problem
//!     Listing::Budget => ..,              // the budget is below the text's cost
//! }
//! ```
//!
//! `all_best` asks `check` first, and then reads the certificate. `walk` goes through its tree once, from `position` to
//! `position`. At each bound leaf that doesn't fall short (`shortfall`) it seats the closed groups (`seating`) and
//! finds a grouping, or stops at the first gap. `sorting` puts groups and groupings in order.
//!
//! Two lists of all best groupings have the same sets in the same order, and the text of a list speaks of sets alone.
//! So the text depends on the problem, and not on the certificate (`specs/ListLaws.antt`).
#![tactic(auto)]

mod answering;
mod gap;
mod laws;
mod listing;
mod position;
mod seating;
mod shortfall;
mod sorting;
mod text_law;
mod walk;

pub use answering::all_best;
pub use gap::Gap;
pub use laws::{gaps_tell, lists_agree};
pub use listing::Listing;
pub use text_law::listings_are_one;
