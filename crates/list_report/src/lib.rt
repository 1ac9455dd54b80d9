//! What a list of groupings says: the sets that all groupings share, and the alternatives in each region of the other
//! counties.
//!
//! ```
//! let text = listing(alloc, &problem, &groupings)?;   // people .., answer all, best groupings 8, ..
//! ```
#![tactic(auto)]

mod alternatives;
mod json_listing;
mod laws;
mod listings;
mod regions;
mod sets;
mod shared_sets;
mod texts;

pub use json_listing::listing_json;
pub use laws::{people_are_of_groups, regions_are_joined};
pub use listings::listing;
