//! Counties by their codes, and the sets of codes that files and groupings name.
//!
//! A county has the five digits of the Census's GEOID. A withdrawn set and a group are seats with a list of codes. This
//! crate puts no condition on such a list: a problem and the judge test it.
//!
//! ```
//! let wake = CountyCode::new(37_183);      // Some: at most 99,999
//! let first = repeated_code(&[a, b, a]);   // Some(a)
//! ```
#![tactic(auto)]

mod code;
mod code_lists;
mod codes;
mod county;
mod group;
mod limits;
mod tolerance;
mod withdrawn;
mod writing;

pub use code::CountyCode;
pub use code_lists::{has_code, listed_codes, repeated_code, unlisted_code};
pub use codes::Codes;
pub use county::County;
pub use group::{Group, Grouping};
pub use limits::MAX_COUNTIES;
pub use tolerance::Tolerance;
pub use withdrawn::{Withdrawn, copy_sets};
pub use writing::{push_code, push_codes, push_five_digits};
