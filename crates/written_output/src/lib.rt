//! What a run writes as it goes on, text by text.
//!
//! ```
//! let mut written = Written::new(None);
//! write_next(&mut out, &mut written, b"accepted\n")?;
//! ```
//!
//! Behind a write that failed nothing more is written, so that no text goes out without those in front of it. The
//! definitions stand in `specs/Writing`.
#![tactic(auto)]

mod no_sink;
mod written;

pub use no_sink::NoSink;
pub use written::{Written, write_next};
