//! The greatest number of counties that a problem may list.

/// The greatest number of counties that a problem may list. Texas, with the most of all states, has 254.
pub const MAX_COUNTIES: usize = 256;
