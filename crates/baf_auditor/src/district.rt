//! A district of a plan, and where its census blocks lie.

use crate::finding::Set;
use crate::label::Label;
use county_codes::CountyCode;

/// A district of a plan: a label that some line gives to a listed block.
#[derive(Debug, Drop)]
pub struct District {
    /// The label.
    pub label: Label,
    /// The people of its listed blocks, each block once.
    pub people: u64,
    /// The sets in which it has listed blocks: the groups by number, and then the withdrawn sets by number.
    pub sets: Vec<Set>,
    /// The counties in which it has listed blocks, by code.
    pub counties: Vec<CountyCode>,
}
