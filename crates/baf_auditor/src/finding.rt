//! The kinds of findings, and the sets of counties that they name.

use crate::label::Label;
use county_problem::GroupingFault;

/// A set of counties in which districts are drawn. Both kinds are numbered from 1. Each group comes before each
/// withdrawn set.
#[derive(Clone, Copy, Debug, PartialEq, Eq)]
pub enum Set {
    /// The group of this number in the grouping.
    Group(u32),
    /// The withdrawn set of this number.
    Withdrawn(u32),
}

/// What is wrong with a plan's assignments. A block is named by the fifteen digits of its GEOCODE as a number.
#[derive(Debug, Drop)]
pub enum Finding {
    /// The grouping isn't lawful. This is then the only finding.
    Grouping(GroupingFault),
    /// A line names a block that isn't listed.
    UnknownBlock(u64),
    /// Two or more lines name the block.
    BlockTwice(u64),
    /// The block is listed and has people, and no line gives it to a district.
    Unassigned(u64),
    /// The district has listed blocks in both sets. The first set comes before the second.
    Crosses(Label, Set, Set),
    /// The set has this number of seats, but another number of districts has a block in it.
    WrongNumber(Set, u16, u32),
    /// The district has this number of people, and they don't suit one seat.
    DistrictSize(Label, u64),
}

/// All findings of an audit, by kind and then by block, set or label.
#[derive(Debug, Drop)]
pub struct Findings {
    /// The findings.
    pub list: Vec<Finding>,
}
