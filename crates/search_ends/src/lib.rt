//! How a search by branch and bound ends a state: with a stuck leaf, a seats leaf or a bound leaf, or with a lawful
//! grouping that is greater than the target.
//!
//! Each function tests the rule of its leaf before it returns the leaf, and the leaf's numbers are in the ranges of its
//! lines. A leaf that is returned is complete, except that a leaf of `empty_leaf` may also stand where the closed
//! groups have the target's counts through the limit. The lines of a bound leaf for the sizes below the last one allow
//! no group.
//!
//! If no group fits and no leaf is valid, the closed groups and the connected parts of the rest make a grouping that is
//! greater than the target. A state is given by the places of an order, and what is said of it is said by codes. Any
//! form of sets of places will do. `specs/` has the definitions: `GivenLeaf`, `EmptyLines`, `MissingGroups` and
//! `FinishedStates`.
#![tactic(auto)]

mod empty_leaves;
mod finished_groupings;
mod groups;
mod room;
mod seats;
mod sets;
mod standing;
mod weighed_leaves;
mod whole_leaves;

pub use empty_leaves::empty_leaf;
pub use finished_groupings::finished_grouping;
pub use room::room_leaf;
pub use standing::{groups_of_size, wanted_more};
pub use weighed_leaves::weighed_leaf;
pub use whole_leaves::whole_leaf;
