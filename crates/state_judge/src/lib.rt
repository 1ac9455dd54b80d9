//! The verdict on one line of a certificate at a state: the line is fine, or it has a fault.
//!
//! The lines are those of a stuck leaf, a seats leaf, a branch, a take and a bound leaf. A line of a bound leaf allows
//! fewer groups than the target has, or as many, or it is at fault. Any bound depends on the room for groups of a size
//! and on the closed groups of that size, which are counted here. A state is given by the places of an order, and what
//! is said of it is said by codes. Any form of sets of places will do.
#![tactic(auto)]

mod bound;
mod branch;
mod fault;
mod fault_words;
mod judging;
mod leaf;
mod weights;

pub use bound::{Allowed, closed_of_size, judge_allowance, room_left};
pub use branch::{Branching, judge_branch, judge_take};
pub use fault::{CheckFault, LineStop};
pub use fault_words::push_check_fault;
pub use leaf::{judge_seats, judge_stuck};
