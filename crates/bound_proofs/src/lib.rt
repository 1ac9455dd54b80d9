//! The search for a leaf that is valid at a state of a proof tree: a stuck leaf, a seats leaf, or count lines. Count
//! lines bound the groups of each size. A state is given by the places of an order, and what is said of it by codes.
//! Any form of sets of places can be used. No command of the program calls this crate: it is an interface for other
//! programs.
#![tactic(auto)]

mod bound;
mod finder;
mod lines;

pub use finder::find_leaf;
