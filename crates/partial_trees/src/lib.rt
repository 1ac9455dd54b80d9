//! Partial trees, in which a leaf may be open, and the verdict on them at a state.
//!
//! A search that runs out of steps has proved a part of its tree. The part is a partial tree: what is proved, and an
//! open leaf for each state that is left. `check_part` tests it and gives these states. The definitions stand in
//! `board_laws`, which says what a board holds of a part.
#![tactic(auto)]

mod input;
mod judging;
mod laws;
mod open_leaves;
mod stop;
mod tree;

pub use judging::check_part;
pub use laws::parts_stand;
pub use stop::PartStop;
pub use tree::{PartialBranch, PartialTake, PartialTree};
