//! The text of a partial tree, read and written. Each partial tree has at most one spelling.
//!
//! The lines are those of a tree, and the line `open` stands for an open leaf. A tree without an open leaf stands as a
//! whole: each branch that was begun has an open leaf, in its takes or behind it. The definitions stand in `specs/`:
//! `PartItems` (the items of a partial tree) and `Spelling`.
#![tactic(auto)]

mod fitting;
mod laws;
mod lines;
mod opened;
mod reading;
mod writing;

pub use certificate_lines::{TextFault, TextKind, WriteFault};
pub use laws::{parts_have_one_text, parts_have_texts};
pub use partial_trees::{PartialBranch, PartialTake, PartialTree};
pub use reading::front_part;
pub use writing::write_part;
