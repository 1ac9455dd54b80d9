//! The text of a certificate, read and written. Each certificate has at most one spelling. Its lines, and the items
//! that they say, are those of `certificate_lines`. The public names of that crate for them are re-exported, and so are
//! those of `certificate_data`.
//!
//! A tree is written with its numbers as they stand. If its lines meet no fault, they spell it; otherwise nothing does.
//! `write` and `write_tree` first test by the values whether a text spells them.
//!
//! ```
//! let text = tree_lines(alloc, &tree)?;
//! let mut items = Items::of_tree(alloc, text.as_slice(), format, counties);
//! ```
//!
//! A proof tree whose numbers are in the ranges of their lines always has a text. The definitions stand in `specs/`:
//! `Trees` (the items of a tree), `Spelling`, `TreeFault` and `Ranges`.
#![tactic(auto)]

mod fitting;
mod laws;
mod lines;
mod reading;
mod writing;

pub use certificate_data::{Allowance, Branch, Certificate, Leaf, Take, Tree, Weight, Weights};
pub use certificate_lines::{
    Item, ItemSource, Items, Opening, TextFault, TextKind, Version, Wanted, Words, WriteFault,
};
pub use county_codes::Tolerance;
pub use fitting::tree_fits;
pub use laws::{
    certificates_have_one_text, items_and_texts_agree, items_come_in_turn, proof_trees_have_texts,
    trees_have_one_text, trees_spell,
};
pub use lines::{push_branch_line, push_mark_line, push_take_line, push_tree, tree_lines};
pub use reading::{allowances_at, front_tree, groups_at, read, read_tree};
pub use writing::{write, write_tree};
