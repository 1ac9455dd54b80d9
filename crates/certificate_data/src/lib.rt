//! The data of a certificate: its format, its round, its tree with branches, takes and leaves, and the lines of a
//! bound leaf.
//!
//! The types of the code stand in `src/`, and the same data as definitions in `specs/`: `Round`, `Tree`, and `Levels`
//! (how each format counts the levels of a tree). `RoundValue` and `TreeValue` tie the two: they say which data a
//! value of the code stands for. The laws, lines, texts, checker and search build on this crate. The lines and the laws
//! need nothing else of one another.
//!
//! A further kind of leaf begins here, with `Leaf` in `tree.rt` and `specs/Tree.antt`. `certificate_laws` says what the
//! leaf shows, and `list_laws` when it is complete. `certificate_lines` and `certificate_text` have its lines.
//! `checker_laws` has its verdict and cost, `state_judge` and `certificate_checker` judge it, and `search_ends` finds
//! it. If the leaf has a fault of its own, the fault and its word stand in `state_judge`. `tools/check.py` is the
//! second checker.
#![tactic(auto)]

mod allowance;
mod certificate;
mod copies;
mod format;
mod round;
mod tree;
mod weights;

pub use allowance::Allowance;
pub use certificate::Certificate;
pub use format::Format;
pub use round::Round;
pub use tree::{Branch, Leaf, Take, Tree};
pub use weights::{Weight, Weights};
