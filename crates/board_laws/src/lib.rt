//! Proofs in pieces, as definitions with laws: a proof tree that several solvers make together, and what the board that
//! gathers it holds.
//!
//! A *skeleton* is a proof tree in which numbered *pieces* stand. A piece waits, has its tree, or was split at a county
//! of a wide round. A split gives one piece for each group up to a limit in which the county may lie, and one piece for
//! the case that the county's group is larger. Each piece stands for one *state*, in which the groups on its way are
//! closed and the counties raised. If no piece waits, the trees of the pieces, put where they stand, are a proof tree.
//!
//! If two boards of a round hold the same splits and trees, each at its state, they join to the same text, byte for
//! byte, whichever numbers their pieces have.
//!
//! The definitions stand in `specs/`: `Skeleton`, `Standing` (which state a piece stands for) and `Content` (what a
//! board holds, and what each event with its reply does to it). `Laws` and `JoinedTexts` state the laws that they keep.
#![tactic(auto)]

mod joined_texts;
mod laws;

pub use joined_texts::joined_texts_are_one;
pub use laws::{boards_keep, pieces_stand, same_is_joined, skeletons_join};
