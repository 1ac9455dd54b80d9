//! Certificates that a grouping is best, or that none is lawful. Definitions and laws say what they show.
//!
//! A *round* names an order of the counties, a limit of sizes, a target (or none) and one of two formats. A *state*
//! has closed groups, the rest of the counties, and for each of these the least size of a group in which it may lie. A
//! lawful grouping *agrees* with a state if each closed group is one of its sets, and each county of the rest lies in a
//! set as large as the county asks for. With the empty state each lawful grouping agrees.
//!
//! A *proof tree* at a state shows that no grouping that agrees with the state is greater than the target. Its leaves
//! say why at once. A connected part of the rest is *stuck*, the *seats* can't add up, or *bound* lines give no more
//! groups of a size than the target has. Each branch is at a county. It has a tree for each group up to a limit that
//! *fits* and has the county, at the state where the group is closed. One more tree is for the case that the county's
//! group is larger. A *certificate* is a proof tree at the empty state.
//!
//! The definitions stand in `specs/`: `State`, `Agreement`, `StuckParts`, `Fitting`, `Groups` (of a branch),
//! `BoundLines`, `Leaves`, `Proving` and `Certificate`. The other files there state the laws. The data of rounds and
//! trees stand in `certificate_data`. `docs/reference/definitions.md` explains all of them.
#![tactic(auto)]

mod laws;

pub use certificate_data::Format;
pub use laws::{
    branches_keep_states, certificates_show, example_certificates, finished_states_beat,
    impossible_is_a_leaf, leaves_are_decided, lists_serve, places_serve,
    plain_rules_are_the_marked_ones, proof_trees_exclude, regions_are_grown, searches_end,
    states_have_codes, trees_are_shallow,
};
