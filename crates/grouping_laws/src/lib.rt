//! What a lawful grouping is, which grouping is best, and the laws of both. The crate has definitions (`specs/`),
//! lemmas that other crates cite (`proofs/`), and no code. The functions do nothing, and their contracts are the laws.
#![tactic(auto)]

mod laws;

pub use laws::{greater_orders_counts, groups_add_up, problems_name_their_tolerance};
