//! The solver's answer to a problem.

use certificate_data::Certificate;
use county_codes::Grouping;
use partial_trees::PartialTree;

/// The solver's answer to a problem.
#[derive(Debug, Drop)]
pub enum Answer {
    /// A best grouping, and a certificate that names it. The groups are ordered by size and then by codes, and the
    /// codes of each group ascend.
    Best(Grouping, Certificate),
    /// No grouping is lawful. The certificate proves it.
    Impossible(Certificate),
    /// The steps ran out.
    Open {
        /// The best lawful grouping that was found. It is `None` only if not a single step was allowed.
        found: Option<Grouping>,
        /// What was proved by then of that grouping being best: a partial tree of the round whose limit is its longest
        /// group. It is `None` if the last round had a lesser limit, or the search had begun no branch in it.
        part: Option<PartialTree>,
        /// The number of steps that were taken, which is the number that was allowed.
        steps: u64,
    },
}
