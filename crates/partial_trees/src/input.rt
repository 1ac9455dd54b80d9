//! What partial trees are judged by.

use certificate_checker::CheckInput;

/// What partial trees are judged by: the county graph, the round with the counts of its target, and the budget.
#[derive(Drop)]
pub(crate) struct PartInput<'g, 'a, 'b, C> {
    /// The county graph, in the round's order, the round, and the counts of its target.
    pub(crate) check: CheckInput<'g, 'a, 'b, C>,
    /// The steps that each branch and each whole tree may cost.
    pub(crate) budget: u64,
}
