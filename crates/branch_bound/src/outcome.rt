//! What a search finds at a state, at a take, and at all takes of a branch.

use certificate_data::{Certificate, Leaf, Take, Tree};
use county_codes::Grouping;
use partial_trees::PartialTree;
use search_groups::Position;

/// What a search finds at a state.
#[derive(Drop)]
pub(crate) enum SearchOutcome {
    /// A proof tree of the state: no lawful grouping that agrees with the state is greater than the target.
    Proved(Tree),
    /// A lawful grouping that agrees with the state and is greater than the target.
    Better(Grouping),
    /// The steps ran out. What was proved by then is a partial tree of the state.
    Open(PartialTree),
}

/// How a state ends, or how the search goes on.
#[derive(Drop)]
pub(crate) enum Move<C> {
    /// A leaf that is valid.
    Leaf(Leaf),
    /// A lawful grouping that agrees with the state and is greater than the target.
    Better(Grouping),
    /// A branch at the county at this place, with what is known of the groups.
    Branch(u16, Position<C>),
}

/// What follows where no group of at most some size fits.
#[derive(Drop)]
pub(crate) enum Next<C> {
    /// A leaf that is valid.
    Leaf(Leaf),
    /// A lawful grouping that agrees with the state and is greater than the target.
    Better(Grouping),
    /// The groups of one county more.
    Groups(Vec<C>),
}

/// What the search of one take of a branch ends with.
#[derive(Drop)]
pub(crate) enum Taken {
    /// The take with its proof tree.
    Proved(Take),
    /// A greater grouping was found where its group is closed.
    Better(Grouping),
    /// The steps ran out. What was proved by then is a partial tree of the state where its group is closed.
    Open(PartialTree),
}

/// What the search of all takes of a branch ends with.
#[derive(Drop)]
pub(crate) enum Takes {
    /// All takes, each with its proof tree.
    Proved(Vec<Take>),
    /// A greater grouping was found where the group of one of them is closed.
    Better(Grouping),
    /// The steps ran out. What was proved by then is a partial tree of the state of the branch.
    Open(PartialTree),
}

/// What a search begins with.
#[derive(Drop)]
pub(crate) enum First {
    /// A lawful grouping.
    Found(Grouping),
    /// A certificate that no grouping is lawful.
    Impossible(Certificate),
}

/// How a state of a plain round ends, or how the search goes on.
#[derive(Drop)]
pub(crate) enum PlainMove {
    /// A leaf that is valid.
    Leaf(Leaf),
    /// A lawful grouping that agrees with the state and is greater than the target.
    Better(Grouping),
    /// A branch at the county at this place.
    Branch(u16),
}
