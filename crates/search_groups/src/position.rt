//! Where a search stands.

use state_groups::State;

/// Groups of one county more than those that are known, by their lists of places. They include all that fit, and maybe
/// dead ones.
#[derive(Drop)]
pub struct Larger<C> {
    pub groups: Vec<C>,
    /// Whether dead groups have been left out since a group was last closed.
    pub tested: bool,
}

/// Where a search stands: a state, and what is known of its groups. No group of fewer than `size` counties fits.
/// `groups` has all groups of `size` counties that fit, by their lists of places, and maybe dead ones.
#[derive(Drop)]
pub struct Position<C> {
    pub state: State<C>,
    pub size: u16,
    pub groups: Vec<C>,
    /// Whether dead groups have been left out since a group was last closed.
    pub tested: bool,
    /// The groups of one county more, if they are listed.
    pub larger: Option<Larger<C>>,
}
