//! Watchers, which are told how far a search is.

use county_codes::Grouping;
use county_problem::Steps;

/// A watcher, which is told how far a search is. It changes nothing in the answer: what is promised of a search holds
/// for each watcher.
pub trait Watcher {
    /// Handles the start of a round. The round closes groups of at most `limit` counties, and its `target` is the best
    /// grouping so far.
    fn round(&mut self, limit: u16, target: &Grouping);

    /// Handles the entry into a state. `steps` tells how many steps are taken by then.
    fn step(&mut self, steps: &Steps);
}

/// A watcher that does nothing.
#[derive(Drop)]
pub struct NoWatcher;

impl Watcher for NoWatcher {
    fn round(&mut self, _limit: u16, _target: &Grouping) {}

    fn step(&mut self, _steps: &Steps) {}
}
