//! The search for weights which show that few of some groups are disjoint.

ghost use Rattle.std.specs.Prelude.{◌≡◌, ◌<◌, ◌≤◌, length, All, IfOk};
ghost use Rattle.county_codes.specs.Limits.{most_counties};
ghost use Rattle.connected_laws.specs.Listing.{AreBelow};

use crate::kept_sums::KeptSums;
use crate::sets::{covered_by, having_lists};
use crate::weights::uniform;
use place_sets::CountySet;
use std::alloc::{AllocError, Global};

/// The number of times that the lightest group is made heavier.
const ROUNDS: u32 = 400;

/// The weight of each county at first.
const START: u32 = 60;

/// The number of groups above which each county simply weighs 1.
const MANY: usize = 2_000;

/// Weights by place, the weight of the lightest group, and the weight of all counties.
#[derive(Drop)]
struct Weighing {
    weights: Vec<u32>,
    quota: u64,
    sum: u64,
    ghost range: { All (λ w. w ≤ 1000000) weights.items },
}

impl Weighing {
    /// Returns whether the quota goes into the sum fewer than `wanted` times.
    fn shows(&self, wanted: u32) -> bool {
        self.sum < self.quota.saturating_mul(u64::from(wanted))
    }

    /// Returns whether `quota` goes into `sum` fewer times than this weighing's quota goes into its sum.
    fn is_beaten_by(&self, quota: u64, sum: u64) -> bool {
        sum.saturating_mul(self.quota) < self.sum.saturating_mul(quota)
    }

    /// Copies the weights of `kept`, whose lightest group weighs the `quota`, into this weighing if they are better.
    fn improve(&mut self, kept: &KeptSums, quota: u64)
        requires count { length self.old.weights.items ≡ length kept.now.weights.items }
        ensures count { length self.new.weights.items ≡ length self.old.weights.items }
    {
        if self.is_beaten_by(quota, kept.total) {
            self.weights.copy_from_slice(&kept.weights);
            self.quota = quota;
            self.sum = kept.total;
        }
    }
}

/// Returns the best weights of all rounds, or the first ones that show that fewer than `wanted` groups are disjoint.
/// Each round tries the weights of `kept`, and then makes the lightest group heavier. Every eighth round tries them
/// without what no group needs. For each place, `having` lists the indices of the `groups` that have it.
fn best_of_rounds<C: CountySet>(
    alloc: Global,
    kept: &mut KeptSums,
    having: &[Vec<u16>],
    groups: &[C],
    found: Weighing,
    wanted: u32,
) -> Result<Vec<u32>, AllocError>
    requires places { length having.now ≡ length kept.old.weights.items }
    requires sums { length kept.old.sums.items ≡ length groups.now }
    requires lists { All (λ v. All (λ i. i < length groups.now) v.items) having.now }
    requires below { AreBelow (length having.now) C.test groups.now }
    requires some { 0 < length groups.now }
    requires count { length found.weights.items ≡ length having.now }
    ensures count { IfOk result (λ v. length v.items ≡ length having.now) }
    ensures range { IfOk result (λ v. All (λ w. w ≤ 1000000) v.items) }
{
    let mut best = found;
    let mut lowered = kept.copy(alloc)?;
    for round in 0..ROUNDS {
        let (index, quota) = kept.lightest();
        if round % 8 == 7 {
            lowered.copy_from(kept);
            lowered.lower(having, quota);
            best.improve(&lowered, quota);
        } else {
            best.improve(kept, quota);
        }
        if best.shows(wanted) {
            return Ok(best.weights);
        }
        kept.raise(having, &groups[index]);
    }
    Ok(best.weights)
}

/// Returns weights by place which show that fewer than `wanted` of the `groups`, all of `size` counties, are disjoint.
/// If no such weights were found, it returns the best that were found. Each weight is at most 1,000,000, and 0 for a
/// county of no group.
///
/// # Errors
///
/// Returns an error if memory was refused.
pub fn weigh<C: CountySet>(
    alloc: Global,
    places: u16,
    groups: &[C],
    size: u16,
    wanted: u32,
) -> Result<Vec<u32>, AllocError>
    requires fits { places ≤ C.PLACES }
    requires few { places ≤ most_counties }
    requires below { AreBelow places C.test groups.now }
    ensures count { IfOk result (λ v. length v.items ≡ places) }
    ensures range { IfOk result (λ v. All (λ w. w ≤ 1000000) v.items) }
{
    let covered = covered_by(alloc, groups)?;
    let counted = Weighing {
        weights: uniform(alloc, places, &covered, 1)?,
        quota: u64::from(size),
        sum: u64::from(covered.size()),
    };
    if counted.shows(wanted) || size == 1 || groups.is_empty() || groups.len() > MANY {
        return Ok(counted.weights);
    }
    let having = having_lists(alloc, places, groups)?;
    let weights = uniform(alloc, places, &covered, START)?;
    let mut kept = KeptSums::new(alloc, weights, &having, groups.len())?;
    best_of_rounds(alloc, &mut kept, &having, groups, counted, wanted)
}
